//! Stretches of rows, and how many rows they have together.
ghost use Rattle.std.specs.Prelude.{◌≡◌, ◌-◌, ◌/◌, ◌^◌, ◌<◌, ◌≤◌, ◌↔◌, IsTrue, length};
ghost use Rattle.row_stretches.specs.Stretches.{stretch_places};

/// Names the rows from `start` to `stop - 1`: none where it stops where it starts, or before.
#[derive(Clone, Copy)]
pub struct Stretch {
    pub start: usize,
    pub stop: usize,
}

/// Returns how many rows stretches have together, of which there are fewer than 2^64.
pub fn row_count(order: &[Stretch]) -> usize
    requires small { length (stretch_places order.now) < 2 ^ 64 }
    ensures { result ≡ length (stretch_places order.now) }
{
    let mut count = 0;
    for stretch in order {
        count += row_count_of(*stretch);
    }
    count
}

/// Returns whether stretches have two rows each at least, as a mean.
pub(crate) fn are_long(order: &[Stretch]) -> bool
    requires small { length (stretch_places order.now) < 2 ^ 64 }
    ensures { IsTrue result ↔ (length order.now ≤ length (stretch_places order.now) / 2) }
{
    order.len() <= row_count(order) / 2
}

// How many rows one stretch has.
fn row_count_of(stretch: Stretch) -> usize
    ensures { result ≡ stretch.stop - stretch.start }
{
    stretch.stop.saturating_sub(stretch.start)
}
