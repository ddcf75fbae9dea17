//! Ends that are counted from the first row of a window, in the memory that they are in.
ghost use Rattle.std.specs.Prelude.{◌≡◌, ◌-◌, ◌≤◌, All, length, map, min, slice_set};
ghost use Rattle.runend_windows.specs.Window.{IsWindow, last_end};
ghost use Rattle.runend_encode.specs.Joined.{AllHaveRows};

use column_core::UnsignedPType;

/// Moves ends of one type without a wider type.
pub(crate) trait EndsType: UnsignedPType {
    /// Returns the end that is `rows` rows before this one.
    fn earlier(self, rows: usize) -> Self
        requires { rows ≤ Self.natural self }
        ensures { Self.natural result ≡ Self.natural self - rows };
}

impl EndsType for u8 {
    fn earlier(self, rows: usize) -> u8 {
        self - rows as u8
    }
}

impl EndsType for u16 {
    fn earlier(self, rows: usize) -> u16 {
        self - rows as u16
    }
}

impl EndsType for u32 {
    fn earlier(self, rows: usize) -> u32 {
        self - rows as u32
    }
}

impl EndsType for u64 {
    fn earlier(self, rows: usize) -> u64 {
        self - rows as u64
    }
}

/// Counts the ends of runs from the first row of the window; each run has to show a row.
pub(crate) fn shift_ends<E: EndsType>(ends: &mut [E], offset: usize, count: usize)
    requires window { IsWindow (map E.natural ends.old) offset count }
    requires shown { AllHaveRows (map E.natural ends.old) offset count }
    ensures { map E.natural ends.new ≡ map (λ end. min (end - offset) count) (map E.natural ends.old) }
{
    move_ends(ends, offset);
    // Only the last run may go on after the window.
    cut_last(ends, count);
}

// Moves each end `rows` rows back.
fn move_ends<E: EndsType>(ends: &mut [E], rows: usize)
    requires { All (λ end. rows ≤ E.natural end) ends.old }
    ensures { map E.natural ends.new ≡ map (λ end. end - rows) (map E.natural ends.old) }
{
    if rows != 0 {
        for end in ends.iter_mut() {
            *end = end.earlier(rows);
        }
    }
}

// Moves the last end, if there is one, to the given row.
fn cut_last<E: EndsType>(ends: &mut [E], count: usize)
    requires { count ≤ last_end (map E.natural ends.old) }
    ensures { map E.natural ends.new ≡ slice_set (map E.natural ends.old) (length ends.old - 1) count }
{
    let runs = ends.len();
    if runs == 0 {
        return;
    }
    let last = runs - 1;
    let past = ends[last].to_u64() as usize - count;
    ends[last] = ends[last].earlier(past);
}
