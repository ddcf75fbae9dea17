//! The ends of runs as positions in a window.
ghost use Rattle.std.specs.Prelude.{◌≡◌, Some, length, map, IfSome};
ghost use Rattle.std.specs.Iterator.{UpTo, YieldsFirst, item_count};
ghost use Rattle.std.specs.Iterator.SizeHint.{IsWithinCount};
ghost use Rattle.runend_windows.specs.Trimmed.{trimmed_ends};

use column_core::UnsignedPType;
use std::marker::Model;

/// Returns where each run stops in a window of `length` rows from row `offset` on, in rows of the window: `min(end -
/// offset, length)` for each end, 0 for an end below the offset. Takes no memory.
pub fn trimmed_ends_iter<E: UnsignedPType>(
    ends: &[E],
    offset: usize,
    length: usize,
) -> TrimmedEnds<'_, E>
    ensures { result ≡ trimmed_ends (map E.natural ends.now) offset length }
{
    TrimmedEnds {
        ends,
        offset,
        count: length,
    }
}

/// Iterates over ends as positions in a window, in rows, from the first run to the last. A contract sees it as the list
/// of the items that are left.
#[derive(Drop)]
pub struct TrimmedEnds<'a, E: UnsignedPType> {
    ends: &'a [E],
    offset: usize,
    count: usize,
}

impl<'a, E: UnsignedPType> Model for TrimmedEnds<'a, E> {
    ghost use Rattle.std.specs.Prelude.{ℕ, List, map};
    ghost use Rattle.runend_windows.specs.Trimmed.{trimmed_ends};

    ghost Value = { List ℕ };

    ghost view = { λ s. trimmed_ends (map E.natural s.ends.now) s.offset s.count };
}

impl<'a, E: UnsignedPType> Iterator for TrimmedEnds<'a, E> {
    type Item = usize;

    ghost next_gives = { YieldsFirst (λ left. left) };

    ghost remaining = { item_count (λ left. left) };

    fn next(&mut self) -> Option<usize> {
        let (end, later) = self.ends.split_first()?;
        self.ends = later;
        let position = end.to_u64().saturating_sub(self.offset as u64);
        Some(position.min(self.count as u64) as usize)
    }

    // Exactly as many items as ends are left.
    fn size_hint(&self) -> (usize, Option<usize>)
        ensures exact { result ≡ (length self.now, Some (length self.now)) }
        ensures lower { IsWithinCount result.0 (item_count (λ left. left) self.now) }
        ensures upper { IfSome result.1 (UpTo (item_count (λ left. left) self.now)) }
    {
        let left = self.ends.len();
        (left, Some(left))
    }
}
