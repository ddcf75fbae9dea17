//! Optional numbers as a flat column stores them: items, and a flag for each.
ghost use Rattle.std.specs.Prelude.{◌≡◌, ◌<◌, ◌≤◌, ◌+◌, ℤ, List, Option, None, Some, length, map, option_map, replicate, slice_get, IfSome};
ghost use Rattle.column_core.specs.Optionals.{optionals};
ghost use Rattle.column_sums.specs.Reach.{AreFlagsOfEight, AreSized, IsStored};
ghost use Rattle.column_sums.specs.SumRange.{sum_range};

use crate::item_flags::ItemFlags;
use crate::summed_in::SummedIn;
use column_core::NativePType;

/// Reads numbers by index, some of which may be null.
pub trait Numbers<V: NativePType> {
    // The numbers, in order.
    ghost numbers: { Self → List (Option ℤ) };

    /// Returns the number at `index`, or `None` for null.
    fn number(&self, index: usize) -> Option<V>
        requires { index < length (numbers self.now) }
        ensures { slice_get (numbers self.now) index ≡ Some (option_map V.number result) };

    /// Returns a size that no number from `from` to `to - 1` exceeds, where numbers can be read at little cost.
    #[inline(always)]
    fn size_between(&self, from: usize, to: usize) -> Option<u64>
        requires some { from < to }
        requires within { to ≤ length (numbers self.now) }
        ensures { IfSome result (λ size. AreSized (sum_range V.PTYPE) size (slice_get (numbers self.now)) from to) }
    {
        None
    }

    /// Returns in its lowest eight bits which of eight numbers are not null, where that can be read at little cost.
    #[inline(always)]
    fn flags_of_eight(&self, from: usize) -> Option<u64>
        requires { from + 8 ≤ length (numbers self.now) }
        ensures { IfSome result (λ flags. AreFlagsOfEight flags (slice_get (numbers self.now)) from) }
    {
        None
    }

    /// Returns the number at `index`, and any number for null.
    #[inline(always)]
    fn stored(&self, index: usize) -> V
        requires { index < length (numbers self.now) }
        ensures { IsStored (slice_get (numbers self.now) index) (V.number result) }
    {
        match self.number(index) {
            Some(number) => number,
            None => V::default(),
        }
    }
}

/// Lends items, and their flags. Where a flag is false, the item is stored and not shown.
#[derive(Drop)]
pub struct Items<'a, T: NativePType, F: ItemFlags> {
    pub items: &'a [T],
    pub flags: &'a F,
}

impl<'a, V: NativePType, T: SummedIn<V>, F: ItemFlags> Numbers<V> for Items<'a, T, F> {
    ghost numbers = { λ own. optionals (map T.number own.items.now) (F.flags own.flags.now) };

    #[inline]
    fn number(&self, index: usize) -> Option<V> {
        let items = self.items;
        prove!(index < items.len());
        if self.flags.is_valid(index) {
            Some(items[index].to_summed())
        } else {
            None
        }
    }

    #[inline(always)]
    fn size_between(&self, from: usize, to: usize) -> Option<u64> {
        prove!(to <= self.items.len());
        Some(size_of_items::<V, T>(self.items, from, to))
    }

    #[inline(always)]
    fn flags_of_eight(&self, from: usize) -> Option<u64> {
        Some(self.flags.flags_of_eight(from))
    }

    #[inline(always)]
    fn stored(&self, index: usize) -> V {
        let items = self.items;
        prove!(index < items.len());
        items[index].to_summed()
    }
}

/// Counts numbers that are all null. No type of items is named, so that all share one loop.
#[derive(Drop)]
pub struct AllNull {
    pub count: usize,
}

impl<V: NativePType> Numbers<V> for AllNull {
    ghost numbers = { λ own. replicate own.count None };

    #[inline]
    fn number(&self, _index: usize) -> Option<V> {
        None
    }

    #[inline(always)]
    fn size_between(&self, _from: usize, _to: usize) -> Option<u64> {
        Some(0)
    }

    #[inline(always)]
    fn flags_of_eight(&self, _from: usize) -> Option<u64> {
        Some(0)
    }
}

// A size that none of the items exceeds: each bit of it is one of an item's size, so that a type with one size for all
// its items has none read.
#[inline(always)]
fn size_of_items<V: NativePType, T: SummedIn<V>>(items: &[T], from: usize, to: usize) -> u64
    requires some { from < to }
    requires within { to ≤ length items.now }
    ensures { AreSized (sum_range V.PTYPE) result (λ k. option_map (λ item. Some (T.number item))
        (slice_get items.now k)) from to }
{
    let mut size = items[from].size();
    for index in from..to {
        size |= items[index].size();
    }
    size
}
