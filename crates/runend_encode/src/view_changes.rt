//! Which of 64 texts differ from the text before: bytes are read only where the views differ.
ghost use Rattle.std.specs.Prelude.{◌≡◌, ◌≢◌, ◌↔◌, ◌+◌, ◌*◌, ◌<◌, ◌≤◌, ℕ, true, false, IsTrue, length, slice_get};
ghost use Rattle.std.specs.Int.{bit_at};
ghost use Rattle.column_core.specs.Leaf.{single_rows, OfVarBins};
ghost use Rattle.column_core.specs.VarBinForm.{varbin_rows};
ghost use Rattle.runend_windows.specs.Starts.{AreChangeBits, GoesOn};

use crate::rows::{are_same_views, is_same};
use column_core::{VarBinViewArray, View};
use column_ops::ColumnOps;
use std::alloc::Allocator;

/// Returns a bit for each of up to 64 views from `start` on: whether it differs from the view before. The bit of the
/// first view of all is false.
#[inline(always)]
pub(crate) fn changed_views(views: &[View], start: usize) -> u64
    requires { start < length views.now }
    ensures { (lane : ℕ) → lane < 64 → start + lane < length views.now →
        ((bit_at result lane ≡ 0) ↔ GoesOn views.now (start + lane)) }
{
    let count = views.len() - start;
    if count < 64 {
        few_views(views, start, count)
    } else {
        many_views(views, start)
    }
}

/// Returns the bits of rows from `start` on that may differ from the row before, with those cleared whose rows are
/// equal to it.
#[inline(always)]
pub(crate) fn differing_rows<A: Allocator + Copy>(
    column: &VarBinViewArray<A>,
    start: usize,
    unlike: u64,
) -> u64
    requires in_bounds { start < length (varbin_rows column.now) }
    requires told { (lane : ℕ) → lane < 64 → start + lane < length (varbin_rows column.now) →
        bit_at unlike lane ≡ 0 → GoesOn (single_rows (OfVarBins column.now)) (start + lane) }
    ensures { (lane : ℕ) → lane < 64 → start + lane < length (varbin_rows column.now) →
        ((bit_at result lane ≡ 0) ↔ GoesOn (single_rows (OfVarBins column.now)) (start + lane)) }
{
    let mut word = unlike;
    let mut rest = unlike;
    while rest != 0 {
        let lane = rest.trailing_zeros() as usize;
        rest = without(rest, lane);
        word = without_if(word, lane, goes_on_at(column, start, lane));
    }
    word
}

// Is there a row of the lane, and is it equal to the row before? The first row of all is.
#[inline(always)]
fn goes_on_at<A: Allocator + Copy>(column: &VarBinViewArray<A>, start: usize, lane: usize) -> bool
    requires { start < length (varbin_rows column.now) }
    ensures { start + lane < length (varbin_rows column.now) →
        (IsTrue result ↔ GoesOn (single_rows (OfVarBins column.now)) (start + lane)) }
{
    if lane >= column.row_count() - start {
        return false;
    }
    let row = start + lane;
    is_same(column, row.saturating_sub(1), row)
}

// The word with 0 at the lane.
#[inline(always)]
fn without(word: u64, lane: usize) -> u64
    requires { lane < 64 }
    ensures here { bit_at result lane ≡ 0 }
    ensures others { (other : ℕ) → other < 64 → other ≢ lane → bit_at result other ≡ bit_at word other }
    ensures less { bit_at word lane ≡ 1 → result < word }
{
    word & !(1 << lane)
}

// The same where it is asked for.
#[inline(always)]
fn without_if(word: u64, lane: usize, clear: bool) -> u64
    requires { lane < 64 }
    ensures cleared { clear ≡ true → bit_at result lane ≡ 0 }
    ensures kept { clear ≡ false → result ≡ word }
    ensures others { (other : ℕ) → other < 64 → other ≢ lane → bit_at result other ≡ bit_at word other }
{
    if clear { without(word, lane) } else { word }
}

// The bits of 64 views. Eight at a time are compared without a loop, since their number is a constant.
#[inline(always)]
fn many_views(views: &[View], start: usize) -> u64
    requires { start + 64 ≤ length views.now }
    ensures { AreChangeBits views.now start (start + 64) result }
{
    let mut word = 0;
    for eight in 0..8 {
        word |= few_views(views, start + eight * 8, 8) << (eight * 8);
    }
    word
}

// The bits of `count` views.
#[inline(always)]
fn few_views(views: &[View], start: usize, count: usize) -> u64
    requires few { count ≤ 64 }
    requires in_bounds { start + count ≤ length views.now }
    ensures { AreChangeBits views.now start (start + count) result }
{
    let mut word = 0;
    let mut before = start.saturating_sub(1);
    for lane in 0..count {
        let here = start + lane;
        word |= u64::from(!are_same_views(views, before, here)) << lane;
        before = here;
    }
    word
}
