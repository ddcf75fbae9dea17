//! The rows of stretches of lists that are in runs: a step for each run of offsets, sizes or validity in a stretch.
ghost use Rattle.std.specs.Prelude.{◌≡◌, ◌+◌, ◌-◌, ◌^◌, ◌<◌, ◌++◌, All, IfOk, IsOkUnless, List, OnOk, Option, length, slice_range};
ghost use Rattle.column_core.specs.Value.{Value};
ghost use Rattle.runend_windows.specs.Window.{run_rows};
ghost use Rattle.runend_encode.specs.Starts.{rows_at};
ghost use Rattle.runend_array.specs.Array.{column_of, dtype_of, rows};
ghost use Rattle.runend_array.specs.Column.{IsFlat};
ghost use Rattle.runend_array.specs.Lists.{list_count, list_dtype, list_rows};
ghost use Rattle.row_stretches.specs.Copies.{AreCopies};
ghost use Rattle.row_stretches.specs.Pieces.{ArePieces};
ghost use Rattle.row_stretches.specs.Stretches.{IsWithin, stretch_places, stretch_rows};

use crate::list_stops::stop_of_lists;
use crate::pieces::{Pieces, push_piece};
use crate::stretches::Stretch;
use column_core::{Validity, VortexError, VortexResult};
use runend_array::{ArrayRef, Canonical, ListViewArray};
use runend_encode::least_ends;
use std::alloc::Allocator;

/// Returns the lists of these stretches, one stretch after another, over the same elements, with offsets, sizes and
/// validity in runs. Takes a step for each run of these in a stretch. Refused only as `OutOfMemory`.
pub(crate) fn lists_in<A: Allocator + Copy>(
    alloc: A,
    lists: &ListViewArray<A>,
    order: &[Stretch],
) -> VortexResult<ArrayRef<A>>
    requires within { All (IsWithin (list_count lists.now)) order.now }
    requires small { length (stretch_places order.now) < 2 ^ 64 }
    ensures only { IsOkUnless result VortexError.OutOfMemory }
    ensures rows { IfOk result (λ made. rows made ≡ stretch_rows (list_rows lists.now) order.now) }
    ensures dtype { IfOk result (λ made. dtype_of made ≡ list_dtype lists.now) }
    ensures flat { IfOk result (λ made. IsFlat (column_of made)) }
{
    let pieces = pieces_of_lists(alloc, lists, order)?;
    let made = lists_of_pieces(alloc, lists, &pieces);
    drop(pieces);
    let made = made?;
    Canonical::List(made).into_array(alloc)
}

// The pieces of the lists of these stretches: each repeats the list that `runs` numbers.
#[tactic(auto, using(crate::proofs::Copies::no_copies))]
fn pieces_of_lists<A: Allocator + Copy>(
    alloc: A,
    lists: &ListViewArray<A>,
    order: &[Stretch],
) -> VortexResult<Pieces<A>>
    requires within { All (IsWithin (list_count lists.now)) order.now }
    requires small { length (stretch_places order.now) < 2 ^ 64 }
    ensures only { IsOkUnless result VortexError.OutOfMemory }
    ensures copies { IfOk result (λ pieces. AreCopies (list_rows lists.now)
        (stretch_rows (list_rows lists.now) order.now) pieces.ends.items pieces.runs.items pieces.count) }
{
    let mut pieces = Pieces {
        ends: Vec::new(alloc),
        runs: Vec::new(alloc),
        count: 0,
    };
    for stretch in order {
        push_lists(&mut pieces, lists, *stretch)?;
    }
    Ok(pieces)
}

// Puts the pieces of a stretch after the others.
fn push_lists<A: Allocator + Copy>(
    pieces: &mut Pieces<A>,
    lists: &ListViewArray<A>,
    stretch: Stretch,
) -> VortexResult<()>
    requires within { IsWithin (list_count lists.now) stretch }
    requires small { pieces.old.count + (stretch.stop - stretch.start) < 2 ^ 64 }
    ensures only { IsOkUnless result VortexError.OutOfMemory }
    ensures copies { (rows : List (Option Value)) → AreCopies (list_rows lists.now) rows pieces.old.ends.items
        pieces.old.runs.items pieces.old.count → OnOk result (AreCopies (list_rows lists.now)
        (rows ++ slice_range (list_rows lists.now) stretch.start stretch.stop)
        pieces.new.ends.items pieces.new.runs.items pieces.new.count) }
    ensures count { OnOk result (pieces.new.count ≡ pieces.old.count + (stretch.stop - stretch.start)) }
{
    let mut row = stretch.start;
    while row < stretch.stop {
        let reach = stop_of_lists(lists, row).min(stretch.stop);
        push_piece(pieces, row, reach - row)?;
        row = reach;
    }
    Ok(())
}

// The lists that pieces repeat, with offsets, sizes and validity in runs.
fn lists_of_pieces<A: Allocator + Copy>(
    alloc: A,
    lists: &ListViewArray<A>,
    pieces: &Pieces<A>,
) -> VortexResult<ListViewArray<A>>
    requires pieces { ArePieces (list_count lists.now) pieces.now.ends.items pieces.now.runs.items pieces.now.count }
    ensures only { IsOkUnless result VortexError.OutOfMemory }
    ensures rows { IfOk result (λ made. list_rows made ≡ run_rows pieces.now.ends.items
        (rows_at (list_rows lists.now) pieces.now.runs.items) 0 pieces.now.count) }
    ensures dtype { IfOk result (λ made. list_dtype made ≡ list_dtype lists.now) }
{
    let taken = lists.take_at(alloc, pieces.runs.as_slice(), &Validity::NonNullable)?;
    let ends = match least_ends(alloc, &pieces.ends) {
        Ok(ends) => ends,
        Err(error) => {
            drop(taken);
            return Err(error);
        }
    };
    let made = taken.decode_with(alloc, &ends, 0, pieces.count);
    drop(ends);
    drop(taken);
    made
}
