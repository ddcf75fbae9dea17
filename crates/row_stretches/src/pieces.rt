//! The runs that the rows of stretches are in, piece by piece: one search for each stretch, and a step for each piece.
ghost use Rattle.std.specs.Prelude.{◌≡◌, ◌+◌, ◌^◌, ◌<◌, ◌-◌, ℕ, List, [], ◌∷◌, ◌++◌, All, IfOk, IsOkUnless, OnOk, length, map, slice_range, unsigned_abs};
ghost use Rattle.column_base.specs.Numbers.{numbers, ptype_of};
ghost use Rattle.column_base.specs.Types.{IsUnsigned};
ghost use Rattle.runend_windows.specs.Window.{IsWindow, typed_ends};
ghost use Rattle.row_stretches.specs.Pieces.{AreCut, runs_of};
ghost use Rattle.row_stretches.specs.Stretches.{IsWithin, stretch_places, stretch_rows};

use crate::stretches::Stretch;
use column_base::match_each_unsigned;
use column_core::{CountedEnds, PrimitiveValues, UnsignedPType, VortexError, VortexResult};
use runend_windows::{first_past, reach_of};
use std::alloc::Allocator;

/// Holds rows that are cut out of runs, one piece after another: 16 bytes for a piece.
#[derive(Drop)]
pub(crate) struct Pieces<A: Allocator> {
    // Where each piece ends, in rows of all pieces.
    pub(crate) ends: Vec<u64, A>,
    // The run that each piece is of, or the row of lists that it repeats.
    pub(crate) runs: Vec<u64, A>,
    // How many rows the pieces have.
    pub(crate) count: usize,
}

/// Returns the pieces of the rows of these stretches, of runs with these ends in a window. Refused only as
/// `OutOfMemory`.
pub(crate) fn pieces_among<A: Allocator + Copy>(
    alloc: A,
    ends: &PrimitiveValues<A>,
    offset: usize,
    count: usize,
    order: &[Stretch],
) -> VortexResult<Pieces<A>>
    requires unsigned { IsUnsigned (ptype_of ends.now) }
    requires window { IsWindow (map unsigned_abs (numbers ends.now)) offset count }
    requires within { All (IsWithin count) order.now }
    requires small { length (stretch_places order.now) < 2 ^ 64 }
    ensures only { IsOkUnless result VortexError.OutOfMemory }
    ensures cut { IfOk result (λ pieces. AreCut (length (map unsigned_abs (numbers ends.now)))
        (stretch_rows (runs_of (map unsigned_abs (numbers ends.now)) offset count) order.now)
        pieces.ends.items pieces.runs.items pieces.count) }
{
    match_each_unsigned!(ends, items => pieces_in(alloc, items.as_slice(), offset, count, order))
}

// The same, of ends as they are stored.
fn pieces_in<E: UnsignedPType, A: Allocator + Copy>(
    alloc: A,
    ends: &[E],
    offset: usize,
    count: usize,
    order: &[Stretch],
) -> VortexResult<Pieces<A>>
    requires window { IsWindow (typed_ends E.number ends.now) offset count }
    requires within { All (IsWithin count) order.now }
    requires small { length (stretch_places order.now) < 2 ^ 64 }
    ensures only { IsOkUnless result VortexError.OutOfMemory }
    ensures cut { IfOk result (λ pieces. AreCut (length (typed_ends E.number ends.now))
        (stretch_rows (runs_of (typed_ends E.number ends.now) offset count) order.now)
        pieces.ends.items pieces.runs.items pieces.count) }
{
    let mut pieces = Pieces {
        ends: Vec::new(alloc),
        runs: Vec::new(alloc),
        count: 0,
    };
    for stretch in order {
        push_stretch(&mut pieces, ends, offset, count, *stretch)?;
    }
    Ok(pieces)
}

// Puts the pieces of a stretch after the others.
fn push_stretch<E: UnsignedPType, A: Allocator + Copy>(
    pieces: &mut Pieces<A>,
    ends: &[E],
    offset: usize,
    count: usize,
    stretch: Stretch,
) -> VortexResult<()>
    requires window { IsWindow (typed_ends E.number ends.now) offset count }
    requires within { IsWithin count stretch }
    requires small { pieces.old.count + (stretch.stop - stretch.start) < 2 ^ 64 }
    ensures only { IsOkUnless result VortexError.OutOfMemory }
    ensures cut { (rows : List ℕ) → AreCut (length (typed_ends E.number ends.now)) rows pieces.old.ends.items
        pieces.old.runs.items pieces.old.count → OnOk result (AreCut (length (typed_ends E.number ends.now))
        (rows ++ slice_range (runs_of (typed_ends E.number ends.now) offset count) stretch.start stretch.stop)
        pieces.new.ends.items pieces.new.runs.items pieces.new.count) }
    ensures count { OnOk result (pieces.new.count ≡ pieces.old.count + (stretch.stop - stretch.start)) }
{
    if stretch.start >= stretch.stop {
        return Ok(());
    }
    let mut counted = CountedEnds::new(ends);
    let mut run = first_past(&mut counted, offset + stretch.start);
    let mut row = stretch.start;
    while row < stretch.stop {
        let reach = reach_of(ends, run, offset, count).min(stretch.stop);
        push_piece(pieces, run, reach - row)?;
        row = reach;
        run += 1;
    }
    Ok(())
}

/// Puts this number of rows of a run after the others.
pub(crate) fn push_piece<A: Allocator + Copy>(
    pieces: &mut Pieces<A>,
    run: usize,
    rows: usize,
) -> VortexResult<()>
    requires small { pieces.old.count + rows < 2 ^ 64 }
    ensures only { IsOkUnless result VortexError.OutOfMemory }
    ensures ends { OnOk result (pieces.new.ends.items ≡ pieces.old.ends.items ++ (pieces.old.count + rows) ∷ []) }
    ensures runs { OnOk result (pieces.new.runs.items ≡ pieces.old.runs.items ++ run ∷ []) }
    ensures count { OnOk result (pieces.new.count ≡ pieces.old.count + rows) }
{
    pieces.ends.push((pieces.count + rows) as u64)?;
    pieces.runs.push(run as u64)?;
    pieces.count += rows;
    Ok(())
}
