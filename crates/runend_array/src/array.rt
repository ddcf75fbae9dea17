//! The run column: runs of equal rows, seen through a window.
ghost use Rattle.std.specs.Prelude.{◌≡◌, ◌+◌, ◌-◌, ◌<◌, ◌≤◌, length, min, count_by, nat_le, nat_lt};
ghost use Rattle.runend_array.specs.Array.{column_of, rows};
ghost use Rattle.runend_windows.specs.Window.{run_at};
ghost use Rattle.runend_array.specs.Column.{AreParts, AreRuns, IsPlainEnds, Runs, column_dtype, end_numbers, end_ptype, runs_of};

mod encoding;
mod index_parts;
mod index_rows;
mod rows;

pub(crate) use self::encoding::plain_ends;
pub use self::encoding::validate_parts;
use crate::array_ref::ArrayRef;
use crate::ops;
use column_core::DType;
use std::alloc::Allocator;
use std::marker::Model;

/// Holds runs, and a window over their rows. Run k shows value k in the rows from the end before it up to its own end.
/// The column shows `length` of these rows, from row `offset` on.
#[cycle(array)]
#[derive(Drop)]
pub struct RunEndArray<A: Allocator> {
    ends: ArrayRef<A>,
    values: ArrayRef<A>,
    offset: usize,
    length: usize,
}

impl<A: Allocator> Model for RunEndArray<A> {
    ghost use Rattle.std.specs.Prelude.{◌+◌};
    ghost use Rattle.runend_array.specs.Column.{Runs, AreParts, runs_of, depth};

    ghost Value = { Runs };

    ghost use Rattle.runend_array.specs.ColumnCode.{runs_code};

    ghost coded = { runs_code };

    ghost use Rattle.runend_array.specs.Array.{column_of};

    ghost view = { λ a. runs_of (column_of a.ends) (column_of a.values) a.offset a.length };

    ghost invariant = { λ a. AreParts (column_of a.ends) (column_of a.values) a.offset a.length };

    ghost size = { λ r. depth r.values + 1 };

    ghost use Rattle.runend_array.specs.Falls.{deep_le-parts};

    ghost size_decreases = { λ a h. Prim.search (deep_le-parts, h) };
}

/// Holds the two columns inside a run column.
#[derive(Drop)]
pub struct RunEndSlots<A: Allocator> {
    /// Holds where each run ends, in rows.
    pub ends: ArrayRef<A>,
    /// Holds what each run shows.
    pub values: ArrayRef<A>,
}

impl<A: Allocator> RunEndSlots<A> {
    /// Names the slots, in their order.
    pub const NAMES: [&'static str; 2] = ["ends", "values"];
    /// Gives the place of the ends among the slots.
    pub const ENDS: usize = 0;
    /// Gives the place of the values among the slots.
    pub const VALUES: usize = 1;
}

/// Names the run-end encoding.
#[derive(Clone, Debug, Drop)]
pub struct RunEnd;

/// Gives the slots of a run column.
pub trait RunEndArraySlotsExt<A: Allocator> {
    // The form of the run column.
    ghost runs: { Self → Runs };

    /// Returns the ends: a flat column without null, of an unsigned type, whose numbers strictly increase.
    fn ends(&self) -> &ArrayRef<A>
        ensures plain { IsPlainEnds (column_of result.now) }
        ensures numbers { end_numbers (column_of result.now) ≡ (runs self.now).ends }
        ensures ptype { end_ptype (column_of result.now) ≡ (runs self.now).ends_type }
        ensures valid { AreRuns (runs self.now) };

    /// Returns the values, one for each run.
    fn values(&self) -> &ArrayRef<A>
        ensures form { column_of result.now ≡ (runs self.now).values }
        ensures valid { AreRuns (runs self.now) };
}

/// Gives what a run column has in addition to its slots.
pub trait RunEndArrayExt<A: Allocator>: RunEndArraySlotsExt<A> {
    /// Returns how many rows of the runs lie before the window.
    fn offset(&self) -> usize
        ensures { result ≡ (Self.runs self.now).offset };

    /// Returns the type of the rows.
    fn dtype(&self) -> DType
        ensures { result ≡ column_dtype (Self.runs self.now).values };

    /// Returns the run of row `index`, or the last run where no run ends past it.
    fn find_physical_index(&self, index: usize) -> usize
        requires some { 0 < length (Self.runs self.now).ends }
        requires within { index ≤ (Self.runs self.now).count }
        ensures place { let r = Self.runs self.now in
            result ≡ min (count_by (λ e. nat_le e (r.offset + index)) r.ends) (length r.ends - 1) }
        ensures run { let r = Self.runs self.now in index < r.count → result ≡ run_at r.ends (r.offset + index) };

    /// Returns where the runs of the rows before row `index` stop: one run past the last of them.
    fn find_slice_end_index(&self, index: usize) -> usize
        requires some { 0 < length (Self.runs self.now).ends }
        requires within { index ≤ (Self.runs self.now).count }
        ensures place { let r = Self.runs self.now in
            result ≡ min (count_by (λ e. nat_lt e (r.offset + index)) r.ends + 1) (length r.ends) };
}

impl<A: Allocator + Copy> RunEndArraySlotsExt<A> for RunEndArray<A> {
    ghost runs = { λ r. r };

    fn ends(&self) -> &ArrayRef<A> {
        &self.ends
    }

    fn values(&self) -> &ArrayRef<A> {
        &self.values
    }
}

impl<A: Allocator + Copy> RunEndArrayExt<A> for RunEndArray<A> {
    fn offset(&self) -> usize {
        self.offset
    }

    fn dtype(&self) -> DType {
        self.values_dtype()
    }

    fn find_physical_index(&self, index: usize) -> usize {
        ops::find_physical_index(&self.ends, self.offset + index)
    }

    fn find_slice_end_index(&self, index: usize) -> usize {
        ops::find_slice_end_index(&self.ends, self.offset + index)
    }
}
