//! Which rows of any column are null.
ghost use Rattle.std.specs.Prelude.{◌≡◌, ◌<◌, ◌↔◌, IsTrue, IfOk, IsOkUnless};
ghost use Rattle.runend_array.specs.Array.{validity_of, IsRowValidity};
ghost use Rattle.runend_array.specs.Fault.{rows_told};
ghost use Rattle.runend_array.specs.Lists.{HasRows, IsAllValid, IsFlagRunUpTo, flag_stop, row_flag_at, row_nullability};

use crate::array::RunEndArray;
use crate::copies::{Buffers, copy_bits};
use crate::lists::Stretch;
use column_core::{BitBuffer, Nullability, VortexError, VortexResult};
use std::alloc::Allocator;

/// Says which rows of a column are null, row by row, or by runs of booleans.
#[cycle(array)]
#[derive(Drop)]
pub enum RowValidity<A: Allocator> {
    /// Says that the type has no null, so that no row is null.
    NonNullable,
    /// Says that the type has null, and no row is null.
    AllValid,
    /// Says that all rows are null.
    AllInvalid,
    /// Holds a bit for each row, which is null where the bit is false.
    Bits(BitBuffer<A>),
    /// Holds a run column of booleans without null; a row is null where it shows false.
    Runs(Box<RunEndArray<A>, A>),
}

impl<A: Allocator + Copy> RowValidity<A> {
    /// Returns whether the validity is not in runs, or in runs over flat booleans without null.
    pub(crate) fn is_plain(&self) -> bool
        ensures { IsTrue result ↔ IsRowValidity self.now }
    {
        match self {
            RowValidity::Runs(runs) => runs.is_truths(),
            _ => true,
        }
    }

    /// Returns whether the type of the rows has null.
    pub fn nullability(&self) -> Nullability
        ensures { result ≡ row_nullability (validity_of self.now) }
    {
        match self {
            RowValidity::NonNullable => Nullability::NonNullable,
            _ => Nullability::Nullable,
        }
    }

    /// Returns for how many rows it holds flags, and `None` where it serves any number of rows.
    pub fn len(&self) -> Option<usize>
        ensures { result ≡ rows_told (validity_of self.now) }
    {
        match self {
            RowValidity::NonNullable => None,
            RowValidity::AllValid => None,
            RowValidity::AllInvalid => None,
            RowValidity::Bits(bits) => Some(bits.len()),
            RowValidity::Runs(runs) => Some(runs.len()),
        }
    }

    /// Returns whether its form says that no row is null, whatever their number.
    pub(crate) fn is_all_valid(&self) -> bool
        ensures { IsTrue result ↔ IsAllValid (validity_of self.now) }
    {
        matches!(self, RowValidity::NonNullable | RowValidity::AllValid)
    }

    /// Returns whether the row at `index`, of `count` rows, is valid.
    pub(crate) fn is_valid(&self, index: usize, count: usize) -> bool
        requires plain { IsRowValidity self.now }
        requires counted { HasRows (validity_of self.now) count }
        requires within { index < count }
        ensures { result ≡ row_flag_at (validity_of self.now) index }
    {
        let _ = count;
        match self {
            RowValidity::NonNullable => true,
            RowValidity::AllValid => true,
            RowValidity::AllInvalid => false,
            RowValidity::Bits(bits) => bits.value(index),
            RowValidity::Runs(runs) => runs.truth_at(index),
        }
    }

    /// Returns whether the row at `index`, of `count` rows, is valid, and the row before which this is known to stay
    /// the same: the next row where there are bits, the end of the row's run where there are runs, and else `count`. A
    /// run is searched from `run` on, which is the run of an earlier row, or the first run, and is put into `run`.
    pub(crate) fn valid_from(&self, run: &mut usize, index: usize, count: usize) -> Stretch<bool>
        requires plain { IsRowValidity self.now }
        requires counted { HasRows (validity_of self.now) count }
        requires within { index < count }
        requires before { IsFlagRunUpTo (validity_of self.now) run.old index }
        ensures flag { result.value ≡ row_flag_at (validity_of self.now) index }
        ensures stop { result.stop ≡ flag_stop (validity_of self.now) count index }
        ensures within { index < result.stop }
        ensures before { IsFlagRunUpTo (validity_of self.now) run.new index }
    {
        match self {
            RowValidity::NonNullable => Stretch {
                value: true,
                stop: count,
            },
            RowValidity::AllValid => Stretch {
                value: true,
                stop: count,
            },
            RowValidity::AllInvalid => Stretch {
                value: false,
                stop: count,
            },
            RowValidity::Bits(bits) => Stretch {
                value: bits.value(index),
                stop: index + 1,
            },
            RowValidity::Runs(runs) => runs.truth_from(run, index),
        }
    }

    /// Returns a copy of the validity in its form. Refused only as `OutOfMemory`.
    #[cycle(clone_in)]
    pub(crate) fn clone_in(&self, alloc: A, buffers: Buffers) -> VortexResult<RowValidity<A>>
        ensures only { IsOkUnless result VortexError.OutOfMemory }
        ensures form { IfOk result (λ copy. validity_of copy ≡ validity_of self.now) }
        ensures plain { IsRowValidity self.now → IfOk result (λ copy. IsRowValidity copy) }
    {
        match self {
            RowValidity::NonNullable => Ok(RowValidity::NonNullable),
            RowValidity::AllValid => Ok(RowValidity::AllValid),
            RowValidity::AllInvalid => Ok(RowValidity::AllInvalid),
            RowValidity::Bits(bits) => match copy_bits(alloc, bits, buffers) {
                Ok(copy) => Ok(RowValidity::Bits(copy)),
                Err(error) => Err(error),
            },
            RowValidity::Runs(runs) => {
                let copy = runs.clone_in(alloc, buffers)?;
                let boxed = Box::new(alloc, copy)?;
                Ok(RowValidity::Runs(boxed))
            }
        }
    }
}
