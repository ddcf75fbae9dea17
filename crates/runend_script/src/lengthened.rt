//! Columns to which rows are appended.
ghost use Rattle.std.specs.Prelude.{◌≡◌, IfOk, IsOkUnless, length, replicate};
ghost use Rattle.std.specs.Option.{option_or};
ghost use Rattle.column_core.specs.Kinds.{list_fault};
ghost use Rattle.column_core.specs.Refusal.{IsRefusedBy};
ghost use Rattle.runend_array.specs.Array.{dtype_of, rows};
ghost use Rattle.runend_builder.specs.Builder.{built_with, scalar_row};
ghost use Rattle.runend_script.specs.Lengthened.{IsEncodingOf, IsLengthened, lengthening_fault};

use column_base::{VortexError, VortexResult};
use column_core::Scalar;
use runend_builder::RunBuilder;
use std::alloc::Allocator;
use vortex_runend::{ArrayRef, ExecutionCtx};

/// Returns the encoding of the rows of a column followed by those of a batch. Refused as `Unsupported` for a column of
/// lists, then as a builder of the column's type and rows refuses the batch: as `TypeMismatch` for a batch of another
/// type, then as `WindowOverflow` where there were 2^64 rows or more.
#[tactic(auto, using(crate::proofs::RowsBehind::first_error, crate::proofs::RowsBehind::next_error, crate::proofs::RowsBehind::by_memory, crate::proofs::RowsBehind::encoding_of_built))]
pub fn with_batch<A: Allocator + Copy>(
    column: &ArrayRef<A>,
    batch: &ArrayRef<A>,
    ctx: &mut ExecutionCtx<A>,
) -> VortexResult<ArrayRef<A>>
    ensures refused { IsRefusedBy (option_or (list_fault (dtype_of column.now))
        (lengthening_fault column.now (dtype_of batch.now) (length (rows batch.now)))) result }
    ensures whole { IfOk result (IsLengthened column.now (rows batch.now)) }
    ensures session { ctx.new ≡ ctx.old }
{
    let mut builder = builder_of(column, ctx)?;
    match builder.append_rows(batch, ctx) {
        Ok(()) => finished(builder, ctx),
        Err(error) => {
            drop(builder);
            Err(error)
        }
    }
}

/// Returns the encoding of the rows of a column followed by `count` rows of a value. Refused as `with_batch` refuses as
/// many rows of the value's type.
#[tactic(auto, using(crate::proofs::RowsBehind::first_error, crate::proofs::RowsBehind::next_error, crate::proofs::RowsBehind::by_memory, crate::proofs::RowsBehind::encoding_of_built))]
pub fn with_value<A: Allocator + Copy>(
    column: &ArrayRef<A>,
    value: &Scalar<A>,
    count: usize,
    ctx: &mut ExecutionCtx<A>,
) -> VortexResult<ArrayRef<A>>
    ensures refused { IsRefusedBy (option_or (list_fault (dtype_of column.now))
        (lengthening_fault column.now value.now.dtype count)) result }
    ensures whole { IfOk result (IsLengthened column.now (replicate count (scalar_row value.now))) }
    ensures session { ctx.new ≡ ctx.old }
{
    let mut builder = builder_of(column, ctx)?;
    match builder.append_value(value, count) {
        Ok(()) => finished(builder, ctx),
        Err(error) => {
            drop(builder);
            Err(error)
        }
    }
}

// A builder of the column's type with its rows. Refused as `Unsupported` exactly for lists, else only as `OutOfMemory`.
fn builder_of<A: Allocator + Copy>(
    column: &ArrayRef<A>,
    ctx: &mut ExecutionCtx<A>,
) -> VortexResult<RunBuilder<A>>
    ensures refused { IsRefusedBy (list_fault (dtype_of column.now)) result }
    ensures rows { IfOk result (λ builder. builder ≡ built_with (dtype_of column.now) (rows column.now)) }
    ensures session { ctx.new ≡ ctx.old }
{
    let mut builder = RunBuilder::new(*ctx.allocator(), column.dtype())?;
    // A column has fewer than 2^64 rows.
    prove!(column.len() <= usize::MAX);
    match builder.append_rows(column, ctx) {
        Ok(()) => Ok(builder),
        Err(error) => {
            drop(builder);
            Err(error)
        }
    }
}

// The encoding of the rows of a builder. Refused only as `OutOfMemory`.
#[tactic(auto, using(crate::proofs::RowsBehind::encoding_as))]
fn finished<A: Allocator + Copy>(
    mut builder: RunBuilder<A>,
    ctx: &mut ExecutionCtx<A>,
) -> VortexResult<ArrayRef<A>>
    ensures only { IsOkUnless result VortexError.OutOfMemory }
    ensures encoded { IfOk result (IsEncodingOf builder.rows builder.dtype) }
    ensures session { ctx.new ≡ ctx.old }
{
    let finished = builder.finish(ctx);
    drop(builder);
    let runs = finished?;
    ArrayRef::of_runs(*ctx.allocator(), runs)
}
