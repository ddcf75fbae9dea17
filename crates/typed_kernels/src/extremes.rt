//! The least and the greatest row of a column, by what its rows are worked as.
ghost use Rattle.std.specs.Prelude.{◌≡◌, ◌≢◌, Err, IfOk, IsErrOf, Some};
ghost use Rattle.column_core.specs.Kinds.{list_fault};
ghost use Rattle.column_core.specs.Refusal.{IsRefusedBy};
ghost use Rattle.float_bits.specs.declared.formats.FloatFormat.{FloatFormat};
ghost use Rattle.runend_array.specs.Array.{column_of, dtype_of};
ghost use Rattle.runend_array.specs.declared.session.Kernel.TheVariants.{MinMax as min_max_kernel};
ghost use Rattle.runend_commands.specs.Extremes.{HasBytes};
ghost use Rattle.runend_commands.specs.KernelForms.{IsReadInPlace};
ghost use Rattle.typed_columns.specs.Typed.{typed_of};
ghost use Rattle.typed_kernels.specs.Extremes.{AreTypedExtremes};
ghost use Rattle.typed_kernels.specs.Served.{served};

use crate::meanings::Served;
use column_core::{Scalar, VortexError, VortexResult};
use column_floats::FloatFormat;
use runend_array::ExecutionCtx;
use runend_commands::compute;
use runend_floats::min_max_numbers;
use std::alloc::Allocator;
use typed_columns::TypedColumn;

/// Holds the least and the greatest row of a column, or none where there is none.
#[derive(Drop)]
pub enum TypedExtremes<A: Allocator> {
    /// Holds the rows as they are stored, numbers of times among these, none where all rows are null.
    Stored(Option<(Scalar<A>, Scalar<A>)>),
    /// Holds floats of this format by their bits, none where each row is null or a NaN.
    Floats(FloatFormat, Option<(u64, u64)>),
}

/// Returns the least and the greatest row that are not null: of floats the least and the greatest number, in which NaNs
/// have no place, and -0.0 is below 0.0. Copies of texts and of bytes take memory, and so do floats; other rows take
/// none where the array is flat, or is runs or a constant and the kernel is registered. Refused as `Unsupported` for
/// lists, else only as `OutOfMemory`.
pub fn typed_min_max<A: Allocator + Copy>(
    column: &TypedColumn<A>,
    ctx: &mut ExecutionCtx<A>,
) -> VortexResult<TypedExtremes<A>>
    ensures refused { IsRefusedBy (list_fault (dtype_of column.now.array)) result }
    ensures extremes { IfOk result (AreTypedExtremes (typed_of column.now)) }
    ensures in_place { ((f : FloatFormat) → served (typed_of column.now) ≢ Served.Floats f) →
        ¬ HasBytes (dtype_of column.now.array) →
        IsReadInPlace ctx.old min_max_kernel (column_of column.now.array) →
        result ≢ Err VortexError.OutOfMemory }
    ensures session { ctx.new ≡ ctx.old }
{
    match Served::of(column) {
        Served::Floats(format) => {
            let ends = min_max_numbers(&column.array, ctx)?;
            Ok(TypedExtremes::Floats(format, ends))
        }
        _ => {
            let ends = compute::min_max(&column.array, ctx)?;
            Ok(TypedExtremes::Stored(ends))
        }
    }
}
