//! Which lists are valid, as a column of booleans.
ghost use Rattle.std.specs.Prelude.{◌≡◌, IfOk, IsOkUnless};
ghost use Rattle.runend_array.specs.Array.{column_of, validity_of, IsRowValidity};
ghost use Rattle.runend_array.specs.Column.{IsPlainTruths, column_of_runs};
ghost use Rattle.runend_column.specs.ListParts.{flags_column, same_flags as same_in_column};

use runend_array::{
    ArrayRef, BoolArray, ConstantArray, DType, ExecutionCtx, Nullability, RowValidity, RunEnd,
    RunEndArray, RunEndArrayExt, RunEndArraySlotsExt, Scalar, ScalarValue, Validity, VortexError,
    VortexResult,
};
use std::alloc::Allocator;

/// Returns whether each of `count` rows is valid. Refused only for memory.
#[tactic(auto, using(crate::proofs::ListParts::flags_in_runs))]
pub(crate) fn flags_of<A: Allocator + Copy>(
    validity: &RowValidity<A>,
    count: usize,
    ctx: &mut ExecutionCtx<A>,
) -> VortexResult<ArrayRef<A>>
    requires { IsRowValidity validity.now }
    ensures flags { IfOk result (λ made. column_of made ≡ flags_column (validity_of validity.now) count) }
    ensures only { IsOkUnless result VortexError.OutOfMemory }
    ensures session { ctx.new ≡ ctx.old }
{
    match validity {
        RowValidity::NonNullable | RowValidity::AllValid => Ok(same_flags(true, count)),
        RowValidity::AllInvalid => Ok(same_flags(false, count)),
        RowValidity::Bits(bits) => {
            let bits = bits.try_clone(*ctx.allocator())?;
            let array = BoolArray::new_unchecked(bits, Validity::NonNullable);
            Ok(ArrayRef::Bool(array))
        }
        RowValidity::Runs(runs) => copy_of_runs(runs, ctx),
    }
}

// The same flag in each of `count` rows. Takes no memory.
fn same_flags<A: Allocator + Copy>(flag: bool, count: usize) -> ArrayRef<A>
    ensures { column_of result ≡ same_in_column flag count }
{
    let dtype = DType::Bool(Nullability::NonNullable);
    let scalar = Scalar::try_new(dtype, Some(ScalarValue::Bool(flag))).unwrap();
    ArrayRef::Constant(ConstantArray::new(scalar, count))
}

// A run column in the same form. Refused only for memory.
#[tactic(auto, using(crate::proofs::ListParts::copied_parts, crate::proofs::ListParts::copied_form))]
fn copy_of_runs<A: Allocator + Copy>(
    runs: &RunEndArray<A>,
    ctx: &mut ExecutionCtx<A>,
) -> VortexResult<ArrayRef<A>>
    ensures form { IfOk result (λ made. column_of made ≡ column_of_runs runs.now) }
    ensures only { IsOkUnless result VortexError.OutOfMemory }
    ensures session { ctx.new ≡ ctx.old }
{
    let ends = runs.ends().try_clone(ctx)?;
    match runs.values().try_clone(ctx) {
        Ok(values) => {
            let copy = RunEnd::new_unchecked(ends, values, runs.offset(), runs.len());
            ArrayRef::of_runs(*ctx.allocator(), copy)
        }
        Err(error) => {
            drop(ends);
            Err(error)
        }
    }
}
