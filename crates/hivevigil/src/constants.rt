//! The call that makes a column of one value.
ghost use Rattle.std.specs.Prelude.{◌≡◌, ◌≢◌, [], IsSomeAnd, MatchOption, pos};
ghost use Rattle.c_columns.specs.Ending.{EndsUnless};
ghost use Rattle.c_columns.specs.Handle.{array_in, format_in};
ghost use Rattle.c_columns.specs.Kinds.{dtype_by};
ghost use Rattle.c_columns.specs.Makers.{ConstantFault, IsConstantOf};

use c_columns::commands::answer;
use c_columns::constants;
use c_columns::error_fields::{BAD_NUMBER, ErrorFields};
use c_columns::handle::Handle;
use c_columns::kinds::{self, Kind};
use c_columns::row_value::RowValue;
use std::alloc::Global;

/// Returns the value, of this type, in each of `count` rows. Answers 23 where the number is of no type, or of lists;
/// else refused as `constants::constant` says.
#[tactic(auto, using(crate::proofs::PartEndings::unless_done, crate::proofs::PartEndings::unless_refused))]
#[unsafe(no_mangle)]
pub extern "C" fn hv_constant(
    alloc: Global,
    kind: &Kind,
    value: &RowValue,
    text: &[u8],
    count: usize,
    out: &mut Handle,
    error: &mut ErrorFields,
) -> i32
    ensures made { result ≡ pos 0
        → IsSomeAnd (dtype_by kind.now.number kind.now) (λ dtype. IsSomeAnd (array_in out.new.column)
        (λ c. IsConstantOf dtype value.now text.now count c)) }
    ensures untyped { result ≡ pos 0 → format_in out.new.column ≡ [] }
    ensures kept { result ≢ pos 0 → out.new.column ≡ out.old.column }
    ensures ended { MatchOption (dtype_by kind.now.number kind.now) (result ≡ pos 23)
        (λ dtype. EndsUnless (ConstantFault dtype value.now text.now) result error.new) }
{
    match kinds::dtype_of(kind) {
        Some(dtype) => answer(
            constants::constant(alloc, dtype, value, text, count),
            out,
            error,
        ),
        None => BAD_NUMBER,
    }
}
