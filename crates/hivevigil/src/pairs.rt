//! Calls that work rows by the runs of their columns: of two, of one by itself, and of two by a mask.
ghost use Rattle.std.specs.Prelude.{◌≡◌, ◌≢◌, [], IsSomeAnd, MatchOption, pos};
ghost use Rattle.c_columns.specs.Ending.{WhereAll, WhereBoth};
ghost use Rattle.c_columns.specs.Flags.{Tells};
ghost use Rattle.c_columns.specs.Handle.{array_in, format_in};
ghost use Rattle.c_columns.specs.TwoColumns.{EndsOnTwo};
ghost use Rattle.c_kernels.specs.Chosen.{AreChosenOf, EndsOnThree, IsCommonFormat};
ghost use Rattle.c_kernels.specs.Combined.{operator_numbered, AreCombined, EndsOnPairs};
ghost use Rattle.c_kernels.specs.Equal.{equal_fault, AreEqual};
ghost use Rattle.c_kernels.specs.Hashed.{EndsOnHash, HasHash};
ghost use Rattle.c_kernels.specs.Tested.{EndsOnTested, IsTested};
ghost use Rattle.c_kernels.specs.declared.tested.RowTest.TheVariants.{Not, Null, Valid};

use c_columns::error_fields::ErrorFields;
use c_columns::handle::Handle;
use c_kernels::{
    RowTest, choose_handles, combine_handles, equal_handles, hash_handle, test_handle,
};
use std::alloc::Global;

/// Makes what the operator of this number answers of the two rows at each place, in runs, as few as possible, or in a
/// constant. Refused as `Unsupported` for columns that the operator does not serve, then as `TypeMismatch` for two
/// types, or for decimals whose scales do not go together, then as `ColumnLength`; with 14 and the row for an integer
/// or a decimal that the type of the answers does not have. Returns 23 for a number of no operator.
#[unsafe(no_mangle)]
pub extern "C" fn hv_combine(
    alloc: Global,
    left: &mut Handle,
    operator: u8,
    right: &mut Handle,
    out: &mut Handle,
    error: &mut ErrorFields,
) -> i32
    ensures same { left.new.column ≡ left.old.column }
    ensures same_right { right.new.column ≡ right.old.column }
    ensures made { result ≡ pos 0 → IsSomeAnd (operator_numbered operator)
        (λ operator. WhereAll (AreCombined operator) (array_in left.old.column) (array_in right.old.column)
        (array_in out.new.column)) }
    ensures untyped { result ≡ pos 0 → format_in out.new.column ≡ [] }
    ensures kept { result ≢ pos 0 → out.new.column ≡ out.old.column }
    ensures ended { MatchOption (operator_numbered operator) (result ≡ pos 23)
        (λ operator. EndsOnPairs operator (array_in left.old.column) (array_in right.old.column) result error.new) }
{
    combine_handles(alloc, left, operator, right, out, error)
}

/// Makes the other boolean of each row, null for null. Refused as `Unsupported` unless the rows are booleans.
#[unsafe(no_mangle)]
pub extern "C" fn hv_not(
    alloc: Global,
    column: &mut Handle,
    out: &mut Handle,
    error: &mut ErrorFields,
) -> i32
    ensures same { column.new.column ≡ column.old.column }
    ensures made { result ≡ pos 0 → WhereBoth (IsTested Not) (array_in column.old.column) (array_in out.new.column) }
    ensures untyped { result ≡ pos 0 → format_in out.new.column ≡ [] }
    ensures kept { result ≢ pos 0 → out.new.column ≡ out.old.column }
    ensures ended { EndsOnTested Not (array_in column.old.column) result error.new }
{
    test_handle(alloc, column, RowTest::Not, out, error)
}

/// Makes whether each row is null, in booleans without null. Refused as `Unsupported` for lists.
#[unsafe(no_mangle)]
pub extern "C" fn hv_is_null(
    alloc: Global,
    column: &mut Handle,
    out: &mut Handle,
    error: &mut ErrorFields,
) -> i32
    ensures same { column.new.column ≡ column.old.column }
    ensures made { result ≡ pos 0 → WhereBoth (IsTested Null) (array_in column.old.column) (array_in out.new.column) }
    ensures untyped { result ≡ pos 0 → format_in out.new.column ≡ [] }
    ensures kept { result ≢ pos 0 → out.new.column ≡ out.old.column }
    ensures ended { EndsOnTested Null (array_in column.old.column) result error.new }
{
    test_handle(alloc, column, RowTest::Null, out, error)
}

/// Makes whether each row is not null, in booleans without null. Refused as `Unsupported` for lists.
#[unsafe(no_mangle)]
pub extern "C" fn hv_is_valid(
    alloc: Global,
    column: &mut Handle,
    out: &mut Handle,
    error: &mut ErrorFields,
) -> i32
    ensures same { column.new.column ≡ column.old.column }
    ensures made { result ≡ pos 0 → WhereBoth (IsTested Valid) (array_in column.old.column) (array_in out.new.column) }
    ensures untyped { result ≡ pos 0 → format_in out.new.column ≡ [] }
    ensures kept { result ≢ pos 0 → out.new.column ≡ out.old.column }
    ensures ended { EndsOnTested Valid (array_in column.old.column) result error.new }
{
    test_handle(alloc, column, RowTest::Valid, out, error)
}

/// Says by 1 or 0 whether two columns are of one type, but for null, and have the same rows, null equal to null.
/// Refused as `Unsupported` for two columns of lists of one type.
#[unsafe(no_mangle)]
pub extern "C" fn hv_equals(
    alloc: Global,
    left: &mut Handle,
    right: &mut Handle,
    truth: &mut u8,
    error: &mut ErrorFields,
) -> i32
    ensures same { left.new.column ≡ left.old.column }
    ensures same_right { right.new.column ≡ right.old.column }
    ensures told { result ≡ pos 0 →
        WhereBoth (λ c d. Tells truth.new (AreEqual c d)) (array_in left.old.column) (array_in right.old.column) }
    ensures kept { result ≢ pos 0 → truth.new ≡ truth.old }
    ensures ended { EndsOnTwo equal_fault (array_in left.old.column) (array_in right.old.column) result error.new }
{
    equal_handles(alloc, left, right, truth, error)
}

/// Makes the left row where the mask is true, the right one where it is false, and null where it is null. Refused as
/// `Unsupported` unless the mask is of booleans and both columns are of integers, of decimals or of booleans, then as
/// `TypeMismatch` for two types, then as `ColumnLength`.
#[unsafe(no_mangle)]
pub extern "C" fn hv_if_else(
    alloc: Global,
    mask: &mut Handle,
    left: &mut Handle,
    right: &mut Handle,
    out: &mut Handle,
    error: &mut ErrorFields,
) -> i32
    ensures same { mask.new.column ≡ mask.old.column }
    ensures same_left { left.new.column ≡ left.old.column }
    ensures same_right { right.new.column ≡ right.old.column }
    ensures made { result ≡ pos 0 →
        AreChosenOf (array_in mask.old.column) (array_in left.old.column) (array_in right.old.column)
        (array_in out.new.column) }
    ensures typed { result ≡ pos 0 →
        IsCommonFormat (format_in left.old.column) (format_in right.old.column) (format_in out.new.column) }
    ensures kept { result ≢ pos 0 → out.new.column ≡ out.old.column }
    ensures ended { EndsOnThree (array_in mask.old.column) (array_in left.old.column)
        (array_in right.old.column) result error.new }
{
    choose_handles(alloc, mask, left, right, out, error)
}

/// Writes a hash of the rows, the same for all columns with these rows, in whatever forms and of whatever types.
/// Refused as `Unsupported` for lists.
#[unsafe(no_mangle)]
pub extern "C" fn hv_hash(
    alloc: Global,
    column: &mut Handle,
    hash: &mut u64,
    error: &mut ErrorFields,
) -> i32
    ensures same { column.new.column ≡ column.old.column }
    ensures told { result ≡ pos 0 → IsSomeAnd (array_in column.old.column) (λ c. HasHash c hash.new) }
    ensures kept { result ≢ pos 0 → hash.new ≡ hash.old }
    ensures ended { EndsOnHash (array_in column.old.column) result error.new }
{
    hash_handle(alloc, column, hash, error)
}
