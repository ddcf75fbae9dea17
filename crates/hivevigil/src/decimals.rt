//! Calls on columns of decimals of up to 38 digits.
ghost use Rattle.std.specs.Prelude.{◌≡◌, ◌≢◌, [], IsSomeAnd, MatchOption, pos};
ghost use Rattle.runend_decimals.specs.Rows.{decimals_fault};
ghost use Rattle.c_columns.specs.Ending.{WhereBoth};
ghost use Rattle.c_columns.specs.Handle.{array_in, format_in};
ghost use Rattle.c_columns.specs.Kinds.{ptype_by};
ghost use Rattle.c_kernels.specs.DecimalCasts.{exact_fault, AreDecimals, AreWholes, EndsOnRescale, FailsAsDecimals, FailsAsWholes, IsPrecision};

use c_columns::error_fields::ErrorFields;
use c_columns::handle::Handle;
use c_kernels::{cast_decimals_handle, cast_wholes_handle};
use column_core::DecimalDType;
use std::alloc::Global;

/// Makes the same numbers as decimals of this precision and scale. Returns 23 for a precision that is not 1 to 38;
/// refused as `Unsupported` exactly unless the rows are integers or decimals, then as `CastOutOfRange`, with the first
/// row that is not such a decimal, and 1 where the scale has no place for a digit of it, else 0.
#[unsafe(no_mangle)]
pub extern "C" fn hv_decimal_cast(
    alloc: Global,
    column: &mut Handle,
    precision: u8,
    scale: i8,
    out: &mut Handle,
    error: &mut ErrorFields,
) -> i32
    ensures same { column.new.column ≡ column.old.column }
    ensures made { result ≡ pos 0 → WhereBoth (AreDecimals (record { precision = precision; scale = scale }))
        (array_in column.old.column) (array_in out.new.column) }
    ensures untyped { result ≡ pos 0 → format_in out.new.column ≡ [] }
    ensures kept { result ≢ pos 0 → out.new.column ≡ out.old.column }
    ensures digits { ¬ IsPrecision precision → result ≡ pos 23 }
    ensures ended { IsPrecision precision → EndsOnRescale exact_fault
        (FailsAsDecimals (record { precision = precision; scale = scale }))
        (array_in column.old.column) result error.new }
{
    let to = DecimalDType { precision, scale };
    cast_decimals_handle(alloc, column, to, out, error)
}

/// Makes the integers of the type of this number that decimals are. Returns 23 for a number of no type of integers;
/// refused as `Unsupported` exactly unless the rows are decimals, then as `CastOutOfRange`, with the first row that is
/// not such an integer, and 1 where it has a fraction, else 0.
#[unsafe(no_mangle)]
pub extern "C" fn hv_decimal_to_integers(
    alloc: Global,
    decimals: &mut Handle,
    to: u8,
    out: &mut Handle,
    error: &mut ErrorFields,
) -> i32
    ensures same { decimals.new.column ≡ decimals.old.column }
    ensures made { result ≡ pos 0 → IsSomeAnd (ptype_by to)
        (λ ptype. WhereBoth (AreWholes ptype) (array_in decimals.old.column) (array_in out.new.column)) }
    ensures untyped { result ≡ pos 0 → format_in out.new.column ≡ [] }
    ensures kept { result ≢ pos 0 → out.new.column ≡ out.old.column }
    ensures ended { MatchOption (ptype_by to) (result ≡ pos 23) (λ ptype. EndsOnRescale decimals_fault
        (FailsAsWholes ptype) (array_in decimals.old.column) result error.new) }
{
    cast_wholes_handle(alloc, decimals, to, out, error)
}
