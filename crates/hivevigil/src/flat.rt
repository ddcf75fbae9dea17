//! Calls that make flat columns of booleans and of decimals.
ghost use Rattle.std.specs.Prelude.{◌≡◌, ◌≢◌, [], IsSomeAnd, length, pos};
ghost use Rattle.std.specs.Option.{option_or};
ghost use Rattle.c_columns.specs.Bits.{bits_fault, bits_in, validity_by, validity_fault};
ghost use Rattle.c_columns.specs.Ending.{EndsBy};
ghost use Rattle.c_columns.specs.Handle.{array_in, format_in};
ghost use Rattle.c_columns.specs.Makers.{AreDecimalsOf, AreTruthsOf};

use c_columns::commands::answer;
use c_columns::error_fields::ErrorFields;
use c_columns::flat;
use c_columns::handle::Handle;
use c_columns::pairs::Pair;
use column_core::DecimalDType;
use std::alloc::Global;

/// Returns the flat column of `count` booleans, the first of which is bit `start` of `truths`. Nulls are told as to
/// `hv_u8`. Refused as `ColumnLength` where there are fewer bits of either.
#[tactic(auto, using(c_columns::proofs::Endings::ends_done, c_columns::proofs::Endings::ends_refused))]
#[unsafe(no_mangle)]
pub extern "C" fn hv_bools(
    alloc: Global,
    truths: &[u8],
    start: usize,
    count: usize,
    nulls: u8,
    bits: &[u8],
    first: usize,
    out: &mut Handle,
    error: &mut ErrorFields,
) -> i32
    ensures made { result ≡ pos 0
        → IsSomeAnd (array_in out.new.column) (λ c. AreTruthsOf (bits_in truths.now start count)
        (validity_by nulls bits.now first count) c) }
    ensures untyped { result ≡ pos 0 → format_in out.new.column ≡ [] }
    ensures kept { result ≢ pos 0 → out.new.column ≡ out.old.column }
    ensures ended { EndsBy (option_or (validity_fault nulls bits.now first count)
        (bits_fault truths.now start count)) result error.new }
{
    answer(
        flat::booleans(alloc, truths, start, count, nulls, bits, first),
        out,
        error,
    )
}

/// Returns the flat column of these decimals, of this precision and scale. Nulls are told, and refused, as to `hv_u8`.
#[tactic(auto, using(c_columns::proofs::Endings::ends_done, c_columns::proofs::Endings::ends_refused))]
#[unsafe(no_mangle)]
pub extern "C" fn hv_decimals(
    alloc: Global,
    pairs: &[Pair],
    precision: u8,
    scale: i8,
    nulls: u8,
    bits: &[u8],
    first: usize,
    out: &mut Handle,
    error: &mut ErrorFields,
) -> i32
    ensures made { result ≡ pos 0
        → IsSomeAnd (array_in out.new.column)
        (λ c. AreDecimalsOf (record { precision = precision; scale = scale }) pairs.now
        (validity_by nulls bits.now first (length pairs.now)) c) }
    ensures untyped { result ≡ pos 0 → format_in out.new.column ≡ [] }
    ensures kept { result ≢ pos 0 → out.new.column ≡ out.old.column }
    ensures ended { EndsBy (validity_fault nulls bits.now first (length pairs.now)) result error.new }
{
    let decimal_dtype = DecimalDType { precision, scale };
    answer(
        flat::decimals(alloc, pairs, decimal_dtype, nulls, bits, first),
        out,
        error,
    )
}
