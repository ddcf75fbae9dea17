//! Calls that make flat columns of integers.
ghost use Rattle.std.specs.Prelude.{◌≡◌, ◌≢◌, [], IsSomeAnd, length, map, pos};
ghost use Rattle.column_base.specs.declared.dtype.PType.TheVariants.{U8, U16, U32, U64, I8, I16, I32, I64};
ghost use Rattle.c_columns.specs.Bits.{validity_by, validity_fault};
ghost use Rattle.c_columns.specs.Ending.{EndsBy};
ghost use Rattle.c_columns.specs.Handle.{array_in, format_in};
ghost use Rattle.c_columns.specs.Makers.{IsFlatOf};

use c_columns::commands::answer;
use c_columns::error_fields::ErrorFields;
use c_columns::flat;
use c_columns::handle::Handle;
use std::alloc::Global;

/// Returns the flat column of these numbers. By `nulls` 0 the type has no null; 1 it has, and no row is null; any other
/// row i is null where bit `first + i` of `bits` is 0. Refused as `ColumnLength` where there are fewer bits.
#[tactic(auto, using(c_columns::proofs::Endings::ends_done, c_columns::proofs::Endings::ends_refused))]
#[unsafe(no_mangle)]
pub extern "C" fn hv_u8(
    alloc: Global,
    items: &[u8],
    nulls: u8,
    bits: &[u8],
    first: usize,
    out: &mut Handle,
    error: &mut ErrorFields,
) -> i32
    ensures made { result ≡ pos 0
        → IsSomeAnd (array_in out.new.column) (λ c. IsFlatOf U8 (map pos items.now)
        (validity_by nulls bits.now first (length items.now)) c) }
    ensures untyped { result ≡ pos 0 → format_in out.new.column ≡ [] }
    ensures kept { result ≢ pos 0 → out.new.column ≡ out.old.column }
    ensures ended { EndsBy (validity_fault nulls bits.now first (length items.now)) result error.new }
{
    answer(flat::numbers(alloc, items, nulls, bits, first), out, error)
}

/// Returns the flat column of these numbers. By `nulls` 0 the type has no null; 1 it has, and no row is null; any other
/// row i is null where bit `first + i` of `bits` is 0. Refused as `ColumnLength` where there are fewer bits.
#[tactic(auto, using(c_columns::proofs::Endings::ends_done, c_columns::proofs::Endings::ends_refused))]
#[unsafe(no_mangle)]
pub extern "C" fn hv_u16(
    alloc: Global,
    items: &[u16],
    nulls: u8,
    bits: &[u8],
    first: usize,
    out: &mut Handle,
    error: &mut ErrorFields,
) -> i32
    ensures made { result ≡ pos 0
        → IsSomeAnd (array_in out.new.column) (λ c. IsFlatOf U16 (map pos items.now)
        (validity_by nulls bits.now first (length items.now)) c) }
    ensures untyped { result ≡ pos 0 → format_in out.new.column ≡ [] }
    ensures kept { result ≢ pos 0 → out.new.column ≡ out.old.column }
    ensures ended { EndsBy (validity_fault nulls bits.now first (length items.now)) result error.new }
{
    answer(flat::numbers(alloc, items, nulls, bits, first), out, error)
}

/// Returns the flat column of these numbers. By `nulls` 0 the type has no null; 1 it has, and no row is null; any other
/// row i is null where bit `first + i` of `bits` is 0. Refused as `ColumnLength` where there are fewer bits.
#[tactic(auto, using(c_columns::proofs::Endings::ends_done, c_columns::proofs::Endings::ends_refused))]
#[unsafe(no_mangle)]
pub extern "C" fn hv_u32(
    alloc: Global,
    items: &[u32],
    nulls: u8,
    bits: &[u8],
    first: usize,
    out: &mut Handle,
    error: &mut ErrorFields,
) -> i32
    ensures made { result ≡ pos 0
        → IsSomeAnd (array_in out.new.column) (λ c. IsFlatOf U32 (map pos items.now)
        (validity_by nulls bits.now first (length items.now)) c) }
    ensures untyped { result ≡ pos 0 → format_in out.new.column ≡ [] }
    ensures kept { result ≢ pos 0 → out.new.column ≡ out.old.column }
    ensures ended { EndsBy (validity_fault nulls bits.now first (length items.now)) result error.new }
{
    answer(flat::numbers(alloc, items, nulls, bits, first), out, error)
}

/// Returns the flat column of these numbers. By `nulls` 0 the type has no null; 1 it has, and no row is null; any other
/// row i is null where bit `first + i` of `bits` is 0. Refused as `ColumnLength` where there are fewer bits.
#[tactic(auto, using(c_columns::proofs::Endings::ends_done, c_columns::proofs::Endings::ends_refused))]
#[unsafe(no_mangle)]
pub extern "C" fn hv_u64(
    alloc: Global,
    items: &[u64],
    nulls: u8,
    bits: &[u8],
    first: usize,
    out: &mut Handle,
    error: &mut ErrorFields,
) -> i32
    ensures made { result ≡ pos 0
        → IsSomeAnd (array_in out.new.column) (λ c. IsFlatOf U64 (map pos items.now)
        (validity_by nulls bits.now first (length items.now)) c) }
    ensures untyped { result ≡ pos 0 → format_in out.new.column ≡ [] }
    ensures kept { result ≢ pos 0 → out.new.column ≡ out.old.column }
    ensures ended { EndsBy (validity_fault nulls bits.now first (length items.now)) result error.new }
{
    answer(flat::numbers(alloc, items, nulls, bits, first), out, error)
}

/// Returns the flat column of these numbers. By `nulls` 0 the type has no null; 1 it has, and no row is null; any other
/// row i is null where bit `first + i` of `bits` is 0. Refused as `ColumnLength` where there are fewer bits.
#[tactic(auto, using(c_columns::proofs::Endings::ends_done, c_columns::proofs::Endings::ends_refused))]
#[unsafe(no_mangle)]
pub extern "C" fn hv_i8(
    alloc: Global,
    items: &[i8],
    nulls: u8,
    bits: &[u8],
    first: usize,
    out: &mut Handle,
    error: &mut ErrorFields,
) -> i32
    ensures made { result ≡ pos 0
        → IsSomeAnd (array_in out.new.column) (λ c. IsFlatOf I8 (items.now)
        (validity_by nulls bits.now first (length items.now)) c) }
    ensures untyped { result ≡ pos 0 → format_in out.new.column ≡ [] }
    ensures kept { result ≢ pos 0 → out.new.column ≡ out.old.column }
    ensures ended { EndsBy (validity_fault nulls bits.now first (length items.now)) result error.new }
{
    answer(flat::numbers(alloc, items, nulls, bits, first), out, error)
}

/// Returns the flat column of these numbers. By `nulls` 0 the type has no null; 1 it has, and no row is null; any other
/// row i is null where bit `first + i` of `bits` is 0. Refused as `ColumnLength` where there are fewer bits.
#[tactic(auto, using(c_columns::proofs::Endings::ends_done, c_columns::proofs::Endings::ends_refused))]
#[unsafe(no_mangle)]
pub extern "C" fn hv_i16(
    alloc: Global,
    items: &[i16],
    nulls: u8,
    bits: &[u8],
    first: usize,
    out: &mut Handle,
    error: &mut ErrorFields,
) -> i32
    ensures made { result ≡ pos 0
        → IsSomeAnd (array_in out.new.column) (λ c. IsFlatOf I16 (items.now)
        (validity_by nulls bits.now first (length items.now)) c) }
    ensures untyped { result ≡ pos 0 → format_in out.new.column ≡ [] }
    ensures kept { result ≢ pos 0 → out.new.column ≡ out.old.column }
    ensures ended { EndsBy (validity_fault nulls bits.now first (length items.now)) result error.new }
{
    answer(flat::numbers(alloc, items, nulls, bits, first), out, error)
}

/// Returns the flat column of these numbers. By `nulls` 0 the type has no null; 1 it has, and no row is null; any other
/// row i is null where bit `first + i` of `bits` is 0. Refused as `ColumnLength` where there are fewer bits.
#[tactic(auto, using(c_columns::proofs::Endings::ends_done, c_columns::proofs::Endings::ends_refused))]
#[unsafe(no_mangle)]
pub extern "C" fn hv_i32(
    alloc: Global,
    items: &[i32],
    nulls: u8,
    bits: &[u8],
    first: usize,
    out: &mut Handle,
    error: &mut ErrorFields,
) -> i32
    ensures made { result ≡ pos 0
        → IsSomeAnd (array_in out.new.column) (λ c. IsFlatOf I32 (items.now)
        (validity_by nulls bits.now first (length items.now)) c) }
    ensures untyped { result ≡ pos 0 → format_in out.new.column ≡ [] }
    ensures kept { result ≢ pos 0 → out.new.column ≡ out.old.column }
    ensures ended { EndsBy (validity_fault nulls bits.now first (length items.now)) result error.new }
{
    answer(flat::numbers(alloc, items, nulls, bits, first), out, error)
}

/// Returns the flat column of these numbers. By `nulls` 0 the type has no null; 1 it has, and no row is null; any other
/// row i is null where bit `first + i` of `bits` is 0. Refused as `ColumnLength` where there are fewer bits.
#[tactic(auto, using(c_columns::proofs::Endings::ends_done, c_columns::proofs::Endings::ends_refused))]
#[unsafe(no_mangle)]
pub extern "C" fn hv_i64(
    alloc: Global,
    items: &[i64],
    nulls: u8,
    bits: &[u8],
    first: usize,
    out: &mut Handle,
    error: &mut ErrorFields,
) -> i32
    ensures made { result ≡ pos 0
        → IsSomeAnd (array_in out.new.column) (λ c. IsFlatOf I64 (items.now)
        (validity_by nulls bits.now first (length items.now)) c) }
    ensures untyped { result ≡ pos 0 → format_in out.new.column ≡ [] }
    ensures kept { result ≢ pos 0 → out.new.column ≡ out.old.column }
    ensures ended { EndsBy (validity_fault nulls bits.now first (length items.now)) result error.new }
{
    answer(flat::numbers(alloc, items, nulls, bits, first), out, error)
}
