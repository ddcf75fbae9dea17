//! Types and operators by number, as C reads and writes them.
ghost use Rattle.std.specs.Prelude.{◌≡◌};
ghost use Rattle.c_columns.specs.Flags.{flag_of};
ghost use Rattle.c_columns.specs.Kinds.{IsKindOf, dtype_by, nullability_by as nullability_by_flag, operator_by as operator_by_number, ptype_by as ptype_by_number, ptype_number, nullable_byte, varbin_kind_by};

use column_core::{DType, DecimalDType, Nullability, PType, VarBinKind};
use column_ops::CompareOperator;

/// Names a type: 0 to 7 are u8, u16, u32, u64, i8, i16, i32 and i64; 8 booleans, 9 decimals, 10 texts, 11 bytes, 12
/// lists. Only decimals have a precision and a scale. `nullable` is 0 where the type has no null.
#[repr(C)]
#[derive(Clone, Copy)]
pub struct Kind {
    pub number: u8,
    pub nullable: u8,
    pub precision: u8,
    pub scale: i8,
}

/// Returns the type that C names, or `None` where the number is of no type, or of lists.
pub fn dtype_of(kind: &Kind) -> Option<DType>
    ensures { result ≡ dtype_by kind.now.number kind.now }
{
    let nullability = nullability_by(kind.nullable);
    match kind.number {
        8 => Some(DType::Bool(nullability)),
        9 => {
            let decimal = DecimalDType {
                precision: kind.precision,
                scale: kind.scale,
            };
            Some(DType::Decimal(decimal, nullability))
        }
        10 => Some(DType::Utf8(nullability)),
        11 => Some(DType::Binary(nullability)),
        number => match ptype_by(number) {
            Some(ptype) => Some(DType::Primitive(ptype, nullability)),
            None => None,
        },
    }
}

/// Returns the type for C. Of lists it only says that they are lists.
pub fn kind_of(dtype: DType) -> Kind
    ensures { IsKindOf dtype result }
{
    match dtype {
        DType::Primitive(ptype, nullability) => kind_with(number_of(ptype), nullability),
        DType::Bool(nullability) => kind_with(8, nullability),
        DType::Decimal(decimal, nullability) => Kind {
            number: 9,
            nullable: nullable_flag(nullability),
            precision: decimal.precision,
            scale: decimal.scale,
        },
        DType::Utf8(nullability) => kind_with(10, nullability),
        DType::Binary(nullability) => kind_with(11, nullability),
        DType::List(_, nullability) => kind_with(12, nullability),
    }
}

/// Returns the answer for a handle without a column.
pub fn no_kind() -> Kind
    ensures { result.number ≡ 255 }
{
    Kind {
        number: 255,
        nullable: 0,
        precision: 0,
        scale: 0,
    }
}

/// Returns the operator of a number.
pub fn operator_by(number: u8) -> Option<CompareOperator>
    ensures { result ≡ operator_by_number number }
{
    match number {
        0 => Some(CompareOperator::Eq),
        1 => Some(CompareOperator::NotEq),
        2 => Some(CompareOperator::Gt),
        3 => Some(CompareOperator::Gte),
        4 => Some(CompareOperator::Lt),
        5 => Some(CompareOperator::Lte),
        _ => None,
    }
}

/// Returns bytes where the byte is not 0, else texts.
pub fn varbin_kind(binary: u8) -> VarBinKind
    ensures { result ≡ varbin_kind_by binary }
{
    if binary == 0 {
        VarBinKind::Utf8
    } else {
        VarBinKind::Binary
    }
}

/// Returns the type of integers of this number, or `None` from 8 on.
pub fn ptype_by(number: u8) -> Option<PType>
    ensures { result ≡ ptype_by_number number }
{
    match number {
        0 => Some(PType::U8),
        1 => Some(PType::U16),
        2 => Some(PType::U32),
        3 => Some(PType::U64),
        4 => Some(PType::I8),
        5 => Some(PType::I16),
        6 => Some(PType::I32),
        7 => Some(PType::I64),
        _ => None,
    }
}

/// Returns whether the flag is not 0.
pub fn is_set(flag: u8) -> bool
    ensures { result ≡ flag_of flag }
{
    flag != 0
}

fn kind_with(number: u8, nullability: Nullability) -> Kind
    ensures number { result.number ≡ number }
    ensures nullable { result.nullable ≡ nullable_byte nullability }
{
    Kind {
        number,
        nullable: nullable_flag(nullability),
        precision: 0,
        scale: 0,
    }
}

fn number_of(ptype: PType) -> u8
    ensures { result ≡ ptype_number ptype }
{
    match ptype {
        PType::U8 => 0,
        PType::U16 => 1,
        PType::U32 => 2,
        PType::U64 => 3,
        PType::I8 => 4,
        PType::I16 => 5,
        PType::I32 => 6,
        PType::I64 => 7,
    }
}

fn nullable_flag(nullability: Nullability) -> u8
    ensures { result ≡ nullable_byte nullability }
{
    match nullability {
        Nullability::NonNullable => 0,
        Nullability::Nullable => 1,
    }
}

fn nullability_by(flag: u8) -> Nullability
    ensures { result ≡ nullability_by_flag flag }
{
    if flag == 0 {
        Nullability::NonNullable
    } else {
        Nullability::Nullable
    }
}
