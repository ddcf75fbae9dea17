//! The numbers of native types in a message.
ghost use Rattle.std.specs.Prelude.{◌≡◌, IfSome, IfNone};
ghost use Rattle.column_fields.specs.Types.{type_number, HasNoType};

use column_base::PType;

/// Returns the number of a type.
pub fn number_of_type(ptype: PType) -> u64
    ensures { result ≡ type_number ptype }
{
    match ptype {
        PType::U8 => 1,
        PType::U16 => 2,
        PType::U32 => 3,
        PType::U64 => 4,
        PType::I8 => 5,
        PType::I16 => 6,
        PType::I32 => 7,
        PType::I64 => 8,
    }
}

/// Returns the type with that number.
pub fn type_of_number(number: u64) -> Option<PType>
    ensures found { IfSome result (λ t. type_number t ≡ number) }
    ensures none { IfNone result (HasNoType number) }
{
    match number {
        1 => Some(PType::U8),
        2 => Some(PType::U16),
        3 => Some(PType::U32),
        4 => Some(PType::U64),
        5 => Some(PType::I8),
        6 => Some(PType::I16),
        7 => Some(PType::I32),
        8 => Some(PType::I64),
        _ => None,
    }
}
