//! The types of columns and of their rows.
ghost use Rattle.std.specs.Prelude.{◌≡◌, ◌↔◌, IsTrue};
ghost use Rattle.column_base.specs.Types.{IsUnsigned, nullability_of, with_nullability as dtype_with};

/// Names the native types of integers.
#[derive(Clone, Copy, Debug, PartialEq, Eq)]
pub enum PType {
    U8,
    U16,
    U32,
    U64,
    I8,
    I16,
    I32,
    I64,
}

/// Says whether rows may be null.
#[derive(Clone, Copy, Debug, PartialEq, Eq)]
pub enum Nullability {
    NonNullable,
    Nullable,
}

/// Names decimals of `precision` digits, `scale` of them after the point.
#[derive(Clone, Copy, Debug, PartialEq, Eq)]
pub struct DecimalDType {
    pub precision: u8,
    pub scale: i8,
}

/// Names the type of the elements of a list.
#[derive(Clone, Copy, Debug, PartialEq, Eq)]
pub enum ElementDType {
    Bool(Nullability),
    Primitive(PType, Nullability),
    Decimal(DecimalDType, Nullability),
    Utf8(Nullability),
    Binary(Nullability),
}

/// Names the type of a column. Two types are of the same kind where they differ only in
/// nullability.
#[derive(Clone, Copy, Debug, PartialEq, Eq)]
pub enum DType {
    Bool(Nullability),
    Primitive(PType, Nullability),
    Decimal(DecimalDType, Nullability),
    Utf8(Nullability),
    Binary(Nullability),
    List(ElementDType, Nullability),
}

impl PType {
    /// Returns whether it is one of the four unsigned types.
    pub fn is_unsigned_int(self) -> bool
        ensures { IsTrue result ↔ IsUnsigned self }
    {
        match self {
            PType::U8 | PType::U16 | PType::U32 | PType::U64 => true,
            PType::I8 | PType::I16 | PType::I32 | PType::I64 => false,
        }
    }
}

impl DType {
    /// Returns whether rows of this type may be null.
    pub fn nullability(self) -> Nullability
        ensures { result ≡ nullability_of self }
    {
        match self {
            DType::Bool(nullability) => nullability,
            DType::Primitive(_, nullability) => nullability,
            DType::Decimal(_, nullability) => nullability,
            DType::Utf8(nullability) => nullability,
            DType::Binary(nullability) => nullability,
            DType::List(_, nullability) => nullability,
        }
    }

    /// Returns the type of the same kind with that nullability.
    pub fn with_nullability(self, nullability: Nullability) -> DType
        ensures { result ≡ dtype_with self nullability }
    {
        match self {
            DType::Bool(_) => DType::Bool(nullability),
            DType::Primitive(ptype, _) => DType::Primitive(ptype, nullability),
            DType::Decimal(decimal, _) => DType::Decimal(decimal, nullability),
            DType::Utf8(_) => DType::Utf8(nullability),
            DType::Binary(_) => DType::Binary(nullability),
            DType::List(element, _) => DType::List(element, nullability),
        }
    }
}
