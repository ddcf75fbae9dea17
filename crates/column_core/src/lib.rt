//! Flat columns, scalars, views of single rows, and counted access to ends.
#![tactic(auto)]

mod boolean;
mod counted;
mod decimal;
mod flat;
mod flat_view;
mod kinds;
mod primitive;
mod scalar;
mod varbinview;
mod view;

pub use boolean::BoolArray;
pub use column_base::{
    BitBuffer, BitBufferMut, Buffer, DType, DecimalDType, ElementDType, Mask, NativePType,
    Nullability, PType, PrimitiveValues, SetIndices, UnsignedPType, Validity, VortexError,
    VortexResult,
};
pub use counted::CountedEnds;
pub use decimal::DecimalArray;
pub use flat::FlatColumn;
pub use flat_view::FlatView;
pub use kinds::{fault_of_lists, is_list_type, is_number_type, is_same_kind};
pub use primitive::PrimitiveArray;
pub use scalar::{Scalar, ScalarValue};
pub use varbinview::{VarBinKind, VarBinViewArray, View};
pub use view::ScalarView;
