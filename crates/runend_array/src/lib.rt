//! Run-end encoded columns: arrays, their encoder, and searches.
#![tactic(auto)]

mod array;
mod array_ref;
mod canonical;
pub mod compress;
mod constant;
mod copies;
mod lists;
pub mod ops;
mod session;
mod validities;
mod written;

pub use array::{
    RunEnd, RunEndArray, RunEndArrayExt, RunEndArraySlotsExt, RunEndSlots, validate_parts,
};
pub use array_ref::ArrayRef;
pub use canonical::{Canonical, array_of};
pub use column_core::{
    BitBuffer, BitBufferMut, BoolArray, Buffer, CountedEnds, DType, DecimalArray, DecimalDType,
    ElementDType, FlatColumn, Mask, NativePType, Nullability, PType, PrimitiveArray,
    PrimitiveValues, Scalar, ScalarValue, ScalarView, SetIndices, UnsignedPType, Validity,
    VarBinKind, VarBinViewArray, View, VortexError, VortexResult,
};
pub use constant::{ConstantArray, null_constant};
pub use lists::ListViewArray;
pub use runend_windows::{TrimmedEnds, trimmed_ends_iter};
pub use session::{ExecutionCtx, Kernel, Thresholds, VortexSession};
pub use validities::RowValidity;
