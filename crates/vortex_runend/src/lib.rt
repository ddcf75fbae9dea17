//! Run-end encoded columns, after the Rust crate `vortex-runend`: the laws, and the names of the crates below.
#![tactic(auto)]

pub mod arrays;
pub mod compress;
pub mod compute;
pub mod laws;
mod strategies;

pub use column_fields::RunEndMetadata;
pub use column_ops::{ColumnOps, FlatOrder};
pub use runend_aggregate::{SignedSum, SumAnswer, SumValue, UnsignedSum};
pub use runend_array::{
    ArrayRef, BitBuffer, BitBufferMut, BoolArray, Buffer, Canonical, ConstantArray, CountedEnds,
    DType, DecimalArray, DecimalDType, ElementDType, ExecutionCtx, FlatColumn, Kernel,
    ListViewArray, Mask, NativePType, Nullability, PType, PrimitiveArray, PrimitiveValues,
    RowValidity, RunEnd, RunEndArray, RunEndArrayExt, RunEndArraySlotsExt, RunEndSlots, Scalar,
    ScalarValue, ScalarView, SetIndices, Thresholds, TrimmedEnds, UnsignedPType, Validity,
    VarBinKind, VarBinViewArray, View, VortexError, VortexResult, VortexSession, ops,
    trimmed_ends_iter,
};
pub use runend_column::{
    RunEndData, RunEndDataParts, RunEndProbe, decompress_bool, deserialize, serialize, validity,
};
pub use runend_commands::{
    Answer, Command, KERNELS, default_thresholds, execute, execute_one, initialize,
};
