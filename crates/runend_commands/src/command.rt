//! Commands, and what they are answered.
use column_core::{DType, Mask, PrimitiveArray, Scalar, VortexError};
use column_ops::CompareOperator;
use column_sums::SumAnswer;
use runend_array::ArrayRef;
use std::alloc::Allocator;
use std::ops::Range;

/// Says what is done to a column.
#[derive(Drop)]
pub enum Command<A: Allocator> {
    /// Keeps the rows from the range's start to before its end, counted from 0. Refused as `BadRange` where the range
    /// starts after its end, or ends after the last row.
    Slice(Range<usize>),
    /// Keeps the rows at which the mask is true, in order. Refused as `MaskLength` for a mask of another number of
    /// rows.
    Filter(Mask<A>),
    /// Takes the rows at the indices, counted from 0: null for a null index. Refused as `OutOfBounds` at the first
    /// valid index that is negative or not below the number of rows.
    Take(PrimitiveArray<A>),
    /// Looks the rows up as codes: each becomes the row of this column, the dictionary, that it numbers from 0; null
    /// stays null. Refused as `TypeMismatch` unless the rows are integers; then as `OutOfBounds` at the first code that
    /// is negative or not below the dictionary's number of rows.
    TakeFrom(ArrayRef<A>),
    /// Compares each row with the scalar: it becomes whether the operator holds, null where either is null. Refused as
    /// `Unsupported` where the rows are lists; then as `TypeMismatch` for a scalar of another kind.
    CompareScalar(CompareOperator, Scalar<A>),
    /// Compares each row with the row of this column at the same place: it becomes whether the operator holds, null
    /// where either is null. Refused as `Unsupported` where the rows are lists; then as `TypeMismatch` for a column of
    /// another kind; then as `ColumnLength` for one of another number of rows.
    CompareColumn(CompareOperator, ArrayRef<A>),
    /// Casts each row to the same value of this type. Refused as `Unsupported` unless both types are of integers, or
    /// both of one kind that is not a list; then, at the first row that is not a value of the type, as `NullNotAllowed`
    /// for null and as `CastOutOfRange` for a number.
    Cast(DType),
    /// Replaces each null by the scalar's value; the column's type has null no more. Refused as `Unsupported` where the
    /// rows are lists; then as `TypeMismatch` for a scalar of another kind; then as `NullFill` for null.
    FillNull(Scalar<A>),
    /// Writes the column as the least number of runs. Refused as `OnlyPrimitive` unless the rows are integers.
    Encode,
    /// Writes the column row by row. Refused only for memory.
    Decode,
    /// Looks up the row of this number, counted from 0. Refused as `Unsupported` where the rows are lists, else as
    /// `OutOfBounds` from the number of rows on.
    At(usize),
    /// Adds the rows that are not null, one at a time. Refused as `Unsupported` unless the rows are integers.
    Sum,
    /// Finds the least and the greatest of the rows that are not null. Refused as `Unsupported` where the rows are
    /// lists.
    MinMax,
    /// Asks whether all rows are equal, null being equal to null. Refused as `Unsupported` where the rows are lists.
    IsConstant,
    /// Asks whether no row is above the next, null being below all else. Refused as `Unsupported` where the rows are
    /// lists.
    IsSorted {
        /// Asks in addition that each row is below the next, so that no two are equal.
        strict: bool,
    },
}

/// Holds the answer to a command.
#[derive(Drop)]
#[derive_where(Debug, PartialEq, Eq)]
pub enum Answer<A: Allocator> {
    /// Says that the column is changed as the command says.
    Done,
    /// Holds the value of a row, in the column's type. The column stays as it is.
    Value(Scalar<A>),
    /// Holds the sum of the rows, or says that it left the range, and whether no row is valid. The column stays as it
    /// is, as with the answers below.
    Sum(SumAnswer),
    /// Holds the least and the greatest of the rows that are not null, in the column's type, or `None` where all rows
    /// are null.
    MinMax(Option<(Scalar<A>, Scalar<A>)>),
    /// Says whether the rows are as the command asks.
    Bool(bool),
    /// Says why the command is refused. The column stays as it is.
    Refused(VortexError),
}
