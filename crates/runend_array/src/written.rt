//! Constants, and columns without rows, written out flat.
ghost use Rattle.std.specs.Prelude.{◌≡◌, ◌≢◌, None, Some, [], pos, option_map, replicate, IfNone, IfOk, IsOkUnless};
ghost use Rattle.column_base.specs.Types.{nullability_of};
ghost use Rattle.column_base.specs.declared.dtype.DType.TheVariants as column;
ghost use Rattle.column_base.specs.Numbers.{numbers, ptype_of};
ghost use Rattle.column_base.specs.Validity.{form_of};
ghost use Rattle.column_base.specs.ValidityForm.{AllNull, IsNormal, NeverNull};
ghost use Rattle.column_base.specs.declared.dtype.Nullability.TheVariants.{Nullable};
ghost use Rattle.column_base.specs.declared.dtype.PType.TheVariants.{U64};
ghost use Rattle.column_core.specs.FlatColumn.{leaf_of};
ghost use Rattle.column_core.specs.Leaf.{OfDecimals, OfNumbers, OfTruths, OfVarBins, leaf_dtype, leaf_rows, leaf_validity};
ghost use Rattle.column_core.specs.Value.{IsLists, MayBeNull, Number, Single};
ghost use Rattle.column_core.specs.VarBinForm.{IsOfKind, kind_dtype, varbin_value};
ghost use Rattle.column_core.specs.PrimitiveForm.{primitive_with};
ghost use Rattle.runend_array.specs.Canonical.{IsAllNullFlat, IsCanonical, IsConstantLeaf, IsNormalFlat, canonical_column};
ghost use Rattle.runend_array.specs.Array.{column_of};
ghost use Rattle.runend_array.specs.Column.{OfConstant, OfLeaf, column_dtype, column_rows};
ghost use Rattle.runend_array.specs.Encoding.{IsNumbersOf};
ghost use Rattle.column_core.specs.Computed.{without_nulls};
ghost use Rattle.runend_array.specs.Lists.{ByRows, list_dtype, list_rows};
ghost use Rattle.column_core.specs.Value.{element_of};

use crate::array_ref::ArrayRef;
use crate::canonical::Canonical;
use crate::constant::ConstantArray;
use crate::lists::ListViewArray;
use crate::validities::{RowValidity, rows_of_validity};
use bytes::Bytes;
use column_core::{
    BitBufferMut, BoolArray, DType, DecimalArray, DecimalDType, ElementDType, FlatColumn,
    NativePType, Nullability, PType, PrimitiveArray, PrimitiveValues, Scalar, ScalarView, Validity,
    VarBinKind, VarBinViewArray, View, VortexError, VortexResult,
};
use runend_windows::{no_null, repeated_items};
use std::alloc::Allocator;
use std::rc::Rc;

/// Returns a constant, written out: a null one with a validity that says so of all rows, any other without a null row.
/// Null of a list type is written as lists without elements. Refused only as `OutOfMemory`.
pub(crate) fn write_constant<A: Allocator + Copy>(
    alloc: A,
    constant: &ConstantArray<A>,
) -> VortexResult<Canonical<A>>
    ensures only { IsOkUnless result VortexError.OutOfMemory }
    ensures rows { IfOk result (λ flat. column_rows (canonical_column flat) ≡
        replicate constant.now.count (option_map Single constant.now.value)) }
    ensures dtype { IfOk result (λ flat. column_dtype (canonical_column flat) ≡ constant.now.dtype) }
    ensures form { IfOk result (λ flat. IsCanonical (OfConstant constant.now) (canonical_column flat)) }
{
    match constant.dtype() {
        DType::Bool(nullability) => match write_truths(alloc, constant, nullability) {
            Ok(array) => Ok(Canonical::Flat(FlatColumn::Bool(array))),
            Err(error) => Err(error),
        },
        DType::Primitive(ptype, nullability) => {
            match write_numbers(alloc, constant, ptype, nullability) {
                Ok(array) => Ok(Canonical::Flat(FlatColumn::Primitive(array))),
                Err(error) => Err(error),
            }
        }
        DType::Decimal(decimal, nullability) => {
            match write_decimals(alloc, constant, decimal, nullability) {
                Ok(array) => Ok(Canonical::Flat(FlatColumn::Decimal(array))),
                Err(error) => Err(error),
            }
        }
        DType::Utf8(nullability) => {
            match write_bytes(alloc, constant, VarBinKind::Utf8, nullability) {
                Ok(array) => Ok(Canonical::Flat(FlatColumn::VarBinView(array))),
                Err(error) => Err(error),
            }
        }
        DType::Binary(nullability) => {
            match write_bytes(alloc, constant, VarBinKind::Binary, nullability) {
                Ok(array) => Ok(Canonical::Flat(FlatColumn::VarBinView(array))),
                Err(error) => Err(error),
            }
        }
        DType::List(element, _) => match write_null_lists(alloc, constant, element) {
            Ok(lists) => Ok(Canonical::List(lists)),
            Err(error) => Err(error),
        },
    }
}

// A constant of integers, written out.
fn write_numbers<A: Allocator + Copy>(
    alloc: A,
    constant: &ConstantArray<A>,
    ptype: PType,
    nullability: Nullability,
) -> VortexResult<PrimitiveArray<A>>
    requires { constant.now.dtype ≡ column.Primitive ptype nullability }
    ensures only { IsOkUnless result VortexError.OutOfMemory }
    ensures written { IfOk result (λ array. IsConstantLeaf constant.now (OfNumbers array)) }
{
    match ptype {
        PType::U8 => write_as::<u8, A>(alloc, constant, nullability),
        PType::U16 => write_as::<u16, A>(alloc, constant, nullability),
        PType::U32 => write_as::<u32, A>(alloc, constant, nullability),
        PType::U64 => write_as::<u64, A>(alloc, constant, nullability),
        PType::I8 => write_as::<i8, A>(alloc, constant, nullability),
        PType::I16 => write_as::<i16, A>(alloc, constant, nullability),
        PType::I32 => write_as::<i32, A>(alloc, constant, nullability),
        PType::I64 => write_as::<i64, A>(alloc, constant, nullability),
    }
}

fn write_as<T: NativePType, A: Allocator + Copy>(
    alloc: A,
    constant: &ConstantArray<A>,
    nullability: Nullability,
) -> VortexResult<PrimitiveArray<A>>
    requires { constant.now.dtype ≡ column.Primitive T.PTYPE nullability }
    ensures only { IsOkUnless result VortexError.OutOfMemory }
    ensures written { IfOk result (λ array. IsConstantLeaf constant.now (OfNumbers array)) }
{
    match number_of::<T, A>(constant) {
        None => {
            let zeros = repeated_items(alloc, T::default(), constant.len())?;
            Ok(PrimitiveArray::new_unchecked(T::wrap(zeros), Validity::AllInvalid))
        }
        Some(number) => {
            let numbers = repeated_items(alloc, number, constant.len())?;
            Ok(PrimitiveArray::new_unchecked(T::wrap(numbers), no_null(nullability)))
        }
    }
}

// The number in each row, or `None` for null.
fn number_of<T: NativePType, A: Allocator>(constant: &ConstantArray<A>) -> Option<T>
    requires { IsNumbersOf T.PTYPE constant.now.dtype }
    ensures value { option_map (λ number. Number (T.number number)) result ≡ constant.now.value }
    ensures null { IfNone result (MayBeNull (nullability_of constant.now.dtype)) }
{
    match constant.scalar_view() {
        ScalarView::Null => None,
        ScalarView::Unsigned(number) => T::narrow(i128::from(number)),
        ScalarView::Signed(number) => T::narrow(i128::from(number)),
        _ => unreachable!(),
    }
}

// A constant of booleans, written out.
fn write_truths<A: Allocator + Copy>(
    alloc: A,
    constant: &ConstantArray<A>,
    nullability: Nullability,
) -> VortexResult<BoolArray<A>>
    requires { constant.now.dtype ≡ column.Bool nullability }
    ensures only { IsOkUnless result VortexError.OutOfMemory }
    ensures written { IfOk result (λ array. IsConstantLeaf constant.now (OfTruths array)) }
{
    match constant.scalar_view() {
        ScalarView::Null => {
            let bits = BitBufferMut::full(alloc, false, constant.len())?;
            Ok(BoolArray::new_unchecked(bits.freeze(), Validity::AllInvalid))
        }
        ScalarView::Bool(truth) => {
            let bits = BitBufferMut::full(alloc, truth, constant.len())?;
            Ok(BoolArray::new_unchecked(bits.freeze(), no_null(nullability)))
        }
        _ => unreachable!(),
    }
}

// A constant of decimals, written out.
fn write_decimals<A: Allocator + Copy>(
    alloc: A,
    constant: &ConstantArray<A>,
    decimal: DecimalDType,
    nullability: Nullability,
) -> VortexResult<DecimalArray<A>>
    requires { constant.now.dtype ≡ column.Decimal decimal nullability }
    ensures only { IsOkUnless result VortexError.OutOfMemory }
    ensures written { IfOk result (λ array. IsConstantLeaf constant.now (OfDecimals array)) }
{
    match constant.scalar_view() {
        ScalarView::Null => {
            let zeros = repeated_items(alloc, 0, constant.len())?;
            Ok(DecimalArray::new_unchecked(zeros, decimal, Validity::AllInvalid))
        }
        ScalarView::Decimal(number) => {
            let numbers = repeated_items(alloc, number, constant.len())?;
            Ok(DecimalArray::new_unchecked(numbers, decimal, no_null(nullability)))
        }
        _ => unreachable!(),
    }
}

// A constant of texts or bytes, written out: views of one buffer.
fn write_bytes<A: Allocator + Copy>(
    alloc: A,
    constant: &ConstantArray<A>,
    kind: VarBinKind,
    nullability: Nullability,
) -> VortexResult<VarBinViewArray<A>>
    requires { constant.now.dtype ≡ kind_dtype kind nullability }
    ensures only { IsOkUnless result VortexError.OutOfMemory }
    ensures written { IfOk result (λ array. IsConstantLeaf constant.now (OfVarBins array)) }
{
    match constant.scalar_view() {
        ScalarView::Null => {
            let views = repeated_items(alloc, View::default(), constant.len())?;
            let buffers = Vec::new(alloc);
            Ok(VarBinViewArray::new_unchecked(views, buffers, kind, Validity::AllInvalid))
        }
        ScalarView::Utf8(text) => {
            write_views(alloc, text.as_bytes(), kind, constant.len(), nullability)
        }
        ScalarView::Binary(bytes) => {
            write_views(alloc, bytes, kind, constant.len(), nullability)
        }
        _ => unreachable!(),
    }
}

// A column whose rows are all these bytes, as views of one buffer.
fn write_views<A: Allocator + Copy>(
    alloc: A,
    bytes: &[u8],
    kind: VarBinKind,
    count: usize,
    nullability: Nullability,
) -> VortexResult<VarBinViewArray<A>>
    requires { IsOfKind kind bytes.now }
    ensures only { IsOkUnless result VortexError.OutOfMemory }
    ensures written { IfOk result (λ array. IsConstantLeaf (record {
      dtype = kind_dtype kind nullability;
      value =
          Some (varbin_value kind bytes.now);
      count = count;
    }) (OfVarBins array)) }
{
    let view = View {
        buffer: 0,
        start: 0,
        size: bytes.len(),
    };
    let buffer = Bytes::copy_from_slice(alloc, bytes)?;
    let mut buffers = Vec::new(alloc);
    buffers.push(buffer)?;
    let views = repeated_items(alloc, view, count)?;
    Ok(VarBinViewArray::new_unchecked(views, buffers, kind, no_null(nullability)))
}

// No numbers of that native type.
fn no_numbers<A: Allocator>(alloc: A, ptype: PType) -> PrimitiveValues<A>
    ensures numbers { numbers result ≡ [] }
    ensures typed { ptype_of result ≡ ptype }
{
    match ptype {
        PType::U8 => u8::empty(alloc),
        PType::U16 => u16::empty(alloc),
        PType::U32 => u32::empty(alloc),
        PType::U64 => u64::empty(alloc),
        PType::I8 => i8::empty(alloc),
        PType::I16 => i16::empty(alloc),
        PType::I32 => i32::empty(alloc),
        PType::I64 => i64::empty(alloc),
    }
}

// A flat column of that type, which is not a type of lists, without rows.
fn no_flat<A: Allocator + Copy>(alloc: A, dtype: DType) -> VortexResult<FlatColumn<A>>
    requires { ¬ IsLists dtype }
    ensures only { IsOkUnless result VortexError.OutOfMemory }
    ensures rows { IfOk result (λ column. leaf_rows (leaf_of column) ≡ []) }
    ensures dtype { IfOk result (λ column. leaf_dtype (leaf_of column) ≡ dtype) }
    ensures normal { IfOk result (λ column. IsNormal (leaf_validity (leaf_of column))) }
    ensures some { IfOk result (λ column. leaf_validity (leaf_of column) ≢ AllNull) }
{
    match dtype {
        DType::Bool(nullability) => {
            let bits = BitBufferMut::with_capacity(alloc, 0)?.freeze();
            let array = BoolArray::new_unchecked(bits, no_null(nullability));
            Ok(FlatColumn::Bool(array))
        }
        DType::Primitive(ptype, nullability) => {
            let array = PrimitiveArray::new_unchecked(
                no_numbers(alloc, ptype),
                no_null(nullability),
            );
            Ok(FlatColumn::Primitive(array))
        }
        DType::Decimal(decimal, nullability) => {
            let array = DecimalArray::new_unchecked(Vec::new(alloc), decimal, no_null(nullability));
            Ok(FlatColumn::Decimal(array))
        }
        DType::Utf8(nullability) => {
            let array = no_views(alloc, VarBinKind::Utf8, nullability);
            Ok(FlatColumn::VarBinView(array))
        }
        DType::Binary(nullability) => {
            let array = no_views(alloc, VarBinKind::Binary, nullability);
            Ok(FlatColumn::VarBinView(array))
        }
        DType::List(_, _) => unreachable!(),
    }
}

// A flat column of that type of elements, without rows.
fn no_elements<A: Allocator + Copy>(alloc: A, element: ElementDType) -> VortexResult<FlatColumn<A>>
    ensures only { IsOkUnless result VortexError.OutOfMemory }
    ensures rows { IfOk result (λ column. leaf_rows (leaf_of column) ≡ []) }
    ensures dtype { IfOk result (λ column. element_of (leaf_dtype (leaf_of column)) ≡ element) }
{
    match element {
        ElementDType::Bool(nullability) => no_flat(alloc, DType::Bool(nullability)),
        ElementDType::Primitive(ptype, nullability) => {
            no_flat(alloc, DType::Primitive(ptype, nullability))
        }
        ElementDType::Decimal(decimal, nullability) => {
            no_flat(alloc, DType::Decimal(decimal, nullability))
        }
        ElementDType::Utf8(nullability) => no_flat(alloc, DType::Utf8(nullability)),
        ElementDType::Binary(nullability) => no_flat(alloc, DType::Binary(nullability)),
    }
}

// A flat column of that type of elements, without rows, to be shared by lists.
fn shared_elements<A: Allocator + Copy>(
    alloc: A,
    element: ElementDType,
) -> VortexResult<Rc<FlatColumn<A>, A>>
    ensures only { IsOkUnless result VortexError.OutOfMemory }
    ensures rows { IfOk result (λ shared. leaf_rows (leaf_of shared.value) ≡ []) }
    ensures dtype { IfOk result (λ shared. element_of (leaf_dtype (leaf_of shared.value)) ≡ element) }
{
    let column = no_elements(alloc, element)?;
    let shared = Rc::new(alloc, column)?;
    Ok(shared)
}

// Lists of elements of that type, without rows and without elements.
fn no_lists<A: Allocator + Copy>(
    alloc: A,
    element: ElementDType,
    nullability: Nullability,
) -> VortexResult<ListViewArray<A>>
    ensures only { IsOkUnless result VortexError.OutOfMemory }
    ensures rows { IfOk result (λ lists. list_rows lists ≡ []) }
    ensures dtype { IfOk result (λ lists. list_dtype lists ≡ column.List element nullability) }
{
    let elements = shared_elements(alloc, element)?;
    match zeros_twice(alloc, 0) {
        Ok((offsets, sizes)) => {
            let rows = no_null(nullability);
            let validity = rows_of_validity(rows);
            Ok(ListViewArray::new_unchecked(elements, offsets, sizes, validity))
        }
        Err(error) => {
            drop(elements);
            Err(error)
        }
    }
}

/// Returns a column of that type without rows, in a flat form. Refused only as `OutOfMemory`.
pub(crate) fn no_rows<A: Allocator + Copy>(alloc: A, dtype: DType) -> VortexResult<Canonical<A>>
    ensures only { IsOkUnless result VortexError.OutOfMemory }
    ensures rows { IfOk result (λ flat. column_rows (canonical_column flat) ≡ []) }
    ensures dtype { IfOk result (λ flat. column_dtype (canonical_column flat) ≡ dtype) }
    ensures form { IfOk result (λ flat. IsNormalFlat (canonical_column flat)) }
    ensures some { IfOk result (λ flat. ¬ IsAllNullFlat (canonical_column flat)) }
{
    match dtype {
        DType::List(element, nullability) => {
            let lists = no_lists(alloc, element, nullability)?;
            Ok(Canonical::List(lists))
        }
        _ => {
            let array = no_flat(alloc, dtype)?;
            Ok(Canonical::Flat(array))
        }
    }
}

fn no_views<A: Allocator + Copy>(
    alloc: A,
    kind: VarBinKind,
    nullability: Nullability,
) -> VarBinViewArray<A>
    ensures rows { leaf_rows (OfVarBins result) ≡ [] }
    ensures dtype { leaf_dtype (OfVarBins result) ≡ kind_dtype kind nullability }
    ensures normal { IsNormal (leaf_validity (OfVarBins result)) }
    ensures some { leaf_validity (OfVarBins result) ≢ AllNull }
{
    VarBinViewArray::new_unchecked(Vec::new(alloc), Vec::new(alloc), kind, no_null(nullability))
}

// Zeros in u64.
fn zeros_of<A: Allocator + Copy>(alloc: A, count: usize) -> VortexResult<ArrayRef<A>>
    ensures only { IsOkUnless result VortexError.OutOfMemory }
    ensures form { IfOk result (λ array. column_of array ≡
        OfLeaf (OfNumbers (primitive_with U64 (replicate count (pos 0)) NeverNull))) }
{
    let zeros = repeated_items(alloc, 0u64, count)?;
    let zeros = PrimitiveArray::new_unchecked(
        PrimitiveValues::from_vec(zeros),
        Validity::NonNullable,
    );
    Ok(ArrayRef::Primitive(zeros))
}

// Zeros in u64, for offsets and for sizes.
fn zeros_twice<A: Allocator + Copy>(
    alloc: A,
    count: usize,
) -> VortexResult<(ArrayRef<A>, ArrayRef<A>)>
    ensures only { IsOkUnless result VortexError.OutOfMemory }
    ensures offsets { IfOk result (λ pair. column_of pair.0 ≡
        OfLeaf (OfNumbers (primitive_with U64 (replicate count (pos 0)) NeverNull))) }
    ensures sizes { IfOk result (λ pair. column_of pair.1 ≡
        OfLeaf (OfNumbers (primitive_with U64 (replicate count (pos 0)) NeverNull))) }
{
    let offsets = zeros_of(alloc, count)?;
    match zeros_of(alloc, count) {
        Ok(sizes) => Ok((offsets, sizes)),
        Err(error) => {
            drop(offsets);
            Err(error)
        }
    }
}

// A constant of a list type, which is null since no scalar is a list, written out.
fn write_null_lists<A: Allocator + Copy>(
    alloc: A,
    constant: &ConstantArray<A>,
    element: ElementDType,
) -> VortexResult<ListViewArray<A>>
    requires { constant.now.dtype ≡ column.List element (nullability_of constant.now.dtype) }
    ensures only { IsOkUnless result VortexError.OutOfMemory }
    ensures rows { IfOk result (λ lists. list_rows lists ≡
        replicate constant.now.count (option_map Single constant.now.value)) }
    ensures dtype { IfOk result (λ lists. list_dtype lists ≡ constant.now.dtype) }
    ensures form { IfOk result (λ lists. (constant.now.value ≡ None) × (lists.validity ≡ ByRows AllNull)) }
{
    match constant.scalar_view() {
        ScalarView::Null => null_lists(alloc, element, constant.len()),
        _ => unreachable!(),
    }
}

// Lists without elements, all null.
fn null_lists<A: Allocator + Copy>(
    alloc: A,
    element: ElementDType,
    count: usize,
) -> VortexResult<ListViewArray<A>>
    ensures only { IsOkUnless result VortexError.OutOfMemory }
    ensures rows { IfOk result (λ lists. list_rows lists ≡ replicate count None) }
    ensures dtype { IfOk result (λ lists. list_dtype lists ≡ column.List element Nullable) }
    ensures validity { IfOk result (λ lists. lists.validity ≡ ByRows AllNull) }
{
    let elements = shared_elements(alloc, element)?;
    match zeros_twice(alloc, count) {
        Ok((offsets, sizes)) => {
            let validity = RowValidity::AllInvalid;
            Ok(ListViewArray::new_unchecked(elements, offsets, sizes, validity))
        }
        Err(error) => {
            drop(elements);
            Err(error)
        }
    }
}
