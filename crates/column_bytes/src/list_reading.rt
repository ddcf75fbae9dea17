//! Columns of lists, read.
ghost use Rattle.std.specs.Prelude.{◌≡◌, ◌≤◌, OnOk, IfOk, IfErr, IsErrOf};
ghost use Rattle.column_core.specs.FlatColumn.{leaf_of};
ghost use Rattle.column_fields.specs.Refusal.{IsBadOrMemory};
ghost use Rattle.runend_array.specs.Array.{column_of, validity_of, lists_of, IsRowValidity, AreListTypes};
ghost use Rattle.runend_array.specs.Column.{OfLists};
ghost use Rattle.runend_array.specs.Lists.{list_count, lists_depth};
ghost use Rattle.column_bytes.specs.ListRead.{AreListsOf, AreListsOver, AreNoListsOver};
ghost use Rattle.column_bytes.specs.ListRead.{AreListsBehind, AreNoListsBehind};
ghost use Rattle.column_bytes.specs.Read.{IsBody, IsNoBody};

use crate::list_parts::{read_elements, read_index, read_row_validity};
use crate::lists::{LISTS, levels_of};
use column_base::{VortexError, VortexResult};
use column_core::FlatColumn;
use column_fields::{Header, read_list_fields};
use runend_array::{ArrayRef, Canonical, ExecutionCtx, ListViewArray, RowValidity, VortexSession};
use std::alloc::Allocator;
use std::rc::Rc;

/// Returns the column of lists after this header, with at most `levels` levels of runs. Refused as `BadMetadata`
/// exactly where there is none, else only as `OutOfMemory`.
pub(crate) fn read_lists<A: Allocator + Copy>(
    alloc: A,
    header: Header,
    bytes: &[u8],
    levels: usize,
) -> VortexResult<ArrayRef<A>>
    ensures found { IfOk result (λ array. IsBody levels header.kind 4 header.rows bytes.now (column_of array)) }
    ensures bad { IsErrOf result VortexError.BadMetadata → IsNoBody levels header.kind 4 header.rows bytes.now }
    ensures only { IfErr result IsBadOrMemory }
{
    if header.kind != LISTS {
        return Err(VortexError::BadMetadata);
    }
    let rows = header.rows as usize;
    let (validity, rest) = read_row_validity(alloc, bytes, rows)?;
    read_behind_validity(alloc, rows, levels, rest, validity)
}

// The lists with this validity; the bytes hold all else of them.
fn read_behind_validity<A: Allocator + Copy>(
    alloc: A,
    rows: usize,
    levels: usize,
    bytes: &[u8],
    validity: RowValidity<A>,
) -> VortexResult<ArrayRef<A>>
    requires { IsRowValidity validity }
    ensures found { IfOk result
        (λ array. AreListsBehind levels rows (validity_of validity) bytes.now (column_of array)) }
    ensures bad { IsErrOf result VortexError.BadMetadata →
        AreNoListsBehind levels rows (validity_of validity) bytes.now }
    ensures only { IfErr result IsBadOrMemory }
{
    let Some(fields) = read_list_fields(bytes) else {
        drop(validity);
        return Err(VortexError::BadMetadata);
    };
    match read_elements(alloc, fields.elements) {
        Ok(elements) => {
            let (first, counts) = (fields.offsets, fields.sizes);
            read_over_elements(alloc, rows, levels, first, counts, elements, validity)
        }
        Err(error) => {
            drop(validity);
            Err(error)
        }
    }
}

// The lists of these elements with this validity, from the messages of the offsets and of the sizes.
fn read_over_elements<A: Allocator + Copy>(
    alloc: A,
    rows: usize,
    levels: usize,
    first: &[u8],
    counts: &[u8],
    elements: Rc<FlatColumn<A>, A>,
    validity: RowValidity<A>,
) -> VortexResult<ArrayRef<A>>
    requires { IsRowValidity validity }
    ensures found { IfOk result (λ array. AreListsOver levels rows (leaf_of elements.value) (validity_of validity)
        first.now counts.now (column_of array)) }
    ensures bad { IsErrOf result VortexError.BadMetadata → AreNoListsOver levels rows (leaf_of elements.value)
        (validity_of validity) first.now counts.now }
    ensures only { IfErr result IsBadOrMemory }
{
    let offsets = match read_index(alloc, first) {
        Ok(offsets) => offsets,
        Err(error) => {
            drop(validity);
            drop(elements);
            return Err(error);
        }
    };
    match read_index(alloc, counts) {
        Ok(sizes) => join_lists(alloc, rows, levels, elements, offsets, sizes, validity),
        Err(error) => {
            drop(offsets);
            drop(validity);
            drop(elements);
            Err(error)
        }
    }
}

// The column of `rows` lists of these parts.
fn join_lists<A: Allocator + Copy>(
    alloc: A,
    rows: usize,
    levels: usize,
    elements: Rc<FlatColumn<A>, A>,
    offsets: ArrayRef<A>,
    sizes: ArrayRef<A>,
    validity: RowValidity<A>,
) -> VortexResult<ArrayRef<A>>
    requires { AreListTypes offsets sizes validity }
    ensures form { IfOk result
        (λ array. column_of array ≡ OfLists (lists_of elements.value offsets sizes validity)) }
    ensures lists { OnOk result (AreListsOf levels rows (lists_of elements.value offsets sizes validity)) }
    ensures bad { IsErrOf result VortexError.BadMetadata →
        ¬ AreListsOf levels rows (lists_of elements.value offsets sizes validity) }
    ensures only { IfErr result IsBadOrMemory }
{
    let mut ctx = ExecutionCtx::new(VortexSession::empty(), alloc);
    match ListViewArray::try_new(elements, offsets, sizes, validity, &mut ctx) {
        Ok(lists) => of_shape(alloc, rows, levels, lists),
        Err(_) => Err(VortexError::BadMetadata),
    }
}

// The lists as a column, if there are `rows` of them, with at most `levels` levels of runs.
fn of_shape<A: Allocator + Copy>(
    alloc: A,
    rows: usize,
    levels: usize,
    lists: ListViewArray<A>,
) -> VortexResult<ArrayRef<A>>
    ensures form { IfOk result (λ array. column_of array ≡ OfLists lists) }
    ensures counted { OnOk result (list_count lists ≡ rows) }
    ensures shallow { OnOk result (lists_depth lists ≤ levels) }
    ensures bad { IsErrOf result VortexError.BadMetadata → list_count lists ≡ rows → ¬ (lists_depth lists ≤ levels) }
    ensures only { IfErr result IsBadOrMemory }
{
    if lists.len() != rows || levels_of(&lists) > levels {
        drop(lists);
        return Err(VortexError::BadMetadata);
    }
    Canonical::List(lists).into_array(alloc)
}
