//! Names of columns, as C passes and reads them: bytes, or the rows of a column of texts.
ghost use Rattle.std.specs.Prelude.{◌≡◌, ◌⊎◌, ◌<◌, IfErr, IfOk, MatchResult, None, OnErr, OnOk, Option, Some, drop, length, map, slice_get};
ghost use Rattle.std.specs.String.{string_bytes};
ghost use Rattle.std.specs.Str.{IsUtf8};
ghost use Rattle.column_core.specs.Refusal.{IsRefusedBy};
ghost use Rattle.column_core.specs.Value.{Value};
ghost use Rattle.runend_array.specs.Array.{dtype_of, rows};
ghost use Rattle.c_columns.specs.Reads.{bytes_of};
ghost use Rattle.c_tables.specs.TableCalls.{IsNameAtFront, IsNoName, name_fault, names_fault, names_in, row_name_fault, text_fault};
ghost use Rattle.c_tables.specs.TableEnding.{IsFault};
ghost use Rattle.tables.specs.Tables.{IsPlaceOf, IsTable};

use c_columns::row_value::put_bytes;
use column_core::{DType, ScalarView, VortexError, VortexResult};
use runend_array::ArrayRef;
use std::alloc::Global;
use std::str;
use tables::{Table, TableError};

/// Returns the place of the column of this name. Takes no memory. Refused as `UnknownName` exactly where no column has
/// it: bytes that are not UTF-8 name nothing.
pub fn place_of(table: &Table<Global>, name: &[u8]) -> Result<usize, TableError>
    ensures { MatchResult result (IsPlaceOf table.now.names name.now) (IsNoName name.now table.now) }
{
    let names = table.names();
    for place in 0..names.len() {
        if names[place].as_bytes() == name {
            return Ok(place);
        }
    }
    Err(TableError::UnknownName { name: 0 })
}

/// Returns the name that a column has, as text, where it is this one. Takes no memory. Refused as `place_of` is.
pub(crate) fn text_of<'a>(table: &'a Table<Global>, name: &[u8]) -> Result<&'a str, TableError>
    ensures found { MatchResult result (λ text. text.now ≡ name.now) (IsNoName name.now table.now) }
    ensures table { IsTable table.now }
{
    let names = table.names();
    let place = place_of(table, name)?;
    Ok(names[place].as_str())
}

/// Puts the name of the column of a place to the front of `room`, and returns how many bytes it has; those after them
/// stay. Takes no memory. Refused exactly as `OutOfBounds` where no column has this place, and then as `ColumnLength`,
/// with that number and the room, where it has no room there; `room` is as it was then.
pub fn put_name(table: &Table<Global>, place: usize, room: &mut [u8]) -> Result<usize, TableError>
    ensures put { IfOk result (λ size. IsNameAtFront place table.now size room.new) }
    ensures after { IfOk result (λ size. drop size room.new ≡ drop size room.old) }
    ensures refused { IfErr result (IsFault (name_fault place (length room.old) table.now)) }
    ensures kept { OnErr result (room.new ≡ room.old) }
    ensures len { length room.new ≡ length room.old }
{
    let names = table.names();
    if place >= names.len() {
        return Err(TableError::Refused(VortexError::OutOfBounds {
            index: place as i128,
            length: names.len(),
        }));
    }
    let size = put_bytes(names[place].as_bytes(), room)?;
    Ok(size as usize)
}

/// Returns a copy of a name. Refused as `TypeMismatch` exactly where it is not UTF-8, else only for memory.
pub(crate) fn owned_name(alloc: Global, name: &[u8]) -> VortexResult<String<Global>>
    ensures copied { IfOk result (λ made. string_bytes made ≡ name.now) }
    ensures text { OnOk result (IsUtf8 name.now) }
    ensures refused { IfErr result (λ error. (IsUtf8 name.now × (error ≡ VortexError.OutOfMemory))
        ⊎ ((¬ IsUtf8 name.now) × (error ≡ VortexError.TypeMismatch))) }
{
    match str::from_utf8(name) {
        Ok(text) => Ok(String::from_str(alloc, text)?),
        Err(_) => Err(VortexError::TypeMismatch),
    }
}

/// Returns the texts of a column of any form. Refused as `TypeMismatch` unless it is one of texts, and then as
/// `NullNotAllowed` where a row is null, or for memory.
pub(crate) fn names_of(alloc: Global, array: &ArrayRef<Global>) -> VortexResult<Vec<String<Global>>>
    ensures names { IfOk result (λ made. map string_bytes made.items ≡ names_in array.now) }
    ensures refused { IsRefusedBy (names_fault array.now) result }
{
    if let Some(error) = fault_of_texts(array.dtype()) {
        return Err(error);
    }
    let mut names = Vec::with_capacity(alloc, array.len())?;
    for row in 0..array.len() {
        let name = name_at(alloc, array, row)?;
        names.push_reserved(name);
    }
    Ok(names)
}

/// Returns `TypeMismatch` unless it is the type of texts.
pub(crate) fn fault_of_texts(dtype: DType) -> Option<VortexError>
    ensures { result ≡ text_fault dtype }
{
    match dtype {
        DType::Utf8(_) => None,
        _ => Some(VortexError::TypeMismatch),
    }
}

/// Returns a copy of the text of a row. Refused as `NullNotAllowed` where it is null, and as `TypeMismatch` where it is
/// another value than a text, or for memory.
pub(crate) fn name_at(
    alloc: Global,
    array: &ArrayRef<Global>,
    row: usize,
) -> VortexResult<String<Global>>
    requires { row < length (rows array.now) }
    ensures { (item : Option Value) × (slice_get (rows array.now) row ≡ Some item)
        × IsRefusedBy (row_name_fault item) result × IfOk result (λ made. string_bytes made ≡ bytes_of item) }
{
    match array.scalar_at(row)? {
        ScalarView::Utf8(text) => Ok(String::from_str(alloc, text)?),
        ScalarView::Null => Err(VortexError::NullNotAllowed),
        _ => Err(VortexError::TypeMismatch),
    }
}
