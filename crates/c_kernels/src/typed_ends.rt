//! The least and the greatest row of the column of a handle, by what its rows are worked as.
ghost use Rattle.std.specs.Prelude.{◌≡◌, ◌≢◌, ◌⊎◌, false, true, Err, IfErr, IfOk, IsSomeAnd, None, OnErr, length, pos};
ghost use Rattle.std.specs.Global.{Global};
ghost use Rattle.float_bits.specs.declared.formats.FloatFormat.{FloatFormat};
ghost use Rattle.runend_array.specs.Array.{column_of, dtype_of};
ghost use Rattle.runend_array.specs.declared.session.Kernel.TheVariants as kernel;
ghost use Rattle.runend_commands.specs.Extremes.{HasBytes, shown as shown_by};
ghost use Rattle.runend_commands.specs.Meaning.{plain};
ghost use Rattle.runend_commands.specs.Refusal.{refusal};
ghost use Rattle.runend_commands.specs.declared.command.Command.TheVariants.{MinMax};
ghost use Rattle.typed_columns.specs.Typed.{typed_of};
ghost use Rattle.typed_kernels.specs.Served.{served};
ghost use Rattle.c_columns.specs.Ending.{EndsOnEnds, IsEndsFault};
ghost use Rattle.c_columns.specs.Handle.{array_in};
ghost use Rattle.c_columns.specs.Sessions.{IsReadInPlaceIn};
ghost use Rattle.c_columns.specs.Values.{IsRoomFault, IsRoomThere, IsScalarTold};
ghost use Rattle.c_kernels.specs.TypedEnds.{IsEndNeverShortOn, IsEndOf};

use crate::typed_rows::double_of;
use c_columns::error_fields::{ErrorFields, NO_COLUMN, refuse};
use c_columns::handle::Handle;
use c_columns::row_value::{RowValue, check_room_of, null, row_value_of};
use c_columns::sessions::{Session, context};
use column_core::{Scalar, VortexError, VortexResult};
use std::alloc::Global;
use typed_columns::TypedColumn;
use typed_kernels::{Served, TypedExtremes, typed_min_max};

/// Holds the least and the greatest row.
#[derive(Clone, Copy)]
pub(crate) struct Ends {
    least: RowValue,
    greatest: RowValue,
}

/// Writes the least and the greatest row of the column of a handle that are not null, null twice where all are, and
/// returns 0: of floats the least and the greatest number, in which NaNs have no place, as floats of 64 bits. A text or
/// bytes of each go to the front of a buffer of its own. Else returns the number of an error, and writes nothing: 22
/// for an empty handle, then 13 for lists, and 11, with their number and the room, where a text or bytes have no room,
/// the least first.
#[tactic(auto, using(crate::proofs::TypedEndEndings::ends_empty, crate::proofs::TypedEndEndings::ends_done, crate::proofs::TypedEndEndings::ends_refused, crate::proofs::TypedEndEndings::short_empty, crate::proofs::TypedEndEndings::done_never_short, crate::proofs::TypedEndEndings::end_told))]
pub fn typed_min_max_in_handle(
    alloc: Global,
    session: &Session,
    column: &mut Handle,
    least: &mut RowValue,
    least_text: &mut [u8],
    greatest: &mut RowValue,
    greatest_text: &mut [u8],
    error: &mut ErrorFields,
) -> i32
    ensures same { column.new.column ≡ column.old.column }
    ensures told_least { result ≡ pos 0 → IsSomeAnd column.old.column (λ c. IsEndOf false c least_text.new least.new) }
    ensures told_greatest { result ≡ pos 0 →
        IsSomeAnd column.old.column (λ c. IsEndOf true c greatest_text.new greatest.new) }
    ensures kept_least { result ≢ pos 0 → least.new ≡ least.old }
    ensures kept_least_text { result ≢ pos 0 → least_text.new ≡ least_text.old }
    ensures kept_greatest { result ≢ pos 0 → greatest.new ≡ greatest.old }
    ensures kept_greatest_text { result ≢ pos 0 → greatest_text.new ≡ greatest_text.old }
    ensures ended { EndsOnEnds (length least_text.old) (length greatest_text.old)
        (array_in column.old.column) result error.new }
    ensures memory { IsEndNeverShortOn session.now column.old.column result }
{
    let Some(held) = column.take(alloc) else {
        return NO_COLUMN;
    };
    let outcome = ends_of(alloc, session, &held, least_text, greatest_text);
    column.put(held);
    match outcome {
        Ok(ends) => {
            *least = ends.least;
            *greatest = ends.greatest;
            0
        }
        Err(why) => refuse(why, error),
    }
}

// Returns both rows for C. Refused as `typed_min_max_in_handle` says.
#[tactic(auto, using(crate::proofs::TypedEndEndings::least_told, crate::proofs::TypedEndEndings::greatest_told, crate::proofs::TypedEndEndings::null_told, crate::proofs::TypedEndEndings::no_number_told, crate::proofs::TypedEndEndings::least_number_told, crate::proofs::TypedEndEndings::greatest_number_told, crate::proofs::TypedEndEndings::both_short, crate::proofs::TypedEndEndings::both_refused, crate::proofs::TypedEndEndings::both_accepted))]
fn ends_of(
    alloc: Global,
    session: &Session,
    column: &TypedColumn<Global>,
    least_text: &mut [u8],
    greatest_text: &mut [u8],
) -> VortexResult<Ends>
    ensures least { IfOk result (λ ends. IsEndOf false column.now least_text.new ends.least) }
    ensures greatest { IfOk result (λ ends. IsEndOf true column.now greatest_text.new ends.greatest) }
    ensures accepted { IfOk result (λ _. refusal {A = Global} (plain column.now.array) MinMax ≡ None) }
    ensures refused { IfErr result
        (λ error. IsEndsFault (plain column.now.array) (length least_text.old) (length greatest_text.old) error) }
    ensures kept_least { OnErr result (least_text.new ≡ least_text.old) }
    ensures kept_greatest { OnErr result (greatest_text.new ≡ greatest_text.old) }
    ensures memory { ((f : FloatFormat) → served (typed_of column.now) ≢ Served.Floats f) →
        ¬ HasBytes (dtype_of column.now.array) →
        IsReadInPlaceIn session.now kernel.MinMax (column_of column.now.array) →
        result ≢ Err VortexError.OutOfMemory }
{
    let mut ctx = context(alloc, session);
    match typed_min_max(column, &mut ctx)? {
        TypedExtremes::Stored(Some((least, greatest))) => {
            let told = both_told(&least, &greatest, least_text, greatest_text);
            drop(least);
            drop(greatest);
            told
        }
        TypedExtremes::Floats(format, Some((least, greatest))) => Ok(Ends {
            least: double_of(format, least),
            greatest: double_of(format, greatest),
        }),
        TypedExtremes::Stored(None) | TypedExtremes::Floats(_, None) => Ok(Ends {
            least: null(),
            greatest: null(),
        }),
    }
}

// Returns both scalars, each with a buffer of its own, the least first. Nothing is written where one of them has no
// room.
#[tactic(auto, using(c_columns::proofs::Told::never_short))]
fn both_told(
    least: &Scalar<Global>,
    greatest: &Scalar<Global>,
    least_text: &mut [u8],
    greatest_text: &mut [u8],
) -> VortexResult<Ends>
    ensures least { IfOk result (λ ends. IsScalarTold least.now ends.least least_text.new) }
    ensures greatest { IfOk result (λ ends. IsScalarTold greatest.now ends.greatest greatest_text.new) }
    ensures refused { IfErr result
        (λ error. IsRoomFault (shown_by least.now) (length least_text.old) error
        ⊎ (IsRoomThere (shown_by least.now) (length least_text.old)
        × IsRoomFault (shown_by greatest.now) (length greatest_text.old) error)) }
    ensures kept_least { OnErr result (least_text.new ≡ least_text.old) }
    ensures kept_greatest { OnErr result (greatest_text.new ≡ greatest_text.old) }
{
    check_room_of(least.view(), least_text.len())?;
    check_room_of(greatest.view(), greatest_text.len())?;
    let least = scalar_told(least, least_text)?;
    let greatest = scalar_told(greatest, greatest_text)?;
    Ok(Ends { least, greatest })
}

fn scalar_told(scalar: &Scalar<Global>, text: &mut [u8]) -> VortexResult<RowValue>
    ensures told { IfOk result (λ value. IsScalarTold scalar.now value text.new) }
    ensures room { IfErr result (λ error. IsRoomFault (shown_by scalar.now) (length text.old) error) }
    ensures fits { IfOk result (λ _. IsRoomThere (shown_by scalar.now) (length text.old)) }
    ensures kept { OnErr result (text.new ≡ text.old) }
{
    row_value_of(scalar.view(), text)
}
