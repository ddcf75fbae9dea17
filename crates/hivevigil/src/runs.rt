//! Calls that make run columns of what handles hold, and take them apart; sessions; and the end of a handle.
ghost use Rattle.std.specs.Prelude.{◌≡◌, ◌≢◌, [], IsSomeAnd, MatchOption, None, length, pos};
ghost use Rattle.runend_array.specs.Array.{column_of};
ghost use Rattle.runend_array.specs.SessionForm.{crate_thresholds};
ghost use Rattle.c_columns.specs.Ending.{EndsAlways, EndsOnHeldUnless, EndsOnParts, EndsOnRuns, WhereAll, WhereBoth};
ghost use Rattle.c_columns.specs.Handle.{array_in, format_in};
ghost use Rattle.c_columns.specs.Kinds.{dtype_by};
ghost use Rattle.c_columns.specs.Makers.{AreRecordedRuns, AreRunsOf, IsCopyOf};
ghost use Rattle.c_columns.specs.Reads.{AreRunValuesOf};
ghost use Rattle.c_columns.specs.RunParts.{AreEndsOf, IsRecordAtFront, RecordedFault, RunsFault, SerializeFault};
ghost use Rattle.c_columns.specs.Sessions.{HasAllKernels, thresholds_in};

use c_columns::commands::answer;
use c_columns::error_fields::{BAD_NUMBER, ErrorFields, NO_COLUMN, write_answer};
use c_columns::handle::Handle;
use c_columns::kinds::{self, Kind};
use c_columns::runs;
use c_columns::sessions::{self, Session};
use std::alloc::Global;

/// Makes the run column of these ends and values, of which `count` rows from row `offset` on are shown. Both stay in
/// their handles: the new column has clones of them. Refused as `Unsupported` where it would have more than 64 levels
/// of runs, then as the run column of such parts is.
#[tactic(auto, using(crate::proofs::PartEndings::no_ends, crate::proofs::PartEndings::no_values, crate::proofs::PartEndings::parts_done, crate::proofs::PartEndings::parts_refused))]
#[unsafe(no_mangle)]
pub extern "C" fn hv_runs(
    alloc: Global,
    ends: &mut Handle,
    values: &mut Handle,
    offset: usize,
    count: usize,
    out: &mut Handle,
    error: &mut ErrorFields,
) -> i32
    ensures same { ends.new.column ≡ ends.old.column }
    ensures same_values { values.new.column ≡ values.old.column }
    ensures made { result ≡ pos 0 → WhereAll (AreRunsOf offset count) (array_in ends.old.column)
        (array_in values.old.column) (array_in out.new.column) }
    ensures typed { result ≡ pos 0 → format_in out.new.column ≡ format_in values.old.column }
    ensures kept { result ≢ pos 0 → out.new.column ≡ out.old.column }
    ensures ended { EndsOnParts (RunsFault offset count) (array_in ends.old.column)
        (array_in values.old.column) result error.new }
{
    let Some(lent_ends) = ends.take(alloc) else {
        return NO_COLUMN;
    };
    let Some(lent_values) = values.take(alloc) else {
        ends.put(lent_ends);
        return NO_COLUMN;
    };
    let outcome = runs::run_column(alloc, &lent_ends.array, &lent_values, offset, count);
    ends.put(lent_ends);
    values.put(lent_values);
    answer(outcome, out, error)
}

/// Makes the run column of clones of these parts, `count` rows of this type, by its record. Answers 23 where the number
/// is of no type, or of lists; else refused as `hv_runs` for too many levels, and then as the record of such parts is.
#[tactic(auto, using(crate::proofs::PartEndings::no_ends, crate::proofs::PartEndings::no_values, crate::proofs::PartEndings::parts_done, crate::proofs::PartEndings::parts_refused))]
#[unsafe(no_mangle)]
pub extern "C" fn hv_deserialize(
    alloc: Global,
    kind: &Kind,
    count: usize,
    bytes: &[u8],
    ends: &mut Handle,
    values: &mut Handle,
    out: &mut Handle,
    error: &mut ErrorFields,
) -> i32
    ensures same { ends.new.column ≡ ends.old.column }
    ensures same_values { values.new.column ≡ values.old.column }
    ensures made { result ≡ pos 0
        → IsSomeAnd (dtype_by kind.now.number kind.now)
        (λ dtype. WhereAll (AreRecordedRuns bytes.now dtype count) (array_in ends.old.column)
        (array_in values.old.column) (array_in out.new.column)) }
    ensures typed { result ≡ pos 0 → format_in out.new.column ≡ format_in values.old.column }
    ensures kept { result ≢ pos 0 → out.new.column ≡ out.old.column }
    ensures ended { MatchOption (dtype_by kind.now.number kind.now) (result ≡ pos 23)
        (λ dtype. EndsOnParts (RecordedFault bytes.now dtype count)
        (array_in ends.old.column) (array_in values.old.column) result error.new) }
{
    let Some(dtype) = kinds::dtype_of(kind) else {
        return BAD_NUMBER;
    };
    let Some(lent_ends) = ends.take(alloc) else {
        return NO_COLUMN;
    };
    let Some(lent_values) = values.take(alloc) else {
        ends.put(lent_ends);
        return NO_COLUMN;
    };
    let outcome = runs::recorded_column(alloc, dtype, count, bytes, &lent_ends.array, &lent_values);
    ends.put(lent_ends);
    values.put(lent_values);
    answer(outcome, out, error)
}

/// Returns the record of a run column: its bytes go to the front of `bytes`, and `size` says how many they are. Answers
/// 11, with their number and the room, where they have no room there.
#[tactic(auto, using(crate::proofs::PartEndings::held_unless_empty, crate::proofs::PartEndings::held_unless_done, crate::proofs::PartEndings::held_unless_refused))]
#[unsafe(no_mangle)]
pub extern "C" fn hv_serialize(
    alloc: Global,
    column: &mut Handle,
    bytes: &mut [u8],
    size: &mut usize,
    error: &mut ErrorFields,
) -> i32
    ensures same { column.new.column ≡ column.old.column }
    ensures told { result ≡ pos 0
        → IsSomeAnd (array_in column.old.column) (λ c. IsRecordAtFront (column_of c) size.new bytes.new) }
    ensures kept_bytes { result ≢ pos 0 → bytes.new ≡ bytes.old }
    ensures kept_size { result ≢ pos 0 → size.new ≡ size.old }
    ensures ended { EndsOnHeldUnless (SerializeFault (length bytes.old)) (array_in column.old.column) result error.new }
{
    let Some(held) = column.take(alloc) else {
        return NO_COLUMN;
    };
    let outcome = runs::put_record(alloc, &held.array, bytes);
    column.put(held);
    write_answer(outcome, size, error)
}

/// Clones the ends of a run column. Refused as `Unsupported` where the column is of another form.
#[tactic(auto, using(crate::proofs::PartEndings::runs_empty, crate::proofs::PartEndings::runs_done, crate::proofs::PartEndings::runs_refused))]
#[unsafe(no_mangle)]
pub extern "C" fn hv_ends(
    alloc: Global,
    column: &mut Handle,
    out: &mut Handle,
    error: &mut ErrorFields,
) -> i32
    ensures same { column.new.column ≡ column.old.column }
    ensures made { result ≡ pos 0
        → WhereBoth (λ c d. AreEndsOf (column_of c) (column_of d)) (array_in column.old.column)
        (array_in out.new.column) }
    ensures untyped { result ≡ pos 0 → format_in out.new.column ≡ [] }
    ensures kept { result ≢ pos 0 → out.new.column ≡ out.old.column }
    ensures ended { EndsOnRuns (array_in column.old.column) result error.new }
{
    let Some(held) = column.take(alloc) else {
        return NO_COLUMN;
    };
    let outcome = runs::ends_of(alloc, &held.array);
    column.put(held);
    answer(outcome, out, error)
}

/// Clones the values of a run column. Refused as `hv_ends`.
#[tactic(auto, using(crate::proofs::PartEndings::runs_empty, crate::proofs::PartEndings::runs_done, crate::proofs::PartEndings::runs_refused))]
#[unsafe(no_mangle)]
pub extern "C" fn hv_values(
    alloc: Global,
    column: &mut Handle,
    out: &mut Handle,
    error: &mut ErrorFields,
) -> i32
    ensures same { column.new.column ≡ column.old.column }
    ensures made { result ≡ pos 0
        → WhereBoth (λ c d. AreRunValuesOf (column_of c) (column_of d)) (array_in column.old.column)
        (array_in out.new.column) }
    ensures typed { result ≡ pos 0 → format_in out.new.column ≡ format_in column.old.column }
    ensures kept { result ≢ pos 0 → out.new.column ≡ out.old.column }
    ensures ended { EndsOnRuns (array_in column.old.column) result error.new }
{
    let Some(held) = column.take(alloc) else {
        return NO_COLUMN;
    };
    let outcome = runs::values_of(alloc, &held);
    column.put(held);
    answer(outcome, out, error)
}

/// Clones the column: the same in the same form, which shares what holds 32 items or more. Refused only where memory
/// is refused.
#[tactic(auto, using(c_columns::proofs::Extremes::always_empty, c_columns::proofs::Extremes::always_done, c_columns::proofs::Extremes::always_short))]
#[unsafe(no_mangle)]
pub extern "C" fn hv_clone(
    alloc: Global,
    column: &mut Handle,
    out: &mut Handle,
    error: &mut ErrorFields,
) -> i32
    ensures same { column.new.column ≡ column.old.column }
    ensures made { result ≡ pos 0 → WhereBoth IsCopyOf (array_in column.old.column) (array_in out.new.column) }
    ensures typed { result ≡ pos 0 → format_in out.new.column ≡ format_in column.old.column }
    ensures kept { result ≢ pos 0 → out.new.column ≡ out.old.column }
    ensures ended { EndsAlways (array_in column.old.column) result error.new }
{
    let Some(held) = column.take(alloc) else {
        return NO_COLUMN;
    };
    let outcome = runs::boxed_copy(alloc, &held);
    column.put(held);
    answer(outcome, out, error)
}

/// Copies the column in the same form into buffers that no other column shares: those that this one shows a part of
/// may then be freed. Refused only where memory is refused.
#[tactic(auto, using(c_columns::proofs::Extremes::always_empty, c_columns::proofs::Extremes::always_done, c_columns::proofs::Extremes::always_short))]
#[unsafe(no_mangle)]
pub extern "C" fn hv_compact(
    alloc: Global,
    column: &mut Handle,
    out: &mut Handle,
    error: &mut ErrorFields,
) -> i32
    ensures same { column.new.column ≡ column.old.column }
    ensures made { result ≡ pos 0 → WhereBoth IsCopyOf (array_in column.old.column) (array_in out.new.column) }
    ensures typed { result ≡ pos 0 → format_in out.new.column ≡ format_in column.old.column }
    ensures kept { result ≢ pos 0 → out.new.column ≡ out.old.column }
    ensures ended { EndsAlways (array_in column.old.column) result error.new }
{
    let Some(held) = column.take(alloc) else {
        return NO_COLUMN;
    };
    let outcome = runs::boxed_compact(alloc, &held);
    column.put(held);
    answer(outcome, out, error)
}

/// The session that has every kernel, and the thresholds that the ported crate sets.
#[unsafe(no_mangle)]
pub extern "C" fn hv_session_initial(session: &mut Session)
    ensures thresholds { thresholds_in session.new ≡ crate_thresholds }
    ensures kernels { HasAllKernels session.new }
{
    *session = sessions::initial();
}

/// Frees the column, if there is one. The handle is empty after.
#[unsafe(no_mangle)]
pub extern "C" fn hv_free(alloc: Global, column: &mut Handle)
    ensures { column.new.column ≡ None }
{
    drop(column.take(alloc));
}
