//! Groups of rows that are equal in several columns, and what is answered of each.
ghost use Rattle.std.specs.Prelude.{◌≡◌, ◌+◌, ◌^◌, ◌<◌, ◌++◌, ◌∷◌, [], ℕ, All, IfErr, IfOk, IsOkUnless, MatchOption, OnOk, drop, length, map, take};
ghost use Rattle.std.specs.List.{AllZip};
ghost use Rattle.std.specs.String.{string_bytes};
ghost use Rattle.row_groups.specs.Groups.{AreEndsOf};
ghost use Rattle.tables.specs.GroupFaults.{AreAnswers, IsAnswerRefusal, IsAnswersRefusal, IsAskedFault, IsErrorOf, IsGroupsError, IsGroupsFault, IsLargeSum, IsServed};
ghost use Rattle.tables.specs.Grouping.{AreGroups, AreGroupsOf, IsAnswerColumn, IsHeadColumn, asked_of, group_names};
ghost use Rattle.tables.specs.TableFaults.{IsFirstRepeated};
ghost use Rattle.tables.specs.Tables.{AreDistinct, AreEven};
ghost use Rattle.typed_columns.specs.Typed.{typed_of};

use crate::columns::stretches_of_each;
use crate::fault::TableError;
use crate::keys::group_ends;
use crate::names::{Named, copies_of, place_of};
use crate::table::Table;
use column_core::{VortexError, VortexResult};
use row_groups::{rows_alone, starts_of};
use runend_array::ExecutionCtx;
use runend_pairs::{GroupError, GroupFold};
use std::alloc::Allocator;
use typed_columns::TypedColumn;
use typed_groups::{answer_groups, is_answered};

/// Asks for one answer of each group of rows.
#[derive(Drop)]
pub struct Asked<A: Allocator> {
    /// Names the answer.
    pub name: String<A>,
    /// Names the column that is looked at. To count rows, any column will do.
    pub column: String<A>,
    /// Says what is answered of its rows.
    pub fold: GroupFold,
}

impl<A: Allocator> Named for Asked<A> {
    ghost named = { λ asked. string_bytes asked.name };

    fn name(&self) -> &str {
        self.name.as_str()
    }
}

impl<A: Allocator + Copy> Table<A> {
    /// Returns a row for each group of neighbouring rows that are equal in all columns of these names, null equal to
    /// null: the keys of the group under their names and formats, then what is asked of its rows under the names of
    /// the answers. `GroupFold` says what each answer is. Keys are compared as they are stored, whatever their format
    /// says, and columns are asked as what they mean (`typed_groups::answer_groups`): floats are added exactly and
    /// rounded once, to 64 bits, and their least and greatest are numbers; decimals are added in 38 digits. The least,
    /// greatest, first and last value have the format of their column, a sum of floats that of floats of 64 bits, a sum
    /// of lengths of time theirs; other sums and numbers of rows have none. Takes a step for each run of the keys, and
    /// for each run of a column that is asked of, within each group where that is not of integers.
    ///
    /// Refused, in this order and however little memory there is, as `NoKeys` without a key, as `RepeatedName` at the
    /// first key whose name an earlier one has, as `UnknownName` at the first whose name no column has, as
    /// `UnsupportedKey` at the first whose column has lists, as `RepeatedAnswer` at the first answer whose name a key
    /// or an earlier answer has, and then at the first answer that is not served: as `UnknownColumn` where no column
    /// has the name of its column, or as `UnsupportedAnswer` for a sum of what is not added (dates, timestamps, times
    /// of a day, and rows that are not numbers), and for a least, greatest, first or last list. Else as `SumOverflow`
    /// at the first answer with a sum that does not fit, in 64 bits or in 38 digits, and the first group of which that
    /// is so, or as `Refused(OutOfMemory)`.
    pub fn group_by(
        &self,
        keys: &[String<A>],
        asked: &[Asked<A>],
        ctx: &mut ExecutionCtx<A>,
    ) -> Result<Table<A>, TableError>
        ensures groups { IfOk result (AreGroupsOf self.now (map string_bytes keys.now) (map asked_of asked.now)) }
        ensures allowed { IfOk result (λ table. AreAnswers self.now (map string_bytes keys.now)
            (map asked_of asked.now)) }
        ensures refused { IfErr result (IsGroupsError self.now (map string_bytes keys.now)
            (map asked_of asked.now)) }
        ensures session { ctx.new ≡ ctx.old }
    {
        if let Some(error) = self.fault_of_groups(keys, asked) {
            return Err(error);
        }
        let names = answer_names(*ctx.allocator(), keys, asked)?;
        match self.grouped(keys, asked, ctx) {
            Ok((columns, rows)) => Ok(Table {
                names,
                columns,
                rows,
            }),
            Err(error) => {
                drop(names);
                Err(error)
            }
        }
    }

    // Why groups are not made, if they are not, before memory is asked for.
    fn fault_of_groups(&self, keys: &[String<A>], asked: &[Asked<A>]) -> Option<TableError>
        ensures { MatchOption result
            (AreAnswers self.now (map string_bytes keys.now) (map asked_of asked.now))
            (IsGroupsFault self.now (map string_bytes keys.now) (map asked_of asked.now)) }
    {
        if let Some(error) = self.fault_of_keys(keys) {
            return Some(error);
        }
        if let Some(found) = first_repeated_answer(keys, asked) {
            return Some(TableError::RepeatedAnswer {
                earlier: found.0,
                answer: found.1,
            });
        }
        self.fault_of_asked(asked)
    }

    // Why the first answer that is not served is not: its column is not there, or its rows have no such answer.
    fn fault_of_asked(&self, asked: &[Asked<A>]) -> Option<TableError>
        ensures { MatchOption result (All (IsServed self.now) (map asked_of asked.now))
            (IsAskedFault self.now (map asked_of asked.now)) }
    {
        for answer in 0..asked.len() {
            let one = &asked[answer];
            let Some(column) = self.column(one.column.as_str()) else {
                return Some(TableError::UnknownColumn { answer });
            };
            if !is_answered(column, one.fold) {
                return Some(TableError::UnsupportedAnswer { answer });
            }
        }
        None
    }

    // The keys of each group and its answers, and how many groups there are.
    fn grouped(
        &self,
        keys: &[String<A>],
        asked: &[Asked<A>],
        ctx: &mut ExecutionCtx<A>,
    ) -> Result<(Vec<TypedColumn<A>, A>, usize), TableError>
        requires asked { AreAnswers self.now (map string_bytes keys.now) (map asked_of asked.now) }
        ensures groups { IfOk result (λ made. AreGroups self.now (map string_bytes keys.now) (map asked_of asked.now)
            (map typed_of made.0.items) made.1) }
        ensures small { IfOk result (λ made. made.1 < 2 ^ 64) }
        ensures refused { IfErr result (IsGroupsError self.now (map string_bytes keys.now)
            (map asked_of asked.now)) }
        ensures session { ctx.new ≡ ctx.old }
    {
        let columns = self.columns_named(keys, ctx)?;
        let ends = match group_ends(*ctx.allocator(), &columns, self.rows) {
            Ok(ends) => ends,
            Err(error) => {
                drop(columns);
                return Err(TableError::Refused(error));
            }
        };
        let made = self.group_columns(&columns, &ends, asked, ctx);
        drop(columns);
        let count = ends.len();
        drop(ends);
        Ok((made?, count))
    }

    // The row of each key at which each group begins, and after these columns the answers of each group.
    fn group_columns(
        &self,
        keys: &[TypedColumn<A>],
        ends: &[u64],
        asked: &[Asked<A>],
        ctx: &mut ExecutionCtx<A>,
    ) -> Result<Vec<TypedColumn<A>, A>, TableError>
        requires even { AreEven (map typed_of keys.now) self.now.count }
        requires ends { AreEndsOf self.now.count ends.now }
        requires served { All (IsServed self.now) (map asked_of asked.now) }
        ensures heads { IfOk result (λ made. AllZip (IsHeadColumn ends.now) (map typed_of keys.now)
            (map typed_of (take (length keys.now) made.items))) }
        ensures answers { IfOk result (λ made. AllZip (IsAnswerColumn self.now ends.now) (map asked_of asked.now)
            (map typed_of (drop (length keys.now) made.items))) }
        ensures refused { IfErr result (IsAnswersRefusal self.now ends.now (map asked_of asked.now)) }
        ensures session { ctx.new ≡ ctx.old }
    {
        let heads = heads_of_each(keys, self.rows, ends, ctx)?;
        self.with_answers(heads, ends, asked, ctx)
    }

    // These columns, and after them the answers of each group.
    fn with_answers(
        &self,
        heads: Vec<TypedColumn<A>, A>,
        ends: &[u64],
        asked: &[Asked<A>],
        ctx: &mut ExecutionCtx<A>,
    ) -> Result<Vec<TypedColumn<A>, A>, TableError>
        requires ends { AreEndsOf self.now.count ends.now }
        requires served { All (IsServed self.now) (map asked_of asked.now) }
        ensures heads { IfOk result (λ made. take (length heads.items) made.items ≡ heads.items) }
        ensures answers { IfOk result (λ made. AllZip (IsAnswerColumn self.now ends.now) (map asked_of asked.now)
            (map typed_of (drop (length heads.items) made.items))) }
        ensures refused { IfErr result (IsAnswersRefusal self.now ends.now (map asked_of asked.now)) }
        ensures session { ctx.new ≡ ctx.old }
    {
        let mut made = heads;
        for answer in 0..asked.len() {
            let column = match self.answer_of(ends, &asked[answer], ctx) {
                Ok(column) => column,
                Err(error) => {
                    drop(made);
                    return Err(error_of_answer(answer, error));
                }
            };
            push_column(&mut made, column)?;
        }
        Ok(made)
    }

    // The answer of each of the groups that end before these rows.
    fn answer_of(
        &self,
        ends: &[u64],
        asked: &Asked<A>,
        ctx: &mut ExecutionCtx<A>,
    ) -> Result<TypedColumn<A>, GroupError>
        requires ends { AreEndsOf self.now.count ends.now }
        requires served { IsServed self.now (asked_of asked.now) }
        ensures answer { IfOk result (λ made. IsAnswerColumn self.now ends.now (asked_of asked.now) (typed_of made)) }
        ensures fits { IfOk result (λ made. (group : ℕ) → ¬ IsLargeSum self.now ends.now (asked_of asked.now) group) }
        ensures refused { IfErr result (IsAnswerRefusal self.now ends.now (asked_of asked.now)) }
        ensures session { ctx.new ≡ ctx.old }
    {
        let column = &self.columns[self.place_of(asked.column.as_str())];
        answer_groups(column, ends, asked.fold, ctx)
    }
}

// Puts a column after the others.
fn push_column<A: Allocator + Copy>(
    columns: &mut Vec<TypedColumn<A>, A>,
    column: TypedColumn<A>,
) -> VortexResult<()>
    ensures only { IsOkUnless result VortexError.OutOfMemory }
    ensures pushed { OnOk result (columns.new.items ≡ columns.old.items ++ column ∷ []) }
{
    columns.push(column)?;
    Ok(())
}

// The first answer whose name a key or an earlier answer has, after the place of that: answers come after the keys.
fn first_repeated_answer<A: Allocator>(
    keys: &[String<A>],
    asked: &[Asked<A>],
) -> Option<(usize, usize)>
    requires distinct { AreDistinct (map string_bytes keys.now) (length keys.now) }
    ensures { MatchOption result (AreDistinct (group_names (map string_bytes keys.now) (map asked_of asked.now))
        (length (group_names (map string_bytes keys.now) (map asked_of asked.now))))
        (λ found. IsFirstRepeated (group_names (map string_bytes keys.now) (map asked_of asked.now)) found.0
        (length keys.now + found.1)) }
{
    for answer in 0..asked.len() {
        let name = asked[answer].name();
        if let Some(key) = place_of(keys, name) {
            return Some((key, answer));
        }
        if let Some(earlier) = place_of(&asked[..answer], name) {
            return Some((keys.len() + earlier, answer));
        }
    }
    None
}

// Why an answer is refused.
fn error_of_answer(answer: usize, error: GroupError) -> TableError
    ensures { IsErrorOf answer error result }
{
    match error {
        GroupError::Refused(error) => TableError::Refused(error),
        GroupError::SumOverflow { group } => TableError::SumOverflow { answer, group },
    }
}

// The names of keys, and after them those of answers.
fn answer_names<A: Allocator + Copy>(
    alloc: A,
    keys: &[String<A>],
    asked: &[Asked<A>],
) -> VortexResult<Vec<String<A>, A>>
    ensures only { IsOkUnless result VortexError.OutOfMemory }
    ensures names { IfOk result (λ names. map string_bytes names.items ≡
        group_names (map string_bytes keys.now) (map asked_of asked.now)) }
{
    let mut names = copies_of(alloc, keys)?;
    for one in asked {
        let name = String::from_str(alloc, one.name())?;
        names.push(name)?;
    }
    Ok(names)
}

// The row of each of these columns at which each group begins.
fn heads_of_each<A: Allocator + Copy>(
    columns: &[TypedColumn<A>],
    count: usize,
    ends: &[u64],
    ctx: &mut ExecutionCtx<A>,
) -> VortexResult<Vec<TypedColumn<A>, A>>
    requires even { AreEven (map typed_of columns.now) count }
    requires ends { AreEndsOf count ends.now }
    ensures only { IsOkUnless result VortexError.OutOfMemory }
    ensures heads { IfOk result (λ made. AllZip (IsHeadColumn ends.now) (map typed_of columns.now)
        (map typed_of made.items)) }
    ensures session { ctx.new ≡ ctx.old }
{
    let starts = starts_of(*ctx.allocator(), ends)?;
    let order = rows_alone(*ctx.allocator(), &starts);
    drop(starts);
    let order = order?;
    stretches_of_each(columns, count, &order, ctx)
}
