//! The columns by which rows are put in order: why these are none, and where rows change that are equal in all.
ghost use Rattle.std.specs.Prelude.{◌≡◌, All, IfOk, IsOkUnless, MatchOption, length, map};
ghost use Rattle.runend_array.specs.Array.{rows};
ghost use Rattle.row_groups.specs.Groups.{AreEndsOf, AreGroupEnds};
ghost use Rattle.tables.specs.KeyFaults.{AreKeys, IsFirstList, IsKeyFault, IsSingleName};
ghost use Rattle.tables.specs.Tables.{AreEven, AreSingle, IsKnown};
ghost use Rattle.typed_columns.specs.Typed.{typed_of};

use crate::fault::TableError;
use crate::names::Named;
use crate::refusals::fault_of_names;
use crate::table::Table;
use column_core::{VortexError, VortexResult, is_list_type};
use row_groups::{cut_groups, one_group};
use std::alloc::Allocator;
use typed_columns::TypedColumn;

impl<A: Allocator + Copy> Table<A> {
    /// Returns why rows are not put in order by the columns of these names, if they are not: `NoKeys` without a name,
    /// `RepeatedName` at the first that an earlier one is equal to, `UnknownName` at the first that no column has, and
    /// then `UnsupportedKey` at the first whose column has lists.
    pub(crate) fn fault_of_keys<N: Named>(&self, keys: &[N]) -> Option<TableError>
        ensures { MatchOption result (AreKeys self.now (map N.named keys.now))
            (IsKeyFault self.now (map N.named keys.now)) }
    {
        if keys.is_empty() {
            return Some(TableError::NoKeys);
        }
        if let Some(error) = fault_of_names(self.names(), keys) {
            return Some(error);
        }
        let key = self.first_list(keys)?;
        Some(TableError::UnsupportedKey { key })
    }

    // The first of these names, which columns have, whose column has lists.
    fn first_list<N: Named>(&self, keys: &[N]) -> Option<usize>
        requires known { All (IsKnown self.now.names) (map N.named keys.now) }
        ensures { MatchOption result (All (IsSingleName self.now) (map N.named keys.now))
            (IsFirstList self.now (map N.named keys.now)) }
    {
        for key in 0..keys.len() {
            let column = &self.columns[self.place_of(keys[key].name())];
            if is_list_type(column.array.dtype()) {
                return Some(key);
            }
        }
        None
    }
}

/// Returns where groups of rows end that are equal in all of these columns of `count` rows. Refused only as
/// `OutOfMemory`.
pub(crate) fn group_ends<A: Allocator + Copy>(
    alloc: A,
    columns: &[TypedColumn<A>],
    count: usize,
) -> VortexResult<Vec<u64, A>>
    requires even { AreEven (map typed_of columns.now) count }
    requires single { AreSingle (map typed_of columns.now) }
    ensures only { IsOkUnless result VortexError.OutOfMemory }
    ensures ends { IfOk result (λ ends. AreEndsOf count ends.items) }
    ensures groups { IfOk result (λ ends. AreGroupEnds (map (λ column. rows column.array) columns.now) count
        ends.items) }
{
    let mut ends = one_group(alloc, count)?;
    for column in columns {
        let cut = cut_groups(alloc, &ends, &column.array)?;
        ends = cut;
    }
    Ok(ends)
}
