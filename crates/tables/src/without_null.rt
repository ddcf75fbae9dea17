//! The rows of a table that are null in none of several of its columns.
ghost use Rattle.std.specs.Prelude.{◌≡◌, All, IfErr, IfOk, IsOkUnless, map};
ghost use Rattle.std.specs.String.{string_bytes};
ghost use Rattle.tables.specs.TableFaults.{AreAsked, IsSelectError};
ghost use Rattle.tables.specs.Tables.{IsKept, IsKnown};
ghost use Rattle.tables.specs.WithoutNull.{IsWithoutNull, chosen_names};

use crate::fault::TableError;
use crate::refusals::fault_of_names;
use crate::table::Table;
use crate::valid::mask_of_valid;
use column_core::{VortexError, VortexResult};
use runend_array::ExecutionCtx;
use std::alloc::Allocator;

impl<A: Allocator + Copy> Table<A> {
    /// Returns the rows at which none of the columns of these names is null, or no column at all where no name is
    /// given, of each column, under the same names and formats. Takes a step for each run of the columns that are
    /// looked at, and for each row of lists.
    ///
    /// Refused, in this order and however little memory there is, as `RepeatedName` at the first of the names that an
    /// earlier one is equal to, and as `UnknownName` at the first that no column has; else only as
    /// `Refused(OutOfMemory)`.
    pub fn drop_null(
        &self,
        names: &[String<A>],
        ctx: &mut ExecutionCtx<A>,
    ) -> Result<Table<A>, TableError>
        ensures valid { IfOk result (IsWithoutNull self.now
            (chosen_names self.now.names (map string_bytes names.now))) }
        ensures allowed { IfOk result (λ table. AreAsked self.now.names (map string_bytes names.now)) }
        ensures kept { IfOk result (IsKept self.now) }
        ensures refused { IfErr result (IsSelectError self.now.names (map string_bytes names.now)) }
        ensures session { ctx.new ≡ ctx.old }
    {
        if let Some(error) = fault_of_names(self.names(), names) {
            return Err(error);
        }
        let chosen = chosen_of(self.names(), names);
        Ok(self.valid_in(chosen, ctx)?)
    }

    // The rows at which none of the columns of these names is null, which all are there.
    fn valid_in(&self, names: &[String<A>], ctx: &mut ExecutionCtx<A>) -> VortexResult<Table<A>>
        requires known { All (IsKnown self.now.names) (map string_bytes names.now) }
        ensures only { IsOkUnless result VortexError.OutOfMemory }
        ensures valid { IfOk result (IsWithoutNull self.now (map string_bytes names.now)) }
        ensures kept { IfOk result (IsKept self.now) }
        ensures session { ctx.new ≡ ctx.old }
    {
        let columns = self.columns_named(names, ctx)?;
        let mask = mask_of_valid(&columns, self.rows, ctx);
        drop(columns);
        let mask = mask?;
        let kept = self.filter(&mask, ctx);
        drop(mask);
        kept
    }
}

// These names, or those of all columns where there are none.
fn chosen_of<'a, A: Allocator>(own: &'a [String<A>], names: &'a [String<A>]) -> &'a [String<A>]
    ensures { map string_bytes result.now ≡ chosen_names (map string_bytes own.now) (map string_bytes names.now) }
{
    if names.is_empty() { own } else { names }
}
