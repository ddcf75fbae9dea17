//! The run of each row as a table in which indices are looked up, with each request for memory refused in turn. A take
//! by the library makes none.
ghost use Rattle.std.specs.Prelude.{◌≡◌, true, false, [], ◌∷◌, ◌++◌, IfOk, replicate};
ghost use Rattle.column_base.specs.Mask.{mask_bits};

use crate::columns::context;
use refusing::{Calls, are_answered_in_turn};
use std::alloc::Allocator;
use std::test::Fail;
use vortex_runend::compute::{physical_indices_table, run_index_table};
use vortex_runend::{BitBufferMut, CountedEnds, ExecutionCtx, Mask, VortexResult};

// Where two runs end, in rows.
const TWO_ENDS: [u32; 2] = [2, 5];

// Two indices; the first is null.
fn first_is_null<A: Allocator + Copy>(alloc: A) -> VortexResult<Mask<A>>
    ensures { IfOk result (λ mask. mask_bits mask ≡ replicate 1 false ++ true ∷ []) }
{
    let mut bits = BitBufferMut::full(alloc, false, 1)?;
    bits.append(true)?;
    Ok(Mask::from_buffer(bits.freeze()))
}

// Are the runs that were found these?
fn are_runs<A: Allocator>(found: VortexResult<Vec<u64, A>>, runs: &[u64]) -> VortexResult<bool> {
    let found = found?;
    let are_due = found.as_slice() == runs;
    drop(found);
    Ok(are_due)
}

// Does a table find the run of row 0 at the null index? The run before it shows no row.
fn nulls_have_runs<A: Allocator + Copy>(
    mask: &Mask<A>,
    ctx: &mut ExecutionCtx<A>,
) -> VortexResult<bool>
    requires { mask_bits mask.now ≡ replicate 1 false ++ true ∷ [] }
{
    let mut ends = CountedEnds::new(&TWO_ENDS);
    let indices = [100u8, 1];
    let table = run_index_table(&mut ends, 2, 3, ctx)?;
    let looked_up = physical_indices_table(&table, &indices, mask, ctx);
    drop(table);
    are_runs(looked_up, &[1, 1])
}

struct NullIndex {}

impl Calls for NullIndex {
    fn are_answered<A: Allocator + Copy>(alloc: A) -> VortexResult<bool> {
        let mask = first_is_null(alloc)?;
        let have_runs = nulls_have_runs(&mask, &mut context(alloc));
        drop(mask);
        have_runs
    }
}

#[test]
fn a_table_finds_the_run_of_row_0_at_a_null_index(rt: HostRuntime) -> Result<(), Fail> {
    assert!(rt; are_answered_in_turn::<NullIndex>(rt.alloc()));
    Ok(())
}
