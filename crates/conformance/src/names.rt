//! Names that no other test has: the slots of run columns, and what a run column holds in addition
//! to them.
use std::alloc::Global;
use std::test::Fail;
use vortex_runend::{RunEndData, RunEndSlots};

type Slots = RunEndSlots<Global>;

#[test]
fn slots_and_offsets_have_their_names(rt: HostRuntime) -> Result<(), Fail> {
    let are_named = (Slots::ENDS, Slots::VALUES) == (0, 1) && Slots::NAMES == ["ends", "values"];
    let text = RunEndData::new(3).to_string(rt.alloc())?;
    let is_shown = text.as_str() == "offset: 3";
    drop(text);
    assert!(rt; are_named && is_shown);
    Ok(())
}
