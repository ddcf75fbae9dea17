//! The allocator that refuses: which requests it refuses, and what it counts, which no contract says.
use refusing::Refusing;
use std::alloc::{AllocError, Allocator, Global};
use std::test::Fail;

// Is memory given, where it is asked for once?
fn is_given<A: Allocator + Copy>(alloc: A) -> bool {
    let block: Result<Vec<u64, A>, AllocError> = Vec::with_capacity(alloc, 4);
    block.is_ok()
}

// Are three requests given as is due, and is this number of them counted as refused?
fn are_given(heap: &Refusing<Global>, due: [bool; 3], refused: u64) -> bool {
    is_given(heap) == due[0]
        && is_given(heap) == due[1]
        && is_given(heap) == due[2]
        && heap.asked() == 3
        && heap.refused() == refused
}

// Is it refused from each request on, and at only the second one?
fn is_refused_so(alloc: Global) -> bool {
    are_given(&Refusing::from(alloc, 1), [false, false, false], 3)
        && are_given(&Refusing::from(alloc, 2), [true, false, false], 2)
        && are_given(&Refusing::from(alloc, 3), [true, true, false], 1)
        && are_given(&Refusing::only(alloc, 2), [true, false, true], 1)
}

#[test]
fn refuses_from_a_request_on_or_one_alone(rt: HostRuntime) -> Result<(), Fail> {
    assert!(rt; is_refused_so(rt.alloc()));
    Ok(())
}
