// Calls with each request for memory refused in turn, by itself and with all later ones.
use crate::allocator::Refusing;
use column_base::{VortexError, VortexResult};
use std::alloc::{Allocator, Global};

// More requests than any calls make.
const MANY: u64 = 200;

/// Makes calls that ask for memory.
pub trait Calls {
    /// Makes the calls, with all that they ask for in this memory. Is each answer the one that is due?
    fn are_answered<A: Allocator + Copy>(alloc: A) -> VortexResult<bool>;
}

/// Makes the calls with the first, second, .. request refused, by itself and with all later ones, until none is. Do
/// they answer `OutOfMemory` where a request was refused, or else what they have to, and is some request refused?
pub fn are_answered_in_turn<C: Calls>(alloc: Global) -> bool {
    let alone = first_unmet::<C>(alloc, true);
    let later = first_unmet::<C>(alloc, false);
    alone > 1 && alone < MANY && later > 1 && later < MANY
}

// The first request that does not come, so that it is not refused, or 0 where a call answered something else.
fn first_unmet<C: Calls>(alloc: Global, is_alone: bool) -> u64 {
    for request in 1..MANY {
        match outcome_of::<C>(alloc, request, is_alone) {
            Outcome::Refused => {}
            Outcome::Unmet => return request,
            Outcome::Wrong => return 0,
        }
    }
    MANY
}

// How calls end where a request is to be refused.
#[derive(Clone, Copy)]
enum Outcome {
    // It came, and the calls answered what they have to, or that memory was refused.
    Refused,
    // It did not come, and they answered what they have to.
    Unmet,
    Wrong,
}

// How the calls end where this request is refused, by itself or with all later ones.
fn outcome_of<C: Calls>(alloc: Global, request: u64, is_alone: bool) -> Outcome {
    let heap = if is_alone {
        Refusing::only(alloc, request)
    } else {
        Refusing::from(alloc, request)
    };
    let answered = C::are_answered(&heap);
    match (answered, heap.refused()) {
        (Ok(true), 0) => Outcome::Unmet,
        (Ok(true), _) => Outcome::Refused,
        (Err(VortexError::OutOfMemory), refused) if refused > 0 => Outcome::Refused,
        _ => Outcome::Wrong,
    }
}
