// The allocator that asks its plan before it asks for memory.
ghost use Rattle.std.specs.Prelude.{◌≡◌};
ghost use Rattle.refusing.specs.declared.plan.Refusals.TheVariants.{Never, From, Only};

use crate::plan::{Plan, Refusals};
use std::alloc::{AllocError, Allocator};

/// Refuses the requests for memory that its plan names, and passes the others on to `B`.
///
/// A request is one call for a block: a collection's first block, or the new block of one that
/// grows or shrinks. A request that `B` itself refuses counts as asked, and not as refused.
///
/// The counts are in cells, and no contract can say what a cell holds: only tests show them.
///
/// Tests lend it as `&Refusing<Global>`, which is an allocator too, and `Copy`.
#[derive(Drop)]
pub struct Refusing<B: Allocator> {
    inner: B,
    plan: Plan,
}

impl<B: Allocator> Refusing<B> {
    ghost use Rattle.refusing.specs.Refusing.{inner_of, refusals_of};

    /// Refuses the request number `first`, counted from 1, and every later one.
    pub fn from(inner: B, first: u64) -> Self
        ensures inner { inner_of result ≡ inner }
        ensures refusals { refusals_of result ≡ From first }
    {
        Refusing {
            inner,
            plan: Plan::new(Refusals::From(first)),
        }
    }

    /// Refuses the request number `which`, counted from 1, and no other.
    pub fn only(inner: B, which: u64) -> Self
        ensures inner { inner_of result ≡ inner }
        ensures refusals { refusals_of result ≡ Only which }
    {
        Refusing {
            inner,
            plan: Plan::new(Refusals::Only(which)),
        }
    }

    /// Refuses no request: it only counts them.
    pub fn never(inner: B) -> Self
        ensures inner { inner_of result ≡ inner }
        ensures refusals { refusals_of result ≡ Never }
    {
        Refusing {
            inner,
            plan: Plan::new(Refusals::Never),
        }
    }

    /// Returns how many requests came so far, refused ones among them.
    pub fn asked(&self) -> u64 {
        self.plan.asked()
    }

    /// Returns how many requests the plan refused so far.
    pub fn refused(&self) -> u64 {
        self.plan.refused()
    }
}

unsafe impl<B: Allocator> Allocator for Refusing<B> {
    ghost dealloc_token = { λ heap ty ptr. B.dealloc_token heap.inner ty ptr };

    fn allocate(&self, size: usize, align: usize) -> Result<*mut u8, AllocError> {
        if self.plan.refuses_next() {
            return Err(AllocError);
        }
        self.inner.allocate(size, align)
    }

    unsafe fn deallocate(&self, ptr: *mut u8, size: usize, align: usize) {
        self.inner.deallocate(ptr, size, align);
    }
}
