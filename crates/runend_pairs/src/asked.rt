//! An operation on two rows that counts how often it is asked.
ghost use Rattle.std.specs.Prelude.{◌≡◌, ◌+◌, ◌<◌};
ghost use Rattle.column_core.specs.ScalarView.{sees};
ghost use Rattle.runend_pairs.specs.Answers.{IsFound};
ghost use Rattle.runend_pairs.specs.Operations.{AreViewsOf};

use crate::pairs::Pairwise;
use crate::stored::Stored;
use column_core::ScalarView;
use std::alloc::Allocator;
use std::marker::Model;

/// Holds an operation that only `ask` asks, and counts how often. The count begins at 0 and grows by one with each
/// answer; nothing else changes it, as this module has nothing else. So a contract on it bounds the answers that a walk
/// asks for.
#[derive(Drop)]
pub(crate) struct Asked<'a, O> {
    operation: &'a O,
    asks: usize,
}

impl<'a, O> Model for Asked<'a, O> {
    ghost use Rattle.runend_pairs.specs.Asks.{Asks};

    ghost Value = { Asks O };

    ghost view = { λ s. record { operation = s.operation.now; asks = s.asks } };
}

impl<'a, O> Asked<'a, O> {
    /// Returns an operation that was not asked yet.
    pub(crate) fn new(operation: &'a O) -> Asked<'a, O>
        ensures operation { result.operation ≡ operation.now }
        ensures unasked { result.asks ≡ 0 }
    {
        Asked { operation, asks: 0 }
    }
}

/// Returns the answer of two rows, or `None` where its type does not have it.
#[inline]
pub(crate) fn ask<Z: Copy + Drop, K: Stored<Z>, O: Pairwise<Z, K>, A: Allocator>(
    asked: &mut Asked<'_, O>,
    left: &ScalarView<'_, A>,
    right: &ScalarView<'_, A>,
) -> Option<Option<Z>>
    requires taken { AreViewsOf (O.takes asked.old.operation) left.now right.now }
    requires room { asked.old.asks < usize.MAX }
    ensures found { IsFound K.shown (O.has asked.old.operation)
        (O.answer_of asked.old.operation (sees left.now) (sees right.now)) result }
    ensures same { asked.new.operation ≡ asked.old.operation }
    ensures counted { asked.new.asks ≡ asked.old.asks + 1 }
{
    asked.asks += 1;
    asked.operation.answer(left, right)
}
