// Which requests for memory are refused, and how many came so far.
ghost use Rattle.std.specs.Prelude.{◌≡◌, ◌↔◌, IsTrue};
ghost use Rattle.refusing.specs.Refusals.{Refuses};

use std::cell::Cell;

/// Says which requests for memory are refused, counted from 1.
#[derive(Clone, Copy, Debug, PartialEq, Eq)]
pub enum Refusals {
    /// Refuses no request.
    Never,
    /// Refuses the request of this number and every later one; all requests for 0.
    From(u64),
    /// Refuses only the request of this number; none for 0.
    Only(u64),
}

impl Refusals {
    /// Returns whether the request of this number is refused.
    pub fn refuse(self, request: u64) -> bool
        ensures { IsTrue result ↔ Refuses self request }
    {
        match self {
            Refusals::Never => false,
            Refusals::From(first) => first <= request,
            Refusals::Only(which) => request == which,
        }
    }
}

// The counts are in cells, since an allocator is asked through a `&`. No clause can say what a cell
// holds, so those of `Refusals` say what is refused, and the counts have none.
#[derive(Drop)]
pub(crate) struct Plan {
    refusals: Refusals,
    asked: Cell<u64>,
    refused: Cell<u64>,
}

impl Plan {
    // A plan that no request has come to yet.
    pub(crate) fn new(refusals: Refusals) -> Self
        ensures { result.refusals ≡ refusals }
    {
        Plan {
            refusals,
            asked: Cell::new(0),
            refused: Cell::new(0),
        }
    }

    pub(crate) fn asked(&self) -> u64 {
        self.asked.get()
    }

    pub(crate) fn refused(&self) -> u64 {
        self.refused.get()
    }

    // Counts one more request, and answers whether it is refused. A full count stays as it is.
    pub(crate) fn refuses_next(&self) -> bool {
        let request = self.asked.get().saturating_add(1);
        self.asked.set(request);
        let is_refused = self.refusals.refuse(request);
        if is_refused {
            self.refused.set(self.refused.get().saturating_add(1));
        }
        is_refused
    }
}
