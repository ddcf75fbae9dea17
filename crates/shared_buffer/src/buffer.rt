//! Items in order, in a vector that several owners may share.
ghost use Rattle.std.specs.Prelude.{◌≡◌, ◌<◌, ◌≤◌, ◌↔◌, [], length, slice_index_or, slice_range, IsTrue, IfOk, MatchResult};

use std::alloc::{AllocError, AllocFailed, Allocator};
use std::marker::Model;
use std::ops::{Index, Range};
use std::sync::Arc;

/// Sets the number of items from which on a vector is shared. To copy fewer costs no more than to count another owner.
const SHARED_FROM: usize = 32;

/// Holds items in order. The clones and the parts of a shared buffer hold the same vector: none of its items is copied,
/// no memory is asked for, and it is freed with the last of them. The clones and parts of a buffer that is not shared
/// are copies.
#[derive(Drop)]
pub struct Buffer<T, A: Allocator> {
    storage: Storage<T, A>,
}

// A vector that has no other owner, or the items from `start` to `end - 1` of one that may have others, in any threads.
#[derive(Drop)]
enum Storage<T, A: Allocator> {
    Owned(Vec<T, A>),
    Shared {
        vector: Arc<Vec<T, A>, A>,
        start: usize,
        end: usize,
    },
}

impl<T, A: Allocator> Model for Buffer<T, A> {
    ghost use Rattle.shared_buffer.specs.Buffer.{Buffer as Items, buffer_code};

    ghost Value = { Items T };

    ghost coded = { buffer_code T.code };

    ghost use Rattle.shared_buffer.specs.Storage.{items_of, IsWithin};

    ghost view = { λ b. record { items = items_of b.storage } };

    ghost invariant = { λ b. IsWithin b.storage };
}

impl<T, A: Allocator> Buffer<T, A> {
    /// Returns the items of the vector, not shared: their parts and clones are copies. Takes no memory.
    pub fn from_vec(items: Vec<T, A>) -> Buffer<T, A>
        ensures { result.items ≡ items.items }
    {
        Buffer {
            storage: Storage::Owned(items),
        }
    }

    /// Returns the items.
    pub fn as_slice(&self) -> &[T]
        ensures value { result.now ≡ self.now.items }
        ensures len { length result.now ≡ length self.now.items }
    {
        match &self.storage {
            Storage::Owned(items) => items.as_slice(),
            Storage::Shared { vector, start, end } => &vector.as_slice()[*start..*end],
        }
    }

    /// Returns how many items there are.
    pub fn len(&self) -> usize
        ensures { result ≡ length self.now.items }
    {
        match &self.storage {
            Storage::Owned(items) => items.len(),
            Storage::Shared { start, end, .. } => *end - *start,
        }
    }

    /// Returns whether it has no items.
    pub fn is_empty(&self) -> bool
        ensures { IsTrue result ↔ (self.now.items ≡ []) }
    {
        self.len() == 0
    }

    /// Returns the vector itself, where this is its only owner and shows all of it. Else the buffer is handed back.
    pub fn try_into_vec(self) -> Result<Vec<T, A>, Buffer<T, A>>
        ensures { MatchResult result (λ items. items.items ≡ self.items) (λ buffer. buffer.items ≡ self.items) }
    {
        match self.storage {
            Storage::Owned(items) => Ok(items),
            Storage::Shared { vector, start, end } => {
                if start == 0 && end == vector.len() {
                    sole_vector(vector)
                } else {
                    Err(Buffer {
                        storage: Storage::Shared { vector, start, end },
                    })
                }
            }
        }
    }
}

// The vector, where this is its only owner, and else a buffer of all its items.
fn sole_vector<T, A: Allocator>(vector: Arc<Vec<T, A>, A>) -> Result<Vec<T, A>, Buffer<T, A>>
    ensures { MatchResult result (λ items. items.items ≡ vector.value.items) (λ buffer. buffer.items ≡
        vector.value.items) }
{
    match Arc::try_unwrap(vector) {
        Ok(items) => Ok(items),
        Err(vector) => {
            let end = vector.len();
            Err(Buffer {
                storage: Storage::Shared {
                    vector,
                    start: 0,
                    end,
                },
            })
        }
    }
}

impl<T: Drop, A: Allocator + Copy> Buffer<T, A> {
    /// Returns the items of the vector, shared: one small request for the count of owners. Not shared where that is
    /// refused, and where they are so few that a copy costs no more.
    pub fn shared(items: Vec<T, A>) -> Buffer<T, A>
        ensures { result.items ≡ items.items }
    {
        let end = items.len();
        if end < SHARED_FROM {
            return Buffer::from_vec(items);
        }
        match Arc::new(*items.allocator(), items) {
            Ok(vector) => Buffer {
                storage: Storage::Shared {
                    vector,
                    start: 0,
                    end,
                },
            },
            Err(AllocFailed { value: items }) => Buffer::from_vec(items),
        }
    }

    /// Returns the buffer with its items shared as `shared` shares them.
    pub fn into_shared(self) -> Buffer<T, A>
        ensures { result.items ≡ self.items }
    {
        match self.storage {
            Storage::Owned(items) => Buffer::shared(items),
            storage => Buffer { storage },
        }
    }
}

impl<T: Copy, A: Allocator + Copy> Buffer<T, A> {
    /// Returns a copy of the items. Shares them if they are shared, and copies them otherwise.
    pub fn try_clone(&self, alloc: A) -> Result<Buffer<T, A>, AllocError>
        ensures { IfOk result (λ copy. copy.items ≡ self.now.items) }
    {
        match &self.storage {
            Storage::Owned(items) => Ok(Buffer::shared(Vec::from_slice(alloc, items)?)),
            Storage::Shared { vector, start, end } => Ok(Buffer {
                storage: Storage::Shared {
                    vector: vector.clone()?,
                    start: *start,
                    end: *end,
                },
            }),
        }
    }

    /// Returns the items from `range.start` to `range.end - 1`. Shares them if they are shared, and copies them
    /// otherwise.
    pub fn slice(&self, alloc: A, range: Range<usize>) -> Result<Buffer<T, A>, AllocError>
        requires ordered { range.start ≤ range.end }
        requires in_bounds { range.end ≤ length self.now.items }
        ensures { IfOk result (λ part. part.items ≡ slice_range self.now.items range.start range.end) }
    {
        match &self.storage {
            Storage::Owned(items) => {
                let part = Vec::from_slice(alloc, &items[range.start..range.end])?;
                Ok(Buffer::shared(part))
            }
            Storage::Shared { vector, start, .. } => Ok(Buffer {
                storage: Storage::Shared {
                    vector: vector.clone()?,
                    start: *start + range.start,
                    end: *start + range.end,
                },
            }),
        }
    }

    /// Returns a copy of the items, shared with none: what these are a part of may then be freed.
    pub fn compact(&self, alloc: A) -> Result<Buffer<T, A>, AllocError>
        ensures { IfOk result (λ copy. copy.items ≡ self.now.items) }
    {
        Ok(Buffer::shared(Vec::from_slice(alloc, self.as_slice())?))
    }

    /// Returns a vector of the items: itself where this is its only owner and shows all of it, and else a copy.
    pub fn into_vec(self, alloc: A) -> Result<Vec<T, A>, AllocError>
        ensures { IfOk result (λ items. items.items ≡ self.items) }
    {
        match self.try_into_vec() {
            Ok(items) => Ok(items),
            Err(shared) => Vec::from_slice(alloc, shared.as_slice()),
        }
    }
}

impl<T, A: Allocator> Index<usize> for Buffer<T, A> {
    type Output = T;

    ghost can_index = { λ buffer i. i < length buffer.items };

    ghost index_gives = { λ buffer i x. x ≡ slice_index_or buffer.items i x };

    fn index(&self, index: usize) -> &T
        requires { index < length self.now.items }
        ensures { result.now ≡ slice_index_or self.now.items index result.now }
    {
        &self.as_slice()[index]
    }
}
