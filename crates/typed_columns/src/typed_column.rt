//! A column and its format.
ghost use Rattle.std.specs.Prelude.{◌≡◌, [], IfOk, IsOkUnless};
ghost use Rattle.typed_columns.specs.Typed.{format_of, typed_of};

use column_core::{VortexError, VortexResult};
use runend_array::{ArrayRef, ExecutionCtx};
use std::alloc::Allocator;

/// Holds a column, and what Arrow calls the type of its rows.
#[derive(Drop)]
pub struct TypedColumn<A: Allocator> {
    /// The rows, as they are stored.
    pub array: ArrayRef<A>,
    /// The format of Arrow, empty where the column has none. It is kept whatever it says.
    pub format: String<A>,
}

impl<A: Allocator + Copy> TypedColumn<A> {
    /// Returns a column without a format. Takes no memory.
    pub fn untyped(alloc: A, array: ArrayRef<A>) -> TypedColumn<A>
        ensures array { result.array ≡ array }
        ensures format { format_of result ≡ [] }
    {
        TypedColumn {
            array,
            format: String::new(alloc),
        }
    }

    /// Returns a column under a copy of this format, which takes no memory where it is empty. Refused only as
    /// `OutOfMemory`.
    pub fn with_format(alloc: A, array: ArrayRef<A>, format: &str) -> VortexResult<TypedColumn<A>>
        ensures only { IsOkUnless result VortexError.OutOfMemory }
        ensures array { IfOk result (λ made. made.array ≡ array) }
        ensures format { IfOk result (λ made. format_of made ≡ format.now) }
    {
        match String::from_str(alloc, format) {
            Ok(format) => Ok(TypedColumn { array, format }),
            Err(_) => {
                drop(array);
                Err(VortexError::OutOfMemory)
            }
        }
    }

    /// Returns a column that is equal in form, under the same format. Its buffers are shared with this one's where
    /// those are shared, and else copied. Refused only as `OutOfMemory`.
    pub fn try_clone(&self, ctx: &mut ExecutionCtx<A>) -> VortexResult<TypedColumn<A>>
        ensures only { IsOkUnless result VortexError.OutOfMemory }
        ensures form { IfOk result (λ made. typed_of made ≡ typed_of self.now) }
        ensures session { ctx.new ≡ ctx.old }
    {
        let array = self.array.try_clone(ctx)?;
        TypedColumn::with_format(*ctx.allocator(), array, self.format.as_str())
    }
}
