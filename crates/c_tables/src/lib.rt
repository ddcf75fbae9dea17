//! Tables as C holds, makes, asks and reads them, for the calls of tables of the library for C. A function here has the
//! exact result and the refusals; a call takes tables and columns out of their handles, and writes number and fields.
#![tactic(auto)]

pub mod answers;
mod boxed;
pub mod columns;
pub mod groups;
mod indices;
pub mod names;
mod raw_box;
pub mod rows;
pub mod sorts;
pub mod table_handle;
