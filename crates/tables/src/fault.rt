//! Why names and columns make no table, or a table is not worked on.
ghost use Rattle.std.specs.Prelude.{◌≡◌};
ghost use Rattle.tables.specs.declared.fault.TableError.TheVariants.{Refused};

use column_core::VortexError;
use thiserror::Error;

/// Says why names and columns make no table, or why a table is not worked on. Columns and names are counted from 0.
#[derive(Clone, Copy, Debug, Drop, PartialEq, Eq, Error)]
pub enum TableError {
    /// Says why a column is refused, or that a growth of memory was.
    #[error("refused")]
    Refused(VortexError),
    /// Has how many names and columns there are, where the numbers differ.
    #[error("NameCount")]
    NameCount {
        names: usize,
        columns: usize,
    },
    /// Has the first column that has another number of rows than the table, and both numbers.
    #[error("RowCount")]
    RowCount {
        column: usize,
        rows: usize,
        wanted: usize,
    },
    /// Has the first name that an earlier one is equal to, after that one.
    #[error("RepeatedName")]
    RepeatedName {
        earlier: usize,
        name: usize,
    },
    /// Has the first of the given names that no column has.
    #[error("UnknownName")]
    UnknownName {
        name: usize,
    },
    /// Says that there is no column by which rows are to be put in order.
    #[error("NoKeys")]
    NoKeys,
    /// Has the first of the keys whose column has lists, which are in no order.
    #[error("UnsupportedKey")]
    UnsupportedKey {
        key: usize,
    },
    /// Has the first answer whose name a key or an earlier answer has, after the place of that. Answers come after the
    /// keys.
    #[error("RepeatedAnswer")]
    RepeatedAnswer {
        earlier: usize,
        answer: usize,
    },
    /// Has the first answer that is asked of a column that is not there.
    #[error("UnknownColumn")]
    UnknownColumn {
        answer: usize,
    },
    /// Has the first answer that is asked of a column whose rows have none.
    #[error("UnsupportedAnswer")]
    UnsupportedAnswer {
        answer: usize,
    },
    /// Has the first answer with a sum that does not fit, in 64 bits or in 38 digits, and the first group of which that
    /// is so.
    #[error("SumOverflow")]
    SumOverflow {
        answer: usize,
        group: usize,
    },
    /// Has how many names and new names there are, where the numbers differ.
    #[error("NewNameCount")]
    NewNameCount {
        names: usize,
        new_names: usize,
    },
    /// Says that the names of the other table are not those of the table, in the same order.
    #[error("OtherNames")]
    OtherNames,
    /// Has the first column whose type or format the other table's column of its place does not have.
    #[error("OtherType")]
    OtherType {
        column: usize,
    },
    /// Has the first column whose new name an earlier column has, after that one.
    #[error("RepeatedNewName")]
    RepeatedNewName {
        earlier: usize,
        column: usize,
    },
}

impl From<VortexError> for TableError {
    ghost from_gives = { λ error given. given ≡ Refused error };

    fn from(error: VortexError) -> TableError {
        TableError::Refused(error)
    }
}
