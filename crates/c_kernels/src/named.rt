//! Folds by number, as C passes them.
ghost use Rattle.std.specs.Prelude.{◌≡◌};
ghost use Rattle.c_kernels.specs.Grouped.{fold_numbered};

use runend_pairs::GroupFold;

/// Returns the fold of a number: 0 to 6 are the sum, rows, count, least, greatest, first and last.
pub fn fold_named(number: u8) -> Option<GroupFold>
    ensures { result ≡ fold_numbered number }
{
    match number {
        0 => Some(GroupFold::Sum),
        1 => Some(GroupFold::Rows),
        2 => Some(GroupFold::Count),
        3 => Some(GroupFold::Least),
        4 => Some(GroupFold::Greatest),
        5 => Some(GroupFold::First),
        6 => Some(GroupFold::Last),
        _ => None,
    }
}
