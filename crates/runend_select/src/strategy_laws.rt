//! The law of strategies, and the counts of their tests as numbers.
ghost use Rattle.runend_select.specs.StrategyLaws.{StrategiesAgree};

mod counts;

pub use counts::{
    merge_of_six_indices, physical_indices_by_halves, physical_indices_by_table,
    search_of_four_indices, search_of_six_indices, sort_of_four_indices,
};

/// Proves that each strategy returns, for each index that is not null, the number of ends at or
/// below the row's position, and that it is the run of the row. So the four agree there. This
/// function does nothing: its clause is the law. For dictionary cascades.
pub fn strategies_agree()
    ensures { StrategiesAgree }
{}
