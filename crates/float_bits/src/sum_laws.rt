//! Laws of all tallies. The function here does nothing: its clause is the law.
ghost use Rattle.float_bits.specs.SumLaws.{TalliesAddUp};

/// Proves that tallies add up: by runs, by rows, in any order, and by chunks.
pub fn tallies_add_up()
    ensures { TalliesAddUp }
{}
