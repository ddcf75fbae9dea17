//! The law of take and filter. The function does nothing: its clause is the law.
ghost use Rattle.runend_select.specs.Laws.{FilterIsTake};

/// Proves that what a mask selects is what is taken at the places of its true bits.
/// For engines: a selection may go on as a mask or as indices, whichever is smaller.
pub fn filter_is_take()
    ensures { FilterIsTake }
{}
