//! What is drawn is one thing.

ghost use Rattle.demand_table.specs.Laws.{DrawnOnce};

/// Two tables of the same checked arguments and runs have nodes for the same pairs, with the same runs, totals and callers.
pub fn drawn_once()
    ensures { DrawnOnce }
{}
