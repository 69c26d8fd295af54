#![tactic(auto)]

// A stock that keeps its lines in an ordered table over a lent run. `ordered` has the stock; the table is a crate of its own.
pub mod ordered;
