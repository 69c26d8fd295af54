#![tactic(auto)]

// The change of a node, worked out from the old bags in a stock and the changes of the nodes below on a sheet: what every operator
// owes stands in specs/, in one form. `writer` writes the lines of a node one by one and looks for counts that no line can have; `fault`
// says what is told of a node that cannot be kept. The operators themselves are in the crates `delta_rows`, `delta_groups`, `delta_pairs`.
pub mod fault;
pub mod writer;
