#![tactic(auto)]

// Plans: what boards a yard keeps, as bytes that are checked once.
// `node` and `fault` have the nodes and the causes of a refusal; `field` reads one field, `operator` one node.
// `plan` is a plan that cannot break its rules, made only by its checker; `laws` says which bytes are plans.
pub mod fault;
mod field;
pub mod laws;
pub mod node;
mod operator;
pub mod plan;
