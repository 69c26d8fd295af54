#![tactic(auto)]

// From a message to one net for each base and row, and whether a net takes more than there is.
// `fault` has the refusals; `base` tests a record against the plan, `adding` adds one to the nets, `gather` gathers a whole message.
// `short` finds the lowest base that comes short; `laws` carries what the nets say of the records.
mod adding;
mod base;
pub mod fault;
pub mod gather;
pub mod laws;
pub mod short;
