#![tactic(auto)]

// A stock that lays up to 64 changes over any other stock, and passes them on to it when a further one wants a place. The list of
// changes is a crate of its own.
pub mod pending;
