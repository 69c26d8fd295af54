#![tactic(auto)]

// What a store of bags is. `stock` says what a stock owes and `fault` why it refuses. `call` has the calls as values, `alike` plays a
// list of them on two stocks of any kinds, and `laws` has what holds of all stocks; `columns` is shared by the kinds of stock, each of
// which has a crate of its own.
pub mod alike;
pub mod call;
pub mod columns;
pub mod fault;
pub mod laws;
pub mod stock;
