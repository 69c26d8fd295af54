#![tactic(auto)]

// Tests of stocks: of the ordered stock call by call, of what it leaves in the run that it was lent, of lists of calls, and of the
// pending book over an ordered stock and over a byte stock. `below` shows that a book's holder learns from the contract alone what
// becomes of the stock below.
pub mod below;
#[cfg(test)]
mod lent_run;
#[cfg(test)]
mod lists_of_calls;
#[cfg(test)]
mod ordered;
#[cfg(test)]
mod pending;
