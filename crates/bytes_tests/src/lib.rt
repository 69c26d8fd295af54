#![tactic(auto)]

// Tests of the stock in bytes: what its calls answer, and what stands in the memory that it was lent. `lender` shows that a lender
// learns from the contract alone what its memory holds.
#[cfg(test)]
mod answers;
pub mod lender;
#[cfg(test)]
mod memory;
