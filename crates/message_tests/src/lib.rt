#![tactic(auto)]

// Examples of reading and writing messages, at the edge of each refusal.

#[cfg(test)]
mod reading;
#[cfg(test)]
mod writing;
