#![tactic(auto)]

// Tests of the measures by running them: `values` has the worked values, `nested` measures side by side in one another and past
// eight columns, `changes` the value of a column kept from changes.
// `negatives` is a measure written outside crate `measure`: it owes the same laws, and is put side by side and kept like the others.
#[cfg(test)]
mod changes;
pub mod negatives;
#[cfg(test)]
mod nested;
#[cfg(test)]
mod values;
