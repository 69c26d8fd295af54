#![tactic(auto)]

// Tests of the ordered table: at both kinds of line, and what it leaves in the run that it was lent.
#[cfg(test)]
mod change_lines;
#[cfg(test)]
mod lent_run;
#[cfg(test)]
mod stock_lines;
