use plan::plan::Plan;

// How many nodes a plan has, or the node and the cause of its refusal.
pub(crate) fn check(bytes: &[u8], shown: u8) -> Result<usize, (u8, u8)> {
    Plan::check(bytes, shown)
        .map(|plan| plan.len())
        .map_err(|fault| fault.place())
}
