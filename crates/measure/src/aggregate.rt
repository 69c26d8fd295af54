use crate::measure::Measure;
use bag::laws::Aggregate;

// A measure as the crate of bags sees it, so that what is proved of totals there holds of every measure.
pub struct Aggregated<M> {
    pub measure: M,
}

impl<M: Measure> Aggregate for Aggregated<M> {
    type Value = M::Value;

    ghost ok = { M.Measure.ok };

    ghost measure = { M.Measure.model };

    ghost lawful = { M.Measure.lawful };
}
