ghost use Rattle.std.specs.Prelude.{◌≡◌, ◌<◌};
ghost use Rattle.measure.specs.RoundTrip.{shown_again, if_it_fits, RoundTrip};

use crate::measure::LawfulThroughout;

// A value shown in a row and read back from it: the same value, or none if it does not fit.
pub fn read_again<M: LawfulThroughout>(measure: &M, value: M::Value) -> Option<M::Value>
    ensures answer { result ≡ shown_again M.Measure.model value }
    ensures same { M.Measure.model.shows < 8 → result ≡ if_it_fits M.Measure.model value }
    ensures law { M.Measure.model.shows < 8 → RoundTrip M.Measure.ok M.Measure.model }
{
    let row = measure.show(measure.held(value))?;
    Some(measure.read_back(&row))
}
