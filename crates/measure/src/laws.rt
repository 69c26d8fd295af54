// Statements of specs/ that hold of the measures. A theorem is held only where a contract names it, so each has a function that names it.
ghost use Rattle.bag.specs.Laws.{TotalFollowsChangeFromItsRows};
ghost use Rattle.measure.specs.Laws.{ShowsTheFirstThenTheSecond, ShowsAsFarAsThereIsRoom};
ghost use Rattle.measure.specs.WorkedInFull.{WorkedValuesInFull};
ghost use Rattle.measure.specs.WorkedValues.{WorkedValues};

use crate::aggregate::Aggregated;
use crate::measure::Measure;
use bag::laws::total_follows_change_from_its_rows;

// The values worked out by hand.
pub fn worked_values()
    ensures { WorkedValues }
{}

// More of them, each with all the columns that its measure shows.
pub fn worked_values_in_full()
    ensures { WorkedValuesInFull }
{}

// The columns of a pair that fits are the first's and then the second's.
pub fn shows_the_first_then_the_second<A: Measure, B: Measure>()
    ensures { ShowsTheFirstThenTheSecond A.Measure.ok B.Measure.ok A.Measure.model B.Measure.model }
{}

// The same also where the second's columns have no room any more, as long as the first leaves some.
pub fn shows_as_far_as_there_is_room<A: Measure, B: Measure>()
    ensures { ShowsAsFarAsThereIsRoom A.Measure.ok B.Measure.ok A.Measure.model B.Measure.model }
{}

// The change of a total over any measure follows from its own old rows and the change below: what a row shows is read back.
pub fn total_follows_change<M: Measure>()
    ensures { TotalFollowsChangeFromItsRows M.Measure.model }
{
    total_follows_change_from_its_rows::<Aggregated<M>>();
}
