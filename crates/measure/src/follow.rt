ghost use Rattle.std.specs.Prelude.{◌≡◌};
ghost use Rattle.bag.specs.Bag.{Lines};
ghost use Rattle.bag.specs.Changes.{Moves};
ghost use Rattle.bag.specs.Operators.{column_worth};
ghost use Rattle.measure.specs.Follow.{lines_of, column_value, ValueFollowsChange};

use crate::columns::column_of;
use crate::measure::Measure;
use bag::lines::ChangeLine;

// What a line's copies of a column are worth, taken ones counted negative.
pub fn line_worth<M: Measure>(measure: &M, line: &ChangeLine, column: usize) -> M::Value
    ensures { result ≡ column_worth M.Measure.model column line.now.row line.now.change }
{
    measure.worth(column_of(&line.row, column), i64::from(line.change))
}

// The value of a column over all copies of the lines. From the last line to the first, as the definition adds, so that no law of the
// group is needed here.
pub fn value_over<M: Measure>(measure: &M, lines: &[ChangeLine], column: usize) -> M::Value
    ensures { result ≡ column_value M.Measure.model column (lines_of lines.now) }
{
    lines.iter().rev().fold(measure.zero(), |value, line| {
        measure.plus(line_worth(measure, line, column), value)
    })
}

// The value over the new bag, from the value over the old one and the change alone: a total needs no bag below it.
pub fn value_after<M: Measure>(
    measure: &M,
    old: M::Value,
    changes: &[ChangeLine],
    column: usize,
) -> M::Value
    ensures answer { result ≡ M.Measure.model.group.plus old (column_value M.Measure.model column (lines_of changes.now)) }
    ensures follows { (before after : Lines) → Moves before (lines_of changes.now) after → old ≡ column_value M.Measure.model column before → result ≡ column_value M.Measure.model column after }
    ensures law { ValueFollowsChange M.Measure.model column }
{
    measure.plus(old, value_over(measure, changes, column))
}
