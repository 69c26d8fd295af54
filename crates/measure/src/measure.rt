ghost use Rattle.std.specs.Prelude.{◌≡◌, ◌≤◌};
ghost use Rattle.bag.specs.Measure.{Measure as Model, MeasureLaws};
ghost use Rattle.measure.specs.Shown.{shown, read_from};

use bag::row::Row;

// What a total shows of a column's numbers over all copies: an aggregate whose values form an abelian group, so that it can be kept
// from changes.
pub trait Measure {
    type Value: Copy;

    // The values that code can hold: the laws are asked of these.
    ghost ok: { Self.Value → Type 0 };

    // What the functions below compute.
    ghost model: { Model Self.Value };

    // The value of nothing.
    fn zero(&self) -> Self::Value
        ensures { result ≡ model.group.zero };

    // Two values together.
    fn plus(&self, a: Self::Value, b: Self::Value) -> Self::Value
        ensures { result ≡ model.group.plus a b };

    // The inverse: what takes the value away again.
    fn minus(&self, a: Self::Value) -> Self::Value
        ensures { result ≡ model.group.minus a };

    // The value of so many copies of a number; a negative number of copies takes them away.
    fn worth(&self, number: i32, copies: i64) -> Self::Value
        ensures { result ≡ model.worth number copies };

    // How many columns it shows, K.
    fn column_count(&self) -> usize
        ensures answer { result ≡ model.shows }
        ensures bound { result ≤ 8 };

    // The value's columns in front and 0 behind them, or none if it does not fit.
    fn show(&self, value: Self::Value) -> Option<Row>
        ensures { result ≡ shown model value };

    // The value that the first K columns show.
    fn read_back(&self, columns: &Row) -> Self::Value
        ensures { result ≡ read_from model columns.now };

    // What an implementation owes.
    ghost lawful: { MeasureLaws ok model };
}

// A measure whose laws are asked of every value that its type holds: so any value at hand, read back from a row or summed, is `ok`.
pub trait LawfulThroughout: Measure {
    // The value as it is.
    fn held(&self, value: Self::Value) -> Self::Value
        ensures same { result ≡ value }
        ensures held { Self.ok value };
}
