ghost use Rattle.std.specs.Prelude.{◌≡◌, ◌+ℤ◌, FitsSigned};
ghost use Rattle.std.specs.Int.{w32};
ghost use Rattle.bag.specs.Bag.{count, Canonical};
ghost use Rattle.bag.specs.Order.{change_line_order};
ghost use Rattle.table.specs.Entries.{entry_of};
ghost use Rattle.table.specs.Tables.{items, SameRun};
ghost use Rattle.stock.specs.OneProof.{canonical_prop};
ghost use Rattle.settling.specs.Keys.{key, key_of};
ghost use Rattle.nets.specs.Nets.{signed_copies};
ghost use Rattle.nets.specs.NetTable.{changes, Addable, Added};

use bag::lines::ChangeLine;
use message::record::Record;
use table::table::Table;

// The nets of the records added so far, in a lent table: one line for each node and row whose net is not 0.
#[derive(Drop)]
pub(crate) struct NetTable<'t, 'a> {
    pub(crate) table: &'t mut Table<'a, ChangeLine>,
    pub ghost canonical: { Canonical (changes table.now) } by { canonical_prop (changes table.now) },
}

impl<'t, 'a> NetTable<'t, 'a> {
    // Adds a record to the net of its node and row. A net that comes to 0 has no line.
    pub(crate) fn add(&mut self, movement: &Record)
        ensures lender { self.new.table.ghost_name ≡ self.old.table.ghost_name }
        ensures same { SameRun self.old.table.now self.new.table.now }
        ensures added { Addable self.old.table.now movement.now → Added self.old.table.now movement.now self.new.table.now }
    {
        let line = self.line_with(movement);
        if line.change == 0 {
            self.table.remove(&line);
        } else {
            // refused only where the run has no place left for a new line
            let _ = self.table.add(line);
        }
    }

    // The line of a record's node and row with the record added to their net, where the sum is a signed 32-bit number.
    fn line_with(&self, movement: &Record) -> ChangeLine
        ensures node { result.node ≡ movement.now.node }
        ensures row { result.row ≡ movement.now.row }
        ensures change { FitsSigned w32 (signed_copies movement.now +ℤ count (changes self.now.table.now) (key movement.now.node movement.now.row)) → result.change ≡ signed_copies movement.now +ℤ count (changes self.now.table.now) (key movement.now.node movement.now.row) }
    {
        let line = ChangeLine {
            node: movement.node,
            row: movement.row,
            change: signed_copies(movement),
        };
        ChangeLine {
            change: line.change.wrapping_add(self.net(&line)),
            ..line
        }
    }

    // The net of a line's node and row, 0 where they have no line.
    fn net(&self, line: &ChangeLine) -> i32
        ensures { result ≡ count (changes self.now.table.now) (key_of line.now) }
    {
        self.line(line).map_or(0, |found| found.change)
    }

    // The line of the node and row of `key`, if there is one.
    fn line(&self, key: &ChangeLine) -> Option<ChangeLine>
        ensures { result ≡ entry_of change_line_order key.now (items self.now.table.now) }
    {
        let place = self.table.find(key)?;
        self.table.get(place)
    }
}

// The copies of a record, negative where they are taken.
fn signed_copies(movement: &Record) -> i32
    ensures { result ≡ signed_copies movement.now }
{
    let copies = movement.count as i32;
    if movement.take { -copies } else { copies }
}
