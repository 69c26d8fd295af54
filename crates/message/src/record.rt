ghost use Rattle.std.specs.Prelude.{◌≡◌, Some};
ghost use Rattle.message.specs.Text.{way as wayOf, record_text};

use bag::row::Row;
use std::fmt;

// A message holds at most this many records.
pub const MAX_RECORDS: usize = 1024;

// One movement: `count` copies of a row are put on, or taken from, the table that is the plan's node `node`.
// The default is no lawful record: it fills the places of a list that hold none.
#[derive(Clone, Copy, PartialEq, Eq, Default, Debug)]
pub struct Record {
    pub row: Row,
    pub count: u16,
    pub node: u8,
    // A truth of its own, since no other field is there for one of the two only.
    pub take: bool,
}

fn way(take: bool) -> &'static str
    ensures { result.now ≡ wayOf take }
{
    if take { "take" } else { "put" }
}

// The record as programs print it.
impl fmt::Display for Record {
    ghost output = { λ r. Some (record_text r) };

    fn fmt<W: fmt::Write>(&self, f: &mut fmt::Formatter<W>) -> fmt::Result {
        write!(f, "node {} {} {} of", self.node, way(self.take), self.count)?;
        for column in &self.row {
            write!(f, " {column}")?;
        }
        Ok(())
    }
}
