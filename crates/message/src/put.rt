ghost use Rattle.std.specs.Prelude.{◌≡◌, ◌+◌, ◌≤◌, cond, [], length};
ghost use Rattle.std.specs.List.{flat_map};
ghost use Rattle.message.specs.Buffer.{Put};
ghost use Rattle.message.specs.Encode.{column_bytes, encode};

use crate::map::FieldMap;
use crate::record::Record;
use bag::row::Row;

// A lent buffer, and the place in it where the next bytes are laid.
#[derive(Drop)]
pub(crate) struct Output<'a> {
    buffer: &'a mut [u8],
    at: usize,
}

impl<'a> Output<'a> {
    pub(crate) fn new(buffer: &'a mut [u8]) -> Output<'a>
        ensures lender { result.buffer.ghost_name ≡ buffer.entry.ghost_name }
        ensures at { result.at ≡ 0 }
        ensures buffer { result.buffer.now ≡ buffer.old }
    {
        Output { buffer, at: 0 }
    }

    fn put(&mut self, bytes: &[u8])
        requires { self.old.at + length bytes.now ≤ length self.old.buffer.now }
        ensures { Put self.old.buffer self.old.at bytes.now self.new.buffer self.new.at }
    {
        let end = self.at + bytes.len();
        self.buffer[self.at..end].copy_from_slice(bytes);
        self.at = end;
    }

    // Puts the bytes of a field that stands.
    fn put_field(&mut self, stands: bool, bytes: &[u8])
        requires { self.old.at + length (cond stands bytes.now []) ≤ length self.old.buffer.now }
        ensures { Put self.old.buffer self.old.at (cond stands bytes.now []) self.new.buffer self.new.at }
    {
        if stands {
            self.put(bytes);
        }
    }

    fn put_columns(&mut self, row: &Row)
        requires { self.old.at + length (flat_map column_bytes row.now) ≤ length self.old.buffer.now }
        ensures { Put self.old.buffer self.old.at (flat_map column_bytes row.now) self.new.buffer self.new.at }
    {
        for column in row {
            self.put_field(*column != 0, &column.to_be_bytes());
        }
    }

    pub(crate) fn put_record(&mut self, record: &Record)
        requires { self.old.at + length (encode «record».now) ≤ length self.old.buffer.now }
        ensures { Put self.old.buffer self.old.at (encode «record».now) self.new.buffer self.new.at }
    {
        self.put(&FieldMap::of(record).bits.to_be_bytes());
        self.put_columns(&record.row);
        self.put_field(record.count != 1, &record.count.to_be_bytes());
        self.put_field(record.node != 0, &[record.node]);
    }
}

fn columns_length(row: &Row) -> usize
    ensures is { result ≡ length (flat_map column_bytes row.now) }
    ensures bound { result ≤ 32 }
{
    4 * row.iter().filter(|column| *column != &0).count()
}

// How many bytes a record has.
pub(crate) fn record_length(record: &Record) -> usize
    ensures is { result ≡ length (encode «record».now) }
    ensures bound { result ≤ 37 }
{
    let columns = columns_length(&record.row);
    let count = 2 * usize::from(record.count != 1);
    let node = usize::from(record.node != 0);
    2 + columns + count + node
}
