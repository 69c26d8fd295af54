ghost use Rattle.std.specs.Prelude.{◌≡◌, ◌≤◌, length};
ghost use Rattle.message.specs.Limits.{max_records};
ghost use Rattle.message.specs.Refusal.{read_told};
ghost use Rattle.message.specs.Reading.{reading, records_of};
ghost use Rattle.message.specs.Listed.{items, listed};

use crate::fault::ReadFault;
use crate::reader::Reader;
use crate::record::{MAX_RECORDS, Record};
use arrayvec::ArrayVec;

// The records of one message, in a fixed array that holds as many as a message may have.
#[derive(Drop)]
pub struct RecordList {
    records: ArrayVec<Record, MAX_RECORDS>,
}

impl RecordList {
    // Reads a whole message; a refusal is that of the first record that is refused.
    pub fn read(message: &[u8]) -> Result<RecordList, ReadFault>
        ensures { listed (read_told result) ≡ records_of (reading message.now) }
    {
        let mut records = ArrayVec::new();
        let mut reader = Reader::new(message);
        while let Some(record) = reader.next()? {
            records.push(record);
        }
        Ok(RecordList { records })
    }

    pub fn records(&self) -> &[Record]
        ensures answer { result.now ≡ items self.now }
        ensures few { length result.now ≤ max_records }
    {
        &self.records
    }
}
