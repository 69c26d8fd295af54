ghost use Rattle.std.specs.Prelude.{◌≡◌, ◌≤◌, length};
ghost use Rattle.message.specs.Refusal.{read_told};
ghost use Rattle.message.specs.Reading.{step};

use crate::fault::ReadFault;
use crate::field::{allowed, fields_of};
use crate::map::FieldMap;
use crate::record::{MAX_RECORDS, Record};

// A cursor over a lent message. `at` is the byte at which the next record begins, `seen` how many records were read.
#[derive(Drop)]
pub struct Reader<'a> {
    bytes: &'a [u8],
    at: usize,
    seen: usize,
    ghost inside: { at ≤ length bytes.now },
}

impl<'a> Reader<'a> {
    pub fn new(bytes: &'a [u8]) -> Reader<'a>
        ensures at { result.at ≡ 0 }
        ensures seen { result.seen ≡ 0 }
        ensures bytes { result.bytes.now ≡ bytes.now }
    {
        Reader {
            bytes,
            at: 0,
            seen: 0,
        }
    }

    // The byte at which the next record begins.
    pub fn place(&self) -> usize
        ensures { result ≡ self.now.at }
    {
        self.at
    }

    // The next record, or none at the end. A refusal leaves the cursor where it was.
    // This is no `Iterator`, since such a one would give the same refusal without end.
    pub fn next(&mut self) -> Result<Option<Record>, ReadFault>
        ensures same { self.new.bytes.now ≡ self.old.bytes.now }
        ensures step { (read_told result, self.new.at, self.new.seen) ≡ step self.old.bytes.now self.old.at self.old.seen }
    {
        let at = self.at;
        if at >= self.bytes.len() {
            return Ok(None);
        }
        if self.seen >= MAX_RECORDS {
            return Err(ReadFault::Long { at });
        }
        let [high, low, rest @ ..] = &self.bytes[at..] else {
            return Err(ReadFault::Torn { at });
        };
        let map = FieldMap {
            bits: u16::from_be_bytes([*high, *low]),
        };
        let Some((record, rest)) = fields_of(map, rest) else {
            return Err(ReadFault::Torn { at });
        };
        if !allowed(map, &record) {
            return Err(ReadFault::Map { at });
        }
        self.at = self.bytes.len() - rest.len();
        self.seen += 1;
        Ok(Some(record))
    }
}
