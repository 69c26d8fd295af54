ghost use Rattle.std.specs.Prelude.{◌≡◌, Some};
ghost use Rattle.message.specs.Refusal.{read_refusal, write_refusal, read_text};

use crate::record::MAX_RECORDS;
use std::fmt;

// Why a record is not read. `at` is the byte at which the record begins.
#[derive(Clone, Copy, PartialEq, Eq, Debug)]
pub enum ReadFault {
    // The map or a field that it announces is not whole.
    Torn { at: usize },
    // The map has an unknown bit, or a field holds a value that it must not hold.
    Map { at: usize },
    // The message already had as many records as a message may hold.
    Long { at: usize },
}

// Why records are not written.
#[derive(Clone, Copy, PartialEq, Eq, Debug)]
pub enum WriteFault {
    // There are more records than a message may hold.
    Long,
    // The record at this index is the first that no message can hold.
    Map { index: usize },
    // The buffer is shorter than the message.
    Paper,
}

// Why a message is not read and written again.
#[derive(Clone, Copy, PartialEq, Eq, Debug)]
pub enum RewriteFault {
    Read { fault: ReadFault },
    Write { fault: WriteFault },
}

impl ReadFault {
    pub fn number(&self) -> u8
        ensures { result ≡ (read_refusal self.now).number }
    {
        match self {
            ReadFault::Torn { at: _ } => 1,
            ReadFault::Map { at: _ } => 2,
            ReadFault::Long { at: _ } => 3,
        }
    }

    pub fn place(&self) -> usize
        ensures { result ≡ (read_refusal self.now).place }
    {
        match self {
            ReadFault::Torn { at } | ReadFault::Map { at } | ReadFault::Long { at } => *at,
        }
    }
}

// The refusal as programs print it.
impl fmt::Display for ReadFault {
    ghost output = { λ f. Some (read_text f) };

    fn fmt<W: fmt::Write>(&self, f: &mut fmt::Formatter<W>) -> fmt::Result {
        let number = self.number();
        let place = self.place();
        write!(f, "refused {number} at {place}")
    }
}

impl WriteFault {
    pub fn number(&self) -> u8
        ensures { result ≡ (write_refusal self.now).number }
    {
        match self {
            WriteFault::Long => 3,
            WriteFault::Map { index: _ } => 2,
            WriteFault::Paper => 8,
        }
    }

    pub fn place(&self) -> usize
        ensures { result ≡ (write_refusal self.now).place }
    {
        match self {
            WriteFault::Long => MAX_RECORDS,
            WriteFault::Map { index } => *index,
            WriteFault::Paper => 0,
        }
    }
}
