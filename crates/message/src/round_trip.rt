ghost use Rattle.std.specs.Prelude.{◌≡◌};
ghost use Rattle.message.specs.Refusal.{rewrite_told};
ghost use Rattle.message.specs.Listed.{listed};
ghost use Rattle.message.specs.RoundTrip.{rewritten, reread as rereadBy};
ghost use Rattle.message.specs.declared.fault.RewriteFault.TheVariants as faults;

use crate::fault::{ReadFault, RewriteFault, WriteFault};
use crate::record::Record;
use crate::record_list::RecordList;
use crate::writer::write;

// The two are written by hand, since a derived `From` promises nothing of which fault `?` makes.
impl From<ReadFault> for RewriteFault {
    ghost from_gives = { λ f r. r ≡ faults.Read f };

    fn from(fault: ReadFault) -> RewriteFault {
        RewriteFault::Read { fault }
    }
}

impl From<WriteFault> for RewriteFault {
    ghost from_gives = { λ f r. r ≡ faults.Write f };

    fn from(fault: WriteFault) -> RewriteFault {
        RewriteFault::Write { fault }
    }
}

// Reads a message and writes its records into the buffer: the same bytes again.
pub fn rewrite(message: &[u8], buffer: &mut [u8]) -> Result<usize, RewriteFault>
    ensures { (rewrite_told result, buffer.new) ≡ rewritten message.now buffer.old }
{
    let list = RecordList::read(message)?;
    let length = write(list.records(), buffer)?;
    Ok(length)
}

// Writes records into the buffer and reads the message there: the same records again.
pub fn reread(records: &[Record], buffer: &mut [u8]) -> Result<RecordList, RewriteFault>
    ensures { (listed (rewrite_told result), buffer.new) ≡ rereadBy records.now buffer.old }
{
    let length = write(records, buffer)?;
    let list = RecordList::read(&buffer[0..length])?;
    Ok(list)
}
