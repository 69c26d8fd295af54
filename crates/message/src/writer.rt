ghost use Rattle.std.specs.Prelude.{◌≡◌, ◌≤◌, true, length, IfNone, FitsSigned, OnOk};
ghost use Rattle.std.specs.Int.{w32};
ghost use Rattle.std.specs.List.{AllByRecursion};
ghost use Rattle.message.specs.Refusal.{write_told};
ghost use Rattle.message.specs.Lawful.{column_lawful as columnLawful, columns_lawful as columnsLawful, lawful as lawfulRecord, first_unlawful as firstUnlawful, InRange};
ghost use Rattle.message.specs.Buffer.{laid};
ghost use Rattle.message.specs.Encode.{encode_all};
ghost use Rattle.message.specs.Writing.{written};

use crate::fault::WriteFault;
use crate::put::{Output, record_length};
use crate::record::{MAX_RECORDS, Record};
use bag::row::Row;

// It also tells the range of the column, which a comparison within `all` does not.
fn column_lawful(v: i32) -> bool
    ensures is { result ≡ columnLawful v }
    ensures range { result ≡ true → FitsSigned w32 v }
{
    v != i32::MIN
}

fn columns_lawful(row: &Row) -> bool
    ensures is { result ≡ columnsLawful row.now }
    ensures range { result ≡ true → AllByRecursion (FitsSigned w32) row.now }
{
    row.iter().all(|column| column_lawful(*column))
}

fn lawful(record: &Record) -> bool
    ensures is { result ≡ lawfulRecord «record».now }
    ensures range { result ≡ true → InRange «record».now }
{
    record.count >= 1 && record.node <= 15 && columns_lawful(&record.row)
}

fn first_unlawful(records: &[Record]) -> Option<usize>
    ensures is { result ≡ firstUnlawful records.now }
    ensures range { IfNone result (AllByRecursion InRange records.now) }
{
    records.iter().position(|record| !lawful(record))
}

// How many bytes the records have.
fn message_length(records: &[Record]) -> usize
    requires { length records.now ≤ 1024 }
    ensures { result ≡ length (encode_all records.now) }
{
    records.iter().map(record_length).sum()
}

fn put_records(buffer: &mut [u8], records: &[Record])
    requires { length (encode_all records.now) ≤ length buffer.old }
    ensures { buffer.new ≡ laid buffer.old 0 (encode_all records.now) }
{
    let mut output = Output::new(buffer);
    for record in records {
        output.put_record(record);
    }
}

// Writes the records into the front of the buffer and answers the message's length.
// Bytes behind the message stay, and a refusal leaves the whole buffer as it was.
pub fn write(records: &[Record], buffer: &mut [u8]) -> Result<usize, WriteFault>
    ensures answer { (write_told result, buffer.new) ≡ written records.now buffer.old }
    ensures range { OnOk result (AllByRecursion InRange records.now) }
{
    if records.len() > MAX_RECORDS {
        return Err(WriteFault::Long);
    }
    if let Some(index) = first_unlawful(records) {
        return Err(WriteFault::Map { index });
    }
    let length = message_length(records);
    if buffer.len() < length {
        return Err(WriteFault::Paper);
    }
    put_records(buffer, records);
    Ok(length)
}
