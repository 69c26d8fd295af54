ghost use Rattle.std.specs.Prelude.{◌≡◌, ◌<◌, Some, None, MatchOption};
ghost use Rattle.message.specs.Decode.{field as fieldOf, columns, fields};
ghost use Rattle.message.specs.Decode.{column_allowed as columnAllowed, columns_allowed as columnsAllowed, allowed as allowedBy};

use crate::map::{COUNT_BIT, FieldMap, NODE_BIT, TAKE_BIT};
use crate::record::Record;
use bag::row::Row;

// The bytes of a field, which are `absent` where it does not stand, and the bytes behind it; none where it is not whole.
fn field<const N: usize>(stands: bool, absent: [u8; N], bytes: &[u8]) -> Option<([u8; N], &[u8])>
    ensures { MatchOption result (fieldOf N absent.entry stands bytes.now ≡ None) (λ p. fieldOf N absent.entry stands bytes.now ≡ Some (p.0, p.1.now)) }
{
    if !stands {
        return Some((absent, bytes));
    }
    let (field, rest) = bytes.split_first_chunk::<N>()?;
    Some((*field, rest))
}

fn columns_of(map: FieldMap, bytes: &[u8]) -> Option<(Row, &[u8])>
    ensures { MatchOption result (columns 8 map.bits bytes.now ≡ None) (λ p. columns 8 map.bits bytes.now ≡ Some (p.0, p.1.now)) }
{
    let mut row = [0; 8];
    let mut rest = bytes;
    for (k, column) in row.iter_mut().enumerate() {
        let (bytes, behind) = field(map.stands(k as u32), 0i32.to_be_bytes(), rest)?;
        *column = i32::from_be_bytes(bytes);
        rest = behind;
    }
    Some((row, rest))
}

// The fields behind a map as a record, and the bytes behind them; none where a field is not whole.
pub(crate) fn fields_of(map: FieldMap, bytes: &[u8]) -> Option<(Record, &[u8])>
    ensures { MatchOption result (fields map.bits bytes.now ≡ None) (λ p. fields map.bits bytes.now ≡ Some (p.0, p.1.now)) }
{
    let (row, rest) = columns_of(map, bytes)?;
    let (count, rest) = field(map.stands(COUNT_BIT), 1u16.to_be_bytes(), rest)?;
    let count = u16::from_be_bytes(count);
    let ([node], rest) = field(map.stands(NODE_BIT), [0], rest)?;
    let take = map.stands(TAKE_BIT);
    Some((
        Record {
            row,
            count,
            node,
            take,
        },
        rest,
    ))
}

fn column_allowed(v: i32) -> bool
    ensures { result ≡ columnAllowed v }
{
    v != 0 && v != i32::MIN
}

fn columns_allowed(map: FieldMap, row: &Row) -> bool
    ensures { result ≡ columnsAllowed 8 map.bits row.now }
{
    row.iter().enumerate().all(|(k, column)| !map.stands(k as u32) || column_allowed(*column))
}

// Whether the map has only known bits and the fields that stand hold values that they may hold.
pub(crate) fn allowed(map: FieldMap, record: &Record) -> bool
    ensures { result ≡ allowedBy map.bits «record».now }
{
    map.is_known()
        && columns_allowed(map, &record.row)
        && (!map.stands(COUNT_BIT) || record.count >= 2)
        && (!map.stands(NODE_BIT) || (record.node >= 1 && record.node <= 15))
}
