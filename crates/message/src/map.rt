ghost use Rattle.std.specs.Prelude.{◌≡◌, ◌<◌, not, map as map_list, nat_lt};
ghost use Rattle.bag.specs.Bag.{is_zero};
ghost use Rattle.message.specs.Decode.{bit as bitOf};
ghost use Rattle.message.specs.Encode.{bits_value, map_of};

use crate::record::Record;
use bag::row::Row;

// Bits 0 to 7 announce the columns.
pub(crate) const COUNT_BIT: u32 = 8;

pub(crate) const NODE_BIT: u32 = 9;
// Without a field: the record takes.
pub(crate) const TAKE_BIT: u32 = 10;

// Every map is below this number, since no higher bit may stand.
const MAP_LIMIT: u16 = 2048;

// A record's map: a bit for each field that stands.
#[derive(Clone, Copy)]
pub(crate) struct FieldMap {
    pub(crate) bits: u16,
}

impl FieldMap {
    // The map that a record is written with.
    pub(crate) fn of(record: &Record) -> FieldMap
        ensures { result.bits ≡ map_of «record».now }
    {
        let columns = column_bits(&record.row);
        let count = u16::from(record.count != 1) << COUNT_BIT;
        let node = u16::from(record.node != 0) << NODE_BIT;
        let take = u16::from(record.take) << TAKE_BIT;
        FieldMap {
            bits: columns + count + node + take,
        }
    }

    pub(crate) fn stands(self, bit: u32) -> bool
        requires { bit < 16 }
        ensures { result ≡ bitOf self.bits bit }
    {
        (self.bits >> bit) % 2 == 1
    }

    // Whether no unknown bit stands.
    pub(crate) fn is_known(self) -> bool
        ensures { result ≡ nat_lt self.bits 2048 }
    {
        self.bits < MAP_LIMIT
    }
}

// The bits of the columns that are not 0.
fn column_bits(row: &Row) -> u16
    ensures is { result ≡ bits_value (map_list (λ v. not (is_zero v)) row.now) }
    ensures bound { result < 256 }
{
    let mut bits = 0;
    for (k, column) in row.iter().enumerate() {
        bits += u16::from(*column != 0) << k;
    }
    bits
}
