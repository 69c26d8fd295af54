ghost use Rattle.std.specs.Prelude.{◌≡◌, ◌≤◌, length};
ghost use Rattle.std.specs.List.{AllByRecursion};
ghost use Rattle.std.proofs.Props.{props};
ghost use Rattle.stock.specs.Holding.{LawfulLine};
ghost use Rattle.byte_stock.specs.ByteLines.{capacity_in, stored_in, padded};
ghost use Rattle.byte_stock.specs.ByteStored.{Apart};

use crate::byte_line::{LINE_LEN, free_line, line_bytes, read_line, write_line};
use crate::byte_search::{find, find_next};
use bag::lines::StockLine;
use bag::row::Row;
use stock::columns::read_columns;
use stock::fault::StockFault;
use stock::stock::Stock;

// A stock has sixteen shelves.
const LAST_SHELF: u8 = 15;

// A stock has room for so many lines at most, so that their number is a `u16`.
const MOST_LINES: usize = 4096;

// A stock in lent bytes: lines of 35 bytes, one behind the other, and 00 behind the last. A new line goes behind the last one, and
// where a line is freed the last one takes its place. Of longer memory only as many bytes are used as a stock can have lines.
#[derive(Drop)]
pub struct ByteStock<'a> {
    bytes: &'a mut [u8],
    // how many lines stand in the bytes: lent memory does not grow with them
    len: usize,
    // no more lines than there is room for
    pub ghost room: { len ≤ capacity_in (length bytes.now) },
    // each is a line that a stock may have, and no two are of the same row on the same shelf
    pub ghost lawful: { AllByRecursion LawfulLine (stored_in len bytes.now) } by { Prim.hlevel props },
    pub ghost apart: { Apart (stored_in len bytes.now) } by { Prim.hlevel props },
    // behind the last line stands 00 only
    pub ghost whole: { bytes.now ≡ padded (length bytes.now) (stored_in len bytes.now) },
}

impl<'a> ByteStock<'a> {
    ghost use Rattle.std.specs.Prelude.{◌<◌, [], None, replicate, map};
    ghost use Rattle.bag.specs.Columns.{IsRow};
    ghost use Rattle.stock.specs.Holding.{empty_holding};
    ghost use Rattle.byte_stock.specs.ByteLines.{line_in};
    ghost use Rattle.byte_stock.specs.ByteStored.{place_of};
    ghost use Rattle.byte_stock.specs.ByteStocks.{stored, held, lent_bytes, SameMemory, PutLeaves, TakeLeaves, PutLeavesAt, TakeLeavesAt};

    // An empty stock over `bytes`, whatever they held.
    pub fn new(bytes: &'a mut [u8]) -> ByteStock<'a>
        ensures lender { lent_bytes result ≡ bytes.entry.ghost_name }
        ensures blank { result.bytes.now ≡ replicate (length bytes.old) 0 }
        ensures none { stored result ≡ [] }
        ensures empty { held result ≡ empty_holding (capacity_in (length bytes.old)) }
    {
        bytes.fill(0);
        ByteStock { bytes, len: 0 }
    }

    // Adds n copies of a row to a shelf.
    pub fn put(&mut self, shelf: u8, row: &Row, n: u16) -> Result<(), StockFault>
        ensures memory { SameMemory self.old self.new }
        ensures left { PutLeaves self.old shelf row.now n result self.new }
    {
        if shelf > LAST_SHELF {
            return Err(StockFault::Node { shelf });
        }
        read_columns(row);
        match find(self.stored(), shelf, row) {
            Some(place) => self.add_to(place, n),
            None => self.add_line(shelf, row, n),
        }
    }

    // Removes n copies of a row from a shelf.
    pub fn take(&mut self, shelf: u8, row: &Row, n: u16) -> Result<(), StockFault>
        ensures memory { SameMemory self.old self.new }
        ensures left { TakeLeaves self.old shelf row.now n result self.new }
    {
        if shelf > LAST_SHELF {
            return Err(StockFault::Node { shelf });
        }
        match find(self.stored(), shelf, row) {
            Some(place) => self.take_from(place, n),
            None if n > 0 => Err(StockFault::Short { shelf }),
            None => Ok(()),
        }
    }

    // How many lines there is room for.
    fn room(&self) -> usize
        ensures { result ≡ capacity_in (length self.now.bytes.now) }
    {
        (self.bytes.len() / LINE_LEN).min(MOST_LINES)
    }

    // The lines, each as its bytes.
    fn stored(&self) -> &[[u8; LINE_LEN]]
        ensures lines { map line_in result.now ≡ stored self.now }
        ensures count { length result.now ≡ self.now.len }
    {
        let (lines, _) = self.bytes.as_chunks::<LINE_LEN>();
        &lines[..self.len]
    }

    // Adds n copies to the line at `place`.
    fn add_to(&mut self, place: usize, n: u16) -> Result<(), StockFault>
        requires { place < self.old.len }
        ensures memory { SameMemory self.old self.new }
        ensures left { PutLeavesAt self.old place n result self.new }
    {
        let mut line = read_line(&self.stored()[place]);
        line.count = line
            .count
            .checked_add(n)
            .ok_or(StockFault::Over { shelf: line.shelf })?;
        write_line(self.bytes, place, &line_bytes(&line));
        Ok(())
    }

    // Puts a line of n copies behind the last one.
    fn add_line(&mut self, shelf: u8, row: &Row, n: u16) -> Result<(), StockFault>
        requires shelf { shelf ≤ 15 }
        requires row { IsRow row.now }
        requires absent { place_of shelf row.now (stored self.old) ≡ None }
        ensures memory { SameMemory self.old self.new }
        ensures left { PutLeaves self.old shelf row.now n result self.new }
    {
        if n == 0 {
            return Ok(());
        }
        let room = self.room();
        if self.len >= room {
            return Err(StockFault::Room {
                capacity: room as u16,
            });
        }
        let line = StockLine {
            shelf,
            row: *row,
            count: n,
        };
        write_line(self.bytes, self.len, &line_bytes(&line));
        self.len += 1;
        Ok(())
    }

    // Removes n copies from the line at `place`.
    fn take_from(&mut self, place: usize, n: u16) -> Result<(), StockFault>
        requires { place < self.old.len }
        ensures memory { SameMemory self.old self.new }
        ensures left { TakeLeavesAt self.old place n result self.new }
    {
        let mut line = read_line(&self.stored()[place]);
        line.count = line
            .count
            .checked_sub(n)
            .ok_or(StockFault::Short { shelf: line.shelf })?;
        if line.count == 0 {
            free_line(self.bytes, place, self.len);
            self.len -= 1;
        } else {
            write_line(self.bytes, place, &line_bytes(&line));
        }
        Ok(())
    }
}

impl<'a> Stock for ByteStock<'a> {
    ghost use Rattle.byte_stock.specs.ByteStocks.{held, lawful_held, lent_bytes};

    ghost meaning = { held };

    ghost lawful = { lawful_held };

    ghost memory = { lent_bytes };

    fn capacity(&self) -> u16 {
        self.room() as u16
    }

    fn lines(&self) -> u16 {
        self.len as u16
    }

    fn count(&self, shelf: u8, row: &Row) -> u16 {
        let lines = self.stored();
        find(lines, shelf, row).map_or(0, |place| read_line(&lines[place]).count)
    }

    fn next(&self, shelf: u8, row: &Row) -> Option<(Row, u16)> {
        let line = find_next(self.stored(), shelf, row)?;
        let after = line.row;
        Some((after, line.count))
    }

    fn put(&mut self, shelf: u8, row: &Row, n: u16) -> Result<(), StockFault> {
        self.put(shelf, row, n)
    }

    fn take(&mut self, shelf: u8, row: &Row, n: u16) -> Result<(), StockFault> {
        self.take(shelf, row, n)
    }
}
