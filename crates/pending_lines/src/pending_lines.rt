ghost use Rattle.std.specs.Prelude.{◌≡◌, ◌<◌, ◌≤◌, not, [], length, take, pos, ◌+ℤ◌, Err, FitsSigned, slice_index_or};
ghost use Rattle.std.specs.Int.{w32};
ghost use Rattle.std.specs.List.{slice_get};
ghost use Rattle.std.specs.List.Sorted.{IsSearchInRange};
ghost use Rattle.bag.specs.Bag.{count, Canonical};
ghost use Rattle.settling.specs.Keys.{key, key_of, changes};
ghost use Rattle.stock.specs.OneProof.{canonical_prop};
ghost use Rattle.pending_lines.specs.ChangeLists.{no_line, found_at, has_place, add_answer, after_add, changed_at, IsCount, IsNext};

use bag::lines::ChangeLine;
use bag::row::Row;
use table::full::Full;

// How many lines there is place for.
const PLACES: usize = 64;

// Changes that a pending book has not yet passed on: up to 64 lines by ascending shelf and row, in the first `len` places. No line has
// the change 0. An array with a length, since an `ArrayVec` cannot be copied and these lines can.
#[derive(Clone, Copy)]
pub struct PendingLines {
    lines: [ChangeLine; PLACES],
    len: usize,
    pub ghost few: { len ≤ 64 },
    pub ghost in_order: { Canonical (changes (take len lines)) } by { canonical_prop (changes (take len lines)) },
}

impl PendingLines {
    ghost use Rattle.pending_lines.specs.PendingLines.{held, changes_of, count_at};

    // No line.
    pub fn new() -> PendingLines
        ensures empty { held result ≡ [] }
    {
        PendingLines {
            lines: [ChangeLine::blank(); PLACES],
            len: 0,
        }
    }

    // The lines, by ascending keys.
    pub fn entries(&self) -> &[ChangeLine]
        ensures answer { result.now ≡ held self.now }
        ensures within { length result.now ≤ 64 }
    {
        &self.lines[..self.len]
    }

    // How many lines there are.
    pub fn len(&self) -> usize
        ensures answer { result ≡ length (held self.now) }
        ensures within { result ≤ 64 }
    {
        self.entries().len()
    }

    // The line at a place.
    pub fn get(&self, place: usize) -> Option<ChangeLine>
        ensures answer { result ≡ slice_get (held self.now) place }
    {
        self.entries().get(place).copied()
    }

    // Where the line of a row on a shelf stands, or else where it would go in. What is asked of a key and what changes at it rest on
    // this one search.
    fn find(&self, shelf: u8, row: &Row) -> Result<usize, usize>
        ensures within { IsSearchInRange result (length (held self.now)) }
        ensures answer { result ≡ found_at (changes_of self.now) (key shelf row.now) }
    {
        self.entries()
            .binary_search_by(|line| (line.node, &line.row).cmp(&(shelf, row)))
    }

    // The change of a row on a shelf, 0 where no line has it.
    pub fn change(&self, shelf: u8, row: &Row) -> i32
        ensures answer { result ≡ count_at self.now shelf row.now }
    {
        self.find(shelf, row)
            .map_or(0, |place| self.lines[place].change)
    }

    // A count with the change of its row added, as far as a count goes.
    pub fn added_to(&self, shelf: u8, row: &Row, below: u16) -> u16
        ensures answer { IsCount (pos below +ℤ count_at self.now shelf row.now) → pos result ≡ pos below +ℤ count_at self.now shelf row.now }
    {
        let change = self.change(shelf, row);
        let sum = below as i64 + change as i64;
        sum.clamp(0, u16::MAX as i64) as u16
    }

    // The smallest row on a shelf that is greater than `row` and has a line, with its change.
    pub fn next_row(&self, shelf: u8, row: &Row) -> Option<(Row, i32)>
        ensures answer { IsNext (λ q. count_at self.now shelf q) row.now result }
    {
        let place = match self.find(shelf, row) {
            Ok(place) => place + 1,
            Err(place) => place,
        };
        let line = self.get(place)?;
        if line.node != shelf {
            return None;
        }
        let row = line.row;
        Some((row, line.change))
    }

    // Whether adding a line would want a 65th. While fewer are there, nothing is looked up.
    pub fn lacks_place(&self, line: &ChangeLine) -> bool
        ensures answer { result ≡ not (has_place (changes_of self.now) (key_of line.now)) }
    {
        let few = self.len() < PLACES;
        !few && self.find(line.node, &line.row).is_err()
    }

    // Adds to the change of a row on a shelf, unless that wants a 65th line. A line whose change comes to 0 leaves.
    pub fn add(&mut self, line: &ChangeLine) -> Result<(), Full>
        ensures answer { result ≡ add_answer (changes_of self.old) (key_of line.now) }
        ensures after { FitsSigned w32 (line.now.change +ℤ count (changes_of self.old) (key_of line.now)) → changes_of self.new ≡ after_add (changes_of self.old) line.now }
    {
        match self.find(line.node, &line.row) {
            Ok(place) => {
                self.change_by(place, line.change);
                Ok(())
            }
            Err(place) => self.insert(place, line),
        }
    }

    // Adds to the change of the line at a place; at 0 the line leaves.
    fn change_by(&mut self, place: usize, more: i32)
        requires { place < length (held self.old) }
        ensures after { FitsSigned w32 (more +ℤ (slice_index_or (changes_of self.old) place no_line).1) → changes_of self.new ≡ changed_at (changes_of self.old) place more }
    {
        let len = self.len;
        let change = more.wrapping_add(self.lines[place].change);
        let stays = change != 0;
        if stays {
            self.lines[place].change = change;
            return;
        }
        self.lines.copy_within(place + 1..len, place);
        self.lines[len - 1] = ChangeLine::blank();
        self.len = len - 1;
    }

    // Puts a line, whose key no line has, where its key would go in. A line of no change is not kept.
    fn insert(&mut self, place: usize, line: &ChangeLine) -> Result<(), Full>
        requires within { place ≤ length (held self.old) }
        requires absent { Err place ≡ found_at (changes_of self.old) (key_of line.now) }
        ensures answer { result ≡ add_answer (changes_of self.old) (key_of line.now) }
        ensures after { changes_of self.new ≡ after_add (changes_of self.old) line.now }
    {
        let len = self.len;
        if len >= PLACES {
            return Err(Full { places: PLACES });
        }
        if line.change == 0 {
            return Ok(());
        }
        self.lines.copy_within(place..len, place + 1);
        self.lines[place] = *line;
        self.len = len + 1;
        Ok(())
    }
}
