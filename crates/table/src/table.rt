ghost use Rattle.std.specs.Prelude.{◌≡◌, ◌-◌, ◌<◌, ◌≤◌, ◌++◌, [], length, take, replicate, IfSome, None, Err};
ghost use Rattle.std.specs.List.{slice_get};
ghost use Rattle.std.specs.List.Sorted.{IsSearchInRange};
ghost use Rattle.table.specs.Entries.{Ascending, looked_up, place_of, first_after, with_entry, without_key};
ghost use Rattle.bag.specs.Refusal.{left_by};
ghost use Rattle.table.specs.Refusals.{refusal_in};

use crate::entry::Entry;
use crate::full::Full;
use crate::run::{insert_at, remove_at};

// An ordered table in a lent run: the first `len` places hold the entries, by ascending keys, the others the blank.
#[derive(Drop)]
pub struct Table<'a, E: Entry> {
    run: &'a mut [E],
    len: usize,
    pub ghost within: { len ≤ length run.now },
    pub ghost ascending: { Ascending E.order (take len run.now) },
    pub ghost blanks: { run.now ≡ take len run.now ++ replicate (length run.now - len) E.blank },
}

impl<'a, E: Entry> Table<'a, E> {
    ghost use Rattle.table.specs.Tables.{items, capacity, SameRun, add_answer};

    // An empty table over `run`, whatever the run held.
    pub fn new(run: &'a mut [E]) -> Self
        ensures lender { result.run.ghost_name ≡ run.entry.ghost_name }
        ensures long { capacity result ≡ length run.old }
        ensures empty { items result ≡ [] }
    {
        let blank = E::blank();
        // `fill` clones its value, and of a clone the bound `Copy` promises nothing
        run.fill_with(|| blank);
        Table { run, len: 0 }
    }

    // How many entries there are.
    pub fn len(&self) -> usize
        ensures answer { result ≡ length (items self.now) }
    {
        self.entries().len()
    }

    // How many entries there is place for.
    pub fn capacity(&self) -> usize
        ensures answer { result ≡ capacity self.now }
    {
        self.run.len()
    }

    // The entries, by ascending keys.
    pub fn entries(&self) -> &[E]
        ensures answer { result.now ≡ items self.now }
        ensures within { length result.now ≤ capacity self.now }
    {
        &self.run[..self.len]
    }

    // The entry at a place.
    pub fn get(&self, place: usize) -> Option<E>
        ensures answer { result ≡ slice_get (items self.now) place }
    {
        self.entries().get(place).copied()
    }

    // The place of the entry that has the key of `key`, if there is one.
    pub fn find(&self, key: &E) -> Option<usize>
        ensures inside { IfSome result (λ i. i < length (items self.now)) }
        ensures answer { result ≡ place_of E.order key.now (items self.now) }
    {
        self.look_up(key).ok()
    }

    // The first entry whose key is greater than the key of `key`, if there is one.
    pub fn after(&self, key: &E) -> Option<E>
        ensures answer { result ≡ first_after E.order key.now (items self.now) }
    {
        match self.look_up(key) {
            Ok(place) => self.get(place + 1),
            Err(place) => self.get(place),
        }
    }

    // Replaces the entry that has the key of `entry`, or else puts `entry` into order.
    pub fn add(&mut self, entry: E) -> Result<(), Full>
        ensures same { SameRun self.old self.new }
        ensures answer { refusal_in result ≡ add_answer E.order (capacity self.old) entry (items self.old) }
        ensures after { items self.new ≡ left_by result (items self.old) (with_entry E.order entry (items self.old)) }
        ensures refused { elim result [ Ok _ ↦ Unit {0} | Err _ ↦ self.new ≡ self.old ] }
    {
        match self.look_up(&entry) {
            Ok(place) => {
                self.run[place] = entry;
                Ok(())
            }
            Err(place) => self.insert(place, entry),
        }
    }

    // Takes out the entry that has the key of `key`, if there is one.
    pub fn remove(&mut self, key: &E)
        ensures same { SameRun self.old self.new }
        ensures after { items self.new ≡ without_key E.order key.now (items self.old) }
        ensures absent { place_of E.order key.now (items self.old) ≡ None → self.new ≡ self.old }
    {
        if let Ok(place) = self.look_up(key) {
            remove_at(self.run, place, self.len);
            self.len -= 1;
        }
    }

    // Where the key of `key` stands, or else where it would go in. Finding, adding and removing rest on this one search.
    fn look_up(&self, key: &E) -> Result<usize, usize>
        ensures within { IsSearchInRange result (length (items self.now)) }
        ensures answer { result ≡ looked_up E.order key.now (items self.now) }
    {
        self.entries().binary_search_by(|entry| entry.compare(key))
    }

    // Puts `entry`, whose key no entry has, where its key would go in.
    fn insert(&mut self, place: usize, entry: E) -> Result<(), Full>
        requires { Err place ≡ looked_up E.order entry (items self.old) }
        ensures same { SameRun self.old self.new }
        ensures answer { refusal_in result ≡ add_answer E.order (capacity self.old) entry (items self.old) }
        ensures after { items self.new ≡ left_by result (items self.old) (with_entry E.order entry (items self.old)) }
        ensures refused { elim result [ Ok _ ↦ Unit {0} | Err _ ↦ self.new ≡ self.old ] }
    {
        let len = self.len;
        if len == self.run.len() {
            return Err(Full { places: len });
        }
        insert_at(self.run, place, len, entry);
        self.len = len + 1;
        Ok(())
    }
}
