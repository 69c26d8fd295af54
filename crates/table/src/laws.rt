ghost use Rattle.table.specs.Laws.{LookupLaws};

use crate::entry::Entry;

// Looking up after adding and removing, for every kind of entry. A theorem is demanded only where a contract names it, so this
// function names it and does nothing.
pub fn lookup_laws<E: Entry>()
    ensures { LookupLaws E.order }
{}
