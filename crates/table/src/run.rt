ghost use Rattle.std.specs.Prelude.{◌≡◌, ◌<◌, ◌≤◌, length};
ghost use Rattle.table.specs.Runs.{opened, closed};

use crate::entry::Entry;

// These stay inside the crate: they are only for places within the run, and a public function may not require that.

// Moves the entries from `place` up to `len` one place up, and puts `item` at `place`.
pub(crate) fn insert_at<E: Entry>(run: &mut [E], place: usize, len: usize, item: E)
    requires { (place ≤ len) × (len < length run.old) }
    ensures { run.new ≡ opened run.old place len item }
{
    run.copy_within(place..len, place + 1);
    run[place] = item;
}

// Moves the entries past `place` up to `len` one place down, and blanks the place that the last one leaves.
pub(crate) fn remove_at<E: Entry>(run: &mut [E], place: usize, len: usize)
    requires { (place < len) × (len ≤ length run.old) }
    ensures { run.new ≡ closed run.old place len E.blank }
{
    run.copy_within(place + 1..len, place);
    run[len - 1] = E::blank();
}
