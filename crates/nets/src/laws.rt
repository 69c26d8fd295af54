ghost use Rattle.nets.specs.NetLaws.{NetLaws, NetRowsLaw};

// A theorem is demanded only where a contract names it, so these functions name the theorems, and do nothing.

// What the nets of a message say of its records.
pub fn net_laws()
    ensures { NetLaws }
{}

// What the rows of the nets are.
pub fn rows_of_nets()
    ensures { NetRowsLaw }
{}
