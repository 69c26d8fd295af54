// One instance of each trait of `laws`, so that what is promised for all of them is promised of something.
ghost use Rattle.std.specs.Prelude.{◌≡◌};
ghost use Rattle.bag.specs.Group.{every_integer, integers};
ghost use Rattle.bag.specs.Measure.{copies_alone};
ghost use Rattle.bag.specs.Integers.{integer_laws};
ghost use Rattle.std.proofs.Common.{rules};

use crate::laws::{Aggregate, Worth};

// The number of copies, and a measure that shows nothing beside it.
pub struct Copies {}

impl Worth for Copies {
    type Value = i64;

    ghost ok = { every_integer };

    ghost group = { integers };

    ghost worth = { λ r n. n };

    ghost lawful = { integer_laws };

    ghost additive = { Prim.search rules };
}

impl Aggregate for Copies {
    type Value = u8;

    ghost ok = { λ v. v ≡ 0 };

    ghost measure = { copies_alone };

    ghost lawful = { Prim.search rules };
}
