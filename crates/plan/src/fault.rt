ghost use Rattle.std.specs.Prelude.{◌≡◌, Some};
ghost use Rattle.plan.specs.declared.fault.Cause.TheVariants.{Value};
ghost use Rattle.plan.specs.Refusal.{cause_number, plan_refusal, plan_text};

use bag::condition::UnknownRelation;
use std::fmt;

// Why bytes are no plan, with the number that a refusal tells.
#[derive(Clone, Copy, PartialEq, Eq, Debug)]
pub enum Cause {
    // The bytes end before a field.
    Missing = 1,
    // A field has a value that is not in its list; an unknown operator, too.
    Value = 2,
    // A field names a node that is not lower.
    Lower = 3,
    // A field names a column at or past the width.
    Column = 4,
    // The rows would be too wide, or two sides that must be equally wide are not.
    Width = 5,
    // There is no node, or a 17th.
    Nodes = 6,
}

// The first bad field: its node, and what is wrong there.
#[derive(Clone, Copy, PartialEq, Eq, Debug)]
pub struct PlanFault {
    pub node: u8,
    pub cause: Cause,
}

impl Cause {
    pub fn number(&self) -> u8
        ensures { result ≡ cause_number self.now }
    {
        *self as u8
    }
}

// A relation that there is not is a value that is not in the list.
impl From<UnknownRelation> for Cause {
    ghost from_gives = { λ _ cause. cause ≡ Value };

    fn from(_unknown: UnknownRelation) -> Cause {
        Cause::Value
    }
}

impl PlanFault {
    // The number of the refusal; its place is the node, then the cause's number.
    pub fn number(&self) -> u8
        ensures { result ≡ (plan_refusal self.now).number }
    {
        12
    }

    pub fn place(&self) -> (u8, u8)
        ensures { result ≡ (plan_refusal self.now).place }
    {
        (self.node, self.cause.number())
    }
}

// The refusal as programs print it.
impl fmt::Display for PlanFault {
    ghost output = { λ f. Some (plan_text f) };

    fn fmt<W: fmt::Write>(&self, f: &mut fmt::Formatter<W>) -> fmt::Result {
        let number = self.number();
        let (node, cause) = self.place();
        write!(f, "plan refused {number} at {node} {cause}")
    }
}
