ghost use Rattle.std.specs.Prelude.{◌≡◌};
ghost use Rattle.nets.specs.GatherRefusal.{gather_refusal, refusal_in};
ghost use Rattle.nets.specs.declared.fault.GatherFault.TheVariants as faults;

use message::fault::ReadFault;

// Why a message has no nets.
#[derive(Clone, Copy, PartialEq, Eq, Debug)]
pub enum GatherFault {
    // The message is not read; what the reader found.
    Message { fault: ReadFault },
    // A record is not of a base of the plan; `place` is the byte at which it begins.
    Table { place: usize },
}

// Written by hand, since a derived `From` promises nothing of which fault `?` makes.
impl From<ReadFault> for GatherFault {
    ghost from_gives = { λ f r. r ≡ faults.Message f };

    fn from(fault: ReadFault) -> GatherFault {
        GatherFault::Message { fault }
    }
}

impl GatherFault {
    pub fn number(&self) -> u8
        ensures { result ≡ (refusal_in (gather_refusal self.now)).number }
    {
        match self {
            GatherFault::Message { fault } => fault.number(),
            GatherFault::Table { place: _ } => 4,
        }
    }

    pub fn place(&self) -> usize
        ensures { result ≡ (refusal_in (gather_refusal self.now)).place }
    {
        match self {
            GatherFault::Message { fault } => fault.place(),
            GatherFault::Table { place } => *place,
        }
    }
}
