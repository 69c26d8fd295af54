ghost use Rattle.std.specs.Prelude.{◌≡◌};
ghost use Rattle.posting.specs.Faults.{fault_at};

use delta::fault::NodeFault;

// Why the changes of a posting cannot be made, and at which node.
// No struct of a node and a cause: `Paper` is no fault of a node's bag, so the causes would need an enum around `NodeFault`.
#[derive(Clone, Copy, PartialEq, Eq, Debug)]
pub enum WorkFault {
    // A row of the node would have more copies than a line can count.
    Over { node: u8 },
    // The measure of a group that has copies does not fit its columns.
    Wide { node: u8 },
    // The changed lines up to this node outnumber the sheet.
    Paper { node: u8 },
}

impl WorkFault {
    // The fault of a node's new bag, with the number of the node.
    pub fn at(node: u8, fault: NodeFault) -> WorkFault
        ensures { result ≡ fault_at node fault }
    {
        match fault {
            NodeFault::Over => WorkFault::Over { node },
            NodeFault::Wide => WorkFault::Wide { node },
        }
    }
}
