ghost use Rattle.std.specs.Prelude.{◌≡◌, IfOk};
ghost use Rattle.plan.specs.Refusal.{plan_told};
ghost use Rattle.plan.specs.Check.{checked, kept as keptColumns};
ghost use Rattle.plan.specs.Laws.{PlanOrBroken};
ghost use Rattle.plan.specs.Plans.{listed};

use crate::fault::{Cause, PlanFault};
use crate::field::Fields;
use crate::node::Node;
use crate::operator::LowerNodes;
use crate::plan::Plan;

const NO_NODE: PlanFault = PlanFault {
    node: 0,
    cause: Cause::Nodes,
};

const TOO_MANY_NODES: PlanFault = PlanFault {
    node: 16,
    cause: Cause::Nodes,
};

impl Plan {
    // The plan that the bytes say, for a measure that shows `shown` columns.
    // More than 8 columns count as 8: neither leaves room for a total.
    pub fn check(bytes: &[u8], shown: u8) -> Result<Plan, PlanFault>
        ensures answer { plan_told (listed result) ≡ checked shown bytes.now }
        ensures meaning { PlanOrBroken shown bytes.now (listed result) }
        ensures shown { IfOk result (λ p. p.shown ≡ keptColumns shown) }
    {
        if bytes.is_empty() {
            return Err(NO_NODE);
        }
        let showing = shown.min(8);
        let mut nodes = [Node::Base { width: 1 }; 16];
        let mut widths = [0; 16];
        let mut len: usize = 0;
        let mut fields = Fields { rest: bytes };
        while !fields.rest.is_empty() {
            if len >= 16 {
                return Err(TOO_MANY_NODES);
            }
            let lower = LowerNodes {
                widths: &widths[..len],
                shown: showing,
            };
            let node = lower.node(&mut fields).map_err(|cause| PlanFault {
                node: len as u8,
                cause,
            })?;
            let width = lower.width(node);
            nodes[len] = node;
            widths[len] = width;
            len += 1;
        }
        Ok(Plan {
            nodes,
            widths,
            len,
            shown: showing,
        })
    }
}
