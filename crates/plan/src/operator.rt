ghost use Rattle.std.specs.Prelude.{◌≡◌, ◌≤◌, true};
ghost use Rattle.plan.specs.Lawful.{fits, width as width_by};
ghost use Rattle.plan.specs.Check as spec;
ghost use Rattle.plan.specs.Reading.{Reads};

use crate::fault::Cause;
use crate::field::Fields;
use crate::node::{Listed, Node};

// The widths of the nodes below one, and how many columns the plan's measure shows.
#[derive(Clone, Copy)]
pub(crate) struct LowerNodes<'a> {
    pub(crate) widths: &'a [u8],
    pub(crate) shown: u8,
    ghost narrow: { shown ≤ 8 },
}

impl LowerNodes<'_> {
    // The node that the fields begin with.
    // Its operator's number is matched once, here: an enum of operators would only be matched a second time.
    pub(crate) fn node(&self, fields: &mut Fields) -> Result<Node, Cause>
        ensures { Reads (spec.node self.now.shown self.now.widths.now fields.old.rest.now) result fields.new.rest.now }
    {
        match fields.octet()? {
            0 => Ok(Node::Base {
                width: fields.within(1, 8)?,
            }),
            1 => self.keep(fields),
            2 => self.pick(fields),
            3 => self.pair(fields),
            4 => {
                let (left, right) = self.equal_sides(fields)?;
                Ok(Node::Both { left, right })
            },
            5 => {
                let (left, right) = self.equal_sides(fields)?;
                Ok(Node::Less { left, right })
            },
            6 => self.total(fields),
            _ => Err(Cause::Value),
        }
    }

    fn keep(&self, fields: &mut Fields) -> Result<Node, Cause>
        ensures { Reads (spec.keep self.now.widths.now fields.old.rest.now) result fields.new.rest.now }
    {
        let child = fields.lower(self.widths)?;
        let width = self.widths[child as usize];
        let column = fields.column(width)?;
        let relation = fields.relation()?;
        let operand = fields.operand(width)?;
        Ok(Node::Keep {
            child,
            column,
            relation,
            operand,
        })
    }

    fn pick(&self, fields: &mut Fields) -> Result<Node, Cause>
        ensures { Reads (spec.pick self.now.widths.now fields.old.rest.now) result fields.new.rest.now }
    {
        let child = fields.lower(self.widths)?;
        let count = fields.within(1, 8)?;
        let places = fields.columns(count, self.widths[child as usize])?;
        let columns = Listed { count, places };
        Ok(Node::Pick { child, columns })
    }

    fn pair(&self, fields: &mut Fields) -> Result<Node, Cause>
        ensures { Reads (spec.pair self.now.widths.now fields.old.rest.now) result fields.new.rest.now }
    {
        let left = fields.lower(self.widths)?;
        let right = fields.lower(self.widths)?;
        let left_width = self.widths[left as usize];
        let right_width = self.widths[right as usize];
        let count = fields.within(0, 4)?;
        let places = fields.pairs(count, left_width, right_width)?;
        if left_width as usize + right_width as usize > 8 {
            return Err(Cause::Width);
        }
        let pairs = Listed { count, places };
        Ok(Node::Pair { left, right, pairs })
    }

    // The numbers of two lower nodes with rows of one width.
    fn equal_sides(&self, fields: &mut Fields) -> Result<(u8, u8), Cause>
        ensures { Reads (spec.equal_sides self.now.widths.now fields.old.rest.now) result fields.new.rest.now }
    {
        let left = fields.lower(self.widths)?;
        let right = fields.lower(self.widths)?;
        if self.widths[left as usize] != self.widths[right as usize] {
            return Err(Cause::Width);
        }
        Ok((left, right))
    }

    fn total(&self, fields: &mut Fields) -> Result<Node, Cause>
        ensures { Reads (spec.total self.now.shown self.now.widths.now fields.old.rest.now) result fields.new.rest.now }
    {
        let child = fields.lower(self.widths)?;
        let width = self.widths[child as usize];
        let measured = fields.column(width)?;
        let count = fields.within(0, 7)?;
        let places = fields.columns(count, width)?;
        if count + 1 + self.shown > 8 {
            return Err(Cause::Width);
        }
        let columns = Listed { count, places };
        Ok(Node::Total {
            child,
            measured,
            columns,
        })
    }

    // How wide the rows of a node are that fits over the lower nodes.
    pub(crate) fn width(&self, node: Node) -> u8
        requires { fits self.now.shown self.now.widths.now node ≡ true }
        ensures { result ≡ width_by self.now.shown self.now.widths.now node }
    {
        match node {
            Node::Base { width } => width,
            Node::Keep { child, .. } => self.widths[child as usize],
            Node::Pick { columns, .. } => columns.count,
            Node::Pair { left, right, .. } => self.widths[left as usize]
                + self.widths[right as usize],
            Node::Both { left, .. } | Node::Less { left, .. } => self.widths[left as usize],
            Node::Total { columns, .. } => columns.count + 1 + self.shown,
        }
    }
}
