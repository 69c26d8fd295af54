ghost use Rattle.std.specs.Prelude.{ℕ, ◌<◌, ◌≤◌, List, length, IfOk};
ghost use Rattle.plan.specs.Fields as spec;
ghost use Rattle.plan.specs.Fields.{Read};
ghost use Rattle.plan.specs.Reading.{Reads, EachReads, Fills};

use crate::fault::Cause;
use crate::node::ColumnPair;
use bag::condition::{Operand, Relation};

// The bytes of a plan that are still to be read.
// Each method reads one field and moves on behind it, or answers what is wrong with it.
#[derive(Drop)]
pub(crate) struct Fields<'a> {
    pub(crate) rest: &'a [u8],
}

impl<'a> Fields<'a> {
    pub(crate) fn octet(&mut self) -> Result<u8, Cause>
        ensures { Reads (spec.octet self.old.rest.now) result self.new.rest.now }
    {
        let [first, rest @ ..] = self.rest else {
            return Err(Cause::Missing);
        };
        self.rest = rest;
        Ok(*first)
    }

    // The number of a lower node; `widths` are those of the lower nodes.
    pub(crate) fn lower(&mut self, widths: &[u8]) -> Result<u8, Cause>
        ensures is { Reads (spec.lower widths.now self.old.rest.now) result self.new.rest.now }
        ensures lower { IfOk result (λ number. number < length widths.now) }
    {
        let number = self.octet()?;
        if number as usize >= widths.len() {
            return Err(Cause::Lower);
        }
        Ok(number)
    }

    // A column of rows of this width.
    pub(crate) fn column(&mut self, width: u8) -> Result<u8, Cause>
        ensures { Reads (spec.column width self.old.rest.now) result self.new.rest.now }
    {
        let column = self.octet()?;
        if column >= width {
            return Err(Cause::Column);
        }
        Ok(column)
    }

    // A number from `least` to `most`.
    pub(crate) fn within(&mut self, least: u8, most: u8) -> Result<u8, Cause>
        ensures is { Reads (spec.within least most self.old.rest.now) result self.new.rest.now }
        ensures few { IfOk result (λ number. number ≤ most) }
    {
        let number = self.octet()?;
        if !(least..=most).contains(&number) {
            return Err(Cause::Value);
        }
        Ok(number)
    }

    pub(crate) fn relation(&mut self) -> Result<Relation, Cause>
        ensures { Reads (spec.relation_at self.old.rest.now) result self.new.rest.now }
    {
        Ok(Relation::try_from(self.octet()?)?)
    }

    fn constant(&mut self) -> Result<Operand, Cause>
        ensures { Reads (spec.word self.old.rest.now) result self.new.rest.now }
    {
        let Some((word, rest)) = self.rest.split_first_chunk() else {
            return Err(Cause::Missing);
        };
        self.rest = rest;
        Ok(Operand::Constant(i32::from_be_bytes(*word)))
    }

    // What a column is compared with. The number of its kind is matched where the kind is read, and never kept.
    pub(crate) fn operand(&mut self, width: u8) -> Result<Operand, Cause>
        ensures { Reads (spec.operand width self.old.rest.now) result self.new.rest.now }
    {
        match self.octet()? {
            0 => self.constant(),
            1 => Ok(Operand::Column(self.column(width)?)),
            _ => Err(Cause::Value),
        }
    }

    // A column of left rows and a column of right rows.
    pub(crate) fn column_pair(&mut self, left: u8, right: u8) -> Result<ColumnPair, Cause>
        ensures { Reads (spec.column_pair left right self.old.rest.now) result self.new.rest.now }
    {
        let left = self.column(left)?;
        let right = self.column(right)?;
        Ok(ColumnPair { left, right })
    }

    // `n` columns of rows of this width, in the first places.
    pub(crate) fn columns(&mut self, n: u8, width: u8) -> Result<[u8; 8], Cause>
        requires { n ≤ 8 }
        ensures { Reads (spec.columns n width self.old.rest.now) result self.new.rest.now }
    {
        let mut columns = [0; 8];
        self.fill(&mut columns[..n as usize], |fields| fields.column(width))?;
        Ok(columns)
    }

    // `n` pairs of a column of left rows and a column of right rows, in the first places.
    pub(crate) fn pairs(&mut self, n: u8, left: u8, right: u8) -> Result<[ColumnPair; 4], Cause>
        requires { n ≤ 4 }
        ensures { Reads (spec.pairs n left right self.old.rest.now) result self.new.rest.now }
    {
        let mut pairs = [ColumnPair { left: 0, right: 0 }; 4];
        self.fill(
            &mut pairs[..n as usize],
            |fields| fields.column_pair(left, right),
        )?;
        Ok(pairs)
    }

    // Fills each place by `read`, one field after the other.
    pub(crate) fn fill<T: Copy, F: Fn(&mut Fields<'a>) -> Result<T, Cause>>(
        &mut self,
        places: &mut [T],
        read: F,
    ) -> Result<(), Cause>
        requires { F.IsAlwaysCallable read }
        ensures { (reader : List ℕ → Read T) → EachReads reader (F.post read) → Fills reader places.old self.old.rest.now result places.new self.new.rest.now }
    {
        for place in places {
            *place = read(self)?;
        }
        Ok(())
    }
}
