ghost use Rattle.std.specs.Prelude.{◌≡◌};
ghost use Rattle.bag.specs.Columns.{column_of, operand_of};
ghost use Rattle.bag.specs.Condition.{stands};

use bag::condition::{Operand, Relation, holds};
use bag::row::Row;
use measure::columns::column_of;

// What a keep (selection) asks of a row: a column, and how it must stand to a number or to another column.
#[derive(Clone, Copy, PartialEq, Eq, Debug)]
pub struct Condition {
    pub column: u8,
    pub relation: Relation,
    pub operand: Operand,
}

impl Condition {
    // Whether a row passes.
    pub fn passes(&self, row: &Row) -> bool
        ensures { result ≡ stands self.now.relation (column_of row.now self.now.column) (operand_of self.now.operand row.now) }
    {
        holds(
            self.relation,
            column_of(row, self.column as usize),
            self.operand_at(row),
        )
    }

    // The number that the column is compared with.
    fn operand_at(&self, row: &Row) -> i32
        ensures { result ≡ operand_of self.now.operand row.now }
    {
        match self.operand {
            Operand::Constant(number) => number,
            Operand::Column(column) => column_of(row, column as usize),
        }
    }
}
