ghost use Rattle.std.specs.Prelude.{◌≡◌, ◌-◌, ◌∷◌, length, replicate};
ghost use Rattle.bag.specs.Lines.{blank_stock_line};
ghost use Rattle.bag.specs.Refusal.{left_by};

use bag::lines::StockLine;
use table::full::Full;
use table::table::Table;

// Once the table is gone its lender finds the whole run as the last call left it, whatever it held before.
fn leave_one(run: &mut [StockLine], line: StockLine) -> Result<(), Full>
    ensures { run.new ≡ left_by result (replicate (length run.old) blank_stock_line) (line ∷ replicate (length run.old - 1) blank_stock_line) }
{
    let mut table = Table::new(run);
    table.add(line)
}

#[test]
fn the_lender_finds_the_line_and_blanks(rt: HostRuntime) {
    let line = StockLine {
        shelf: 3,
        row: [-4; 8],
        count: 5,
    };
    let mut run = [line; 2];
    assert!(rt; leave_one(&mut run, line).is_ok());
    assert_eq!(rt; (run[0].shelf, run[0].row[7], run[0].count), (3, -4, 5));
    assert_eq!(rt; (run[1].shelf, run[1].row[7], run[1].count), (0, 0, 0));
}
