ghost use Rattle.std.specs.Prelude.{◌≡◌, ◌≤◌, length, pos, ◌+ℤ◌};
ghost use Rattle.bag.specs.Bag.{is_zero};
ghost use Rattle.stock.specs.Holding.{Holding, lines_of};
ghost use Rattle.settling.specs.Leading.{LeadsInCounts};

use bag::lines::ChangeLine;
use stock::stock::Stock;

// Whether a row that has `old` copies has none after a line.
fn vanishes(line: &ChangeLine, old: u16) -> bool
    ensures { result ≡ is_zero (pos old +ℤ line.now.change) }
{
    old as i64 + line.change as i64 == 0
}

// How many lines are in use once the lines are settled: those in use, and the rows that appear, without the rows that vanish. Only the
// lines and the old counts are looked at, so it can be told before anything is changed. No sheet has more than 8,192 lines.
pub fn lines_after<S: Stock>(stock: &S, lines: &[ChangeLine]) -> usize
    ensures answer { (aim : Holding) → length lines.now ≤ 8192 → LeadsInCounts (S.Stock.meaning stock.now) lines.now aim → result ≡ lines_of aim }
{
    // one loop for both counts, so that each row is looked up once
    let mut appear: usize = 0;
    let mut vanish: usize = 0;
    for line in lines {
        let old = stock.count(line.node, &line.row);
        appear += (old == 0) as usize;
        vanish += vanishes(line, old) as usize;
    }
    let used = stock.lines() as usize;
    used.saturating_add(appear).saturating_sub(vanish)
}
