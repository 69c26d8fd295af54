ghost use Rattle.std.specs.Prelude.{◌≡◌, [], ◌∷◌, pos, ◌≤ℤ◌};
ghost use Rattle.bag.specs.Operators.{at_least_zero};
ghost use Rattle.stock.specs.Holding.{Holding};
ghost use Rattle.settling.specs.Leading.{Leads};
ghost use Rattle.settling.specs.Steps.{Takeable, Puttable, TakesLine, PutsLine, Moved, losses, gains};

use bag::lines::ChangeLine;
use stock::stock::Stock;

// How many copies a change above 0 is of, as far as a count goes.
fn copies(change: i64) -> u16
    ensures { at_least_zero change ≤ℤ pos 65535 → pos result ≡ at_least_zero change }
{
    change.clamp(0, 65535) as u16
}

// Taking and putting stay apart, since a take and a put are accepted on conditions of their own.

// Takes what a line takes. The answer is no news: it is proved that a take that settling makes is accepted.
fn take_line<S: Stock>(stock: &mut S, line: &ChangeLine)
    ensures memory { S.Stock.memory stock.new ≡ S.Stock.memory stock.old }
    ensures after { TakesLine (S.Stock.meaning stock.old) line.now → Moved (S.Stock.meaning stock.old) (S.Stock.meaning stock.new) (losses (line.now ∷ [])) }
{
    let n = copies(-(line.change as i64));
    if n > 0 {
        let _ = stock.take(line.node, &line.row, n);
    }
}

// Puts what a line puts; nor is such a put refused.
fn put_line<S: Stock>(stock: &mut S, line: &ChangeLine)
    ensures memory { S.Stock.memory stock.new ≡ S.Stock.memory stock.old }
    ensures after { PutsLine (S.Stock.meaning stock.old) line.now → Moved (S.Stock.meaning stock.old) (S.Stock.meaning stock.new) (gains (line.now ∷ [])) }
{
    let n = copies(line.change as i64);
    if n > 0 {
        let _ = stock.put(line.node, &line.row, n);
    }
}

// Takes what the lines take.
fn take_all<S: Stock>(stock: &mut S, lines: &[ChangeLine])
    ensures memory { S.Stock.memory stock.new ≡ S.Stock.memory stock.old }
    ensures after { Takeable (S.Stock.meaning stock.old) lines.now → Moved (S.Stock.meaning stock.old) (S.Stock.meaning stock.new) (losses lines.now) }
{
    for line in lines {
        take_line(stock, line);
    }
}

// Puts what the lines put.
fn put_all<S: Stock>(stock: &mut S, lines: &[ChangeLine])
    ensures memory { S.Stock.memory stock.new ≡ S.Stock.memory stock.old }
    ensures after { (aim : Holding) → Puttable (S.Stock.meaning stock.old) lines.now aim → Moved (S.Stock.meaning stock.old) (S.Stock.meaning stock.new) (gains lines.now) }
{
    for line in lines {
        put_line(stock, line);
    }
}

// Makes the changes that the lines tell, takes before puts, so that a full stock has room. Where they lead to a lawful holding, no
// call is refused on the way, and the stock then holds it.
pub fn settle<S: Stock>(stock: &mut S, lines: &[ChangeLine])
    ensures memory { S.Stock.memory stock.new ≡ S.Stock.memory stock.old }
    ensures after { (aim : Holding) → Leads (S.Stock.meaning stock.old) lines.now aim → S.Stock.meaning stock.new ≡ aim }
{
    take_all(stock, lines);
    put_all(stock, lines);
}
