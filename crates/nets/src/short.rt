ghost use Rattle.std.specs.Prelude.{◌≡◌, not, List, pos, ◌+ℤ◌, int_le};
ghost use Rattle.bag.specs.Bag.{count};
ghost use Rattle.message.specs.declared.record.Record.{Record};
ghost use Rattle.stock.specs.Holding.{shelf_of};
ghost use Rattle.nets.specs.Nets.{nets_of};
ghost use Rattle.nets.specs.Shorts.{short_at, ShortInCounts};

use bag::lines::ChangeLine;
use stock::stock::Stock;

// Whether a net takes more copies of its row than the base has.
fn takes_too_much<S: Stock>(stock: &S, net: &ChangeLine) -> bool
    ensures { result ≡ not (int_le (pos 0) (count (shelf_of (S.Stock.meaning stock.now) net.now.node) net.now.row +ℤ net.now.change)) }
{
    stock.count(net.node, &net.row) as i64 + (net.change as i64) < 0
}

// The lowest base of which the nets of a message take more copies of a row than it has. The nets ascend by node, so the first that
// takes too much decides.
pub fn short<S: Stock>(stock: &S, nets: &[ChangeLine]) -> Option<u8>
    ensures answer { (m : List Record) → nets.now ≡ nets_of m → result ≡ short_at (S.Stock.meaning stock.now) m }
    ensures counts { (m : List Record) → nets.now ≡ nets_of m → ShortInCounts (S.Stock.meaning stock.now) m result }
{
    nets.iter()
        .find(|net| takes_too_much(stock, net))
        .map(|net| net.node)
}
