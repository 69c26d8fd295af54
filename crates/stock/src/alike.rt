ghost use Rattle.std.specs.Prelude.{◌≡◌, true, Decides};
ghost use Rattle.stock.specs.Calls.{call_answer, after_call, answers, after_calls, StocksAlike};

use crate::call::StockCall;
use crate::stock::Stock;

// Makes one call on two stocks, and says whether they answered alike.
fn call_both<S: Stock, T: Stock>(a: &mut S, b: &mut T, call: &StockCall) -> bool
    ensures one { S.Stock.meaning a.new ≡ after_call (S.Stock.meaning a.old) call.now }
    ensures other { T.Stock.meaning b.new ≡ after_call (T.Stock.meaning b.old) call.now }
    ensures answer { Decides result (call_answer (S.Stock.meaning a.old) call.now ≡ call_answer (T.Stock.meaning b.old) call.now) }
{
    match *call {
        StockCall::Capacity => a.capacity() == b.capacity(),
        StockCall::Lines => a.lines() == b.lines(),
        StockCall::Count { shelf, row } => a.count(shelf, &row) == b.count(shelf, &row),
        StockCall::Next { shelf, row } => a.next(shelf, &row) == b.next(shelf, &row),
        StockCall::Put { shelf, row, n } => a.put(shelf, &row, n) == b.put(shelf, &row, n),
        StockCall::Take { shelf, row, n } => a.take(shelf, &row, n) == b.take(shelf, &row, n),
    }
}

// Plays the calls on two stocks of any two kinds, one call after the other, and says whether every answer was alike. Stocks that
// mean the same are found alike, and mean the same afterwards.
pub fn play_alike<S: Stock, T: Stock>(a: &mut S, b: &mut T, calls: &[StockCall]) -> bool
    ensures law { StocksAlike }
    ensures one { S.Stock.meaning a.new ≡ after_calls (S.Stock.meaning a.old) calls.now }
    ensures other { T.Stock.meaning b.new ≡ after_calls (T.Stock.meaning b.old) calls.now }
    ensures answer { Decides result (answers (S.Stock.meaning a.old) calls.now ≡ answers (T.Stock.meaning b.old) calls.now) }
    ensures alike { S.Stock.meaning a.old ≡ T.Stock.meaning b.old → (result ≡ true) × (S.Stock.meaning a.new ≡ T.Stock.meaning b.new) }
{
    let mut alike = true;
    for call in calls {
        let same = call_both(a, b, call);
        alike = alike & same;
    }
    alike
}
