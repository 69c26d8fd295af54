ghost use Rattle.std.specs.Prelude.{◌≡◌, ◌≤◌, List, [], length, Ok};
ghost use Rattle.table.specs.Tables.{items, capacity, SameRun};
ghost use Rattle.message.specs.declared.record.Record.{Record};
ghost use Rattle.plan.specs.Plans.{nodes_of};
ghost use Rattle.nets.specs.GatherRefusal.{gather_told, fault_in};
ghost use Rattle.nets.specs.Gathered.{gathered, gathered_until};
ghost use Rattle.nets.specs.Nets.{nets_of};
ghost use Rattle.nets.specs.NetRun.{most_lines, laid_nets, lines_told};

use crate::adding::NetTable;
use crate::base::is_of_base;
use crate::fault::GatherFault;
use bag::lines::ChangeLine;
use message::reader::Reader;
use plan::plan::Plan;
use table::table::Table;

// Adds up the records of a message, as far as they are read and are of bases of the plan.
fn add_up(plan: &Plan, message: &[u8], nets: &mut NetTable) -> Result<(), GatherFault>
    ensures lender { nets.new.table.ghost_name ≡ nets.old.table.ghost_name }
    ensures same { SameRun nets.old.table.now nets.new.table.now }
    ensures refusal { fault_in (gather_told result) ≡ fault_in (gathered (nodes_of plan.now) message.now) }
    ensures added { items nets.old.table.now ≡ [] → most_lines ≤ capacity nets.old.table.now → items nets.new.table.now ≡ nets_of (gathered_until (nodes_of plan.now) message.now) }
{
    let mut reader = Reader::new(message);
    let mut place = 0;
    while let Some(movement) = reader.next()? {
        if !is_of_base(plan, &movement) {
            return Err(GatherFault::Table { place });
        }
        nets.add(&movement);
        place = reader.place();
    }
    Ok(())
}

// Gathers a message into one net for each base and row, which it leaves as lines in `nets`, and answers how many lines these are.
// A message has at most 1,024 nets. Of a shorter run the lines are used as they come, and what finds no place in it is lost: the
// refusals are those of any run, but the lines are then not promised.
// It answers a number and not the lines, since the run is the caller's memory, of which `left` tells the whole.
pub fn gather(plan: &Plan, message: &[u8], nets: &mut [ChangeLine]) -> Result<usize, GatherFault>
    ensures long { length nets.new ≡ length nets.old }
    ensures refusal { fault_in (gather_told result) ≡ fault_in (gathered (nodes_of plan.now) message.now) }
    ensures answer { most_lines ≤ length nets.old → gather_told result ≡ lines_told (nodes_of plan.now) message.now }
    ensures left { most_lines ≤ length nets.old → nets.new ≡ laid_nets (length nets.old) (gathered_until (nodes_of plan.now) message.now) }
    ensures nets { most_lines ≤ length nets.old → (m : List Record) → gathered (nodes_of plan.now) message.now ≡ Ok m → nets.new ≡ laid_nets (length nets.old) m }
{
    let mut table = Table::new(nets);
    let mut sums = NetTable { table: &mut table };
    add_up(plan, message, &mut sums)?;
    Ok(table.len())
}
