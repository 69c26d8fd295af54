ghost use Rattle.std.specs.Prelude.{ℕ, ◌≤◌, [], length};
ghost use Rattle.bag.specs.Columns.{listed};
ghost use Rattle.bag.specs.Bag.{Lines};
ghost use Rattle.bag.specs.Operators.{map_rows};
ghost use Rattle.table.specs.Tables.{capacity, SameRun};
ghost use Rattle.delta.specs.NodeChange.{LinesOf};
ghost use Rattle.delta_groups.specs.Nets.{gathered, SmallLines, Nets};

use crate::gather::gather;
use crate::image::image;
use bag::lines::ChangeLine;
use table::table::Table;

// Adds the image of each line of the node below to an empty table, each with the line's copies.
pub(crate) fn gather_images(table: &mut Table<ChangeLine>, columns: &[u8], below: &[ChangeLine])
    ensures same { SameRun table.old table.new }
    ensures after { (c : ℕ) (d : Lines) → LinesOf c d below.now → SmallLines d → length d ≤ capacity table.old → Nets table.old [] → Nets table.new (gathered (map_rows (listed columns.now) d)) }
{
    for line in below {
        gather(table, &image(&line.row, columns), line.change);
    }
}
