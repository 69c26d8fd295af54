ghost use Rattle.std.specs.Prelude.{◌≡◌, List};
ghost use Rattle.bag.specs.Bag.{Lines};
ghost use Rattle.plan.specs.Afresh.{board};
ghost use Rattle.sheet.specs.Sheets.{of_node, flattened};

use bag::lines::ChangeLine;

// The lines of a node, among lines that stand node by node.
pub fn lines_of_node(lines: &[ChangeLine], node: u8) -> &[ChangeLine]
    ensures { (ds : List Lines) → lines.now ≡ flattened 0 ds → result.now ≡ of_node node (board ds node) }
{
    let from = lines.partition_point(|line| line.node < node);
    let to = lines.partition_point(|line| line.node <= node);
    &lines[from.min(to)..to]
}
