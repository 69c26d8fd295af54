ghost use Rattle.std.specs.Prelude.{◌≡◌, length, replicate};
ghost use Rattle.bag.specs.Lines.{blank_change_line};

use bag::lines::ChangeLine;

// Blanks every line of a sheet.
pub fn blank_sheet(sheet: &mut [ChangeLine])
    ensures { sheet.new ≡ replicate (length sheet.old) blank_change_line }
{
    sheet.fill(ChangeLine::blank());
}
