ghost use Rattle.settling.specs.Boards.{SheetLeadsToNewBoards};

// The lines of a sheet, node by node the difference of the old and the new bag, lead from the old bags to the new, whatever the
// plan. A theorem is demanded only where a contract names it, so this function names it.
pub fn sheet_leads_to_new_boards()
    ensures { SheetLeadsToNewBoards }
{}
