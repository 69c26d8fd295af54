use bag::lines::ChangeLine;
use std::test::Fail;
use table::full::Full;
use table::table::Table;

fn line(node: u8, column: i32, change: i32) -> ChangeLine {
    ChangeLine {
        node,
        row: [column, 0, 0, 0, 0, 0, 0, 0],
        change,
    }
}

#[test]
fn changes_are_found_replaced_and_removed_by_node_and_row(rt: HostRuntime) -> Result<(), Fail> {
    let mut run = [line(9, 9, 9); 2];
    let mut table = Table::new(&mut run);
    assert_eq!(rt; table.add(line(1, 0, 3)), Ok(()));
    assert_eq!(rt; table.add(line(0, 5, -1)), Ok(()));
    assert_eq!(rt; table.add(line(1, 0, -3)), Ok(()));
    assert_eq!(rt; table.add(line(1, 1, 1)), Err(Full { places: 2 }));
    assert_eq!(rt; table.find(&line(1, 0, 0)), Some(1));
    assert_eq!(rt; table.get(1).ok_or("no line")?.change, -3);
    table.remove(&line(0, 5, 0));
    assert_eq!(rt; table.find(&line(1, 0, 0)), Some(0));
    assert_eq!(rt; (run[1].node, run[1].row[0], run[1].change), (0, 0, 0));
    Ok(())
}
