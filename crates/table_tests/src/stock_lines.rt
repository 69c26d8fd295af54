use bag::lines::StockLine;
use table::full::Full;
use table::table::Table;

fn line(shelf: u8, column: i32, count: u16) -> StockLine {
    StockLine {
        shelf,
        row: [column, 0, 0, 0, 0, 0, 0, 0],
        count,
    }
}

// What stands at a place: shelf, first column and count.
fn at(table: &Table<StockLine>, place: usize) -> Option<(u8, i32, u16)> {
    table
        .get(place)
        .map(|line| (line.shelf, line.row[0], line.count))
}

#[test]
fn a_run_of_no_places_refuses_every_line(rt: HostRuntime) {
    let mut run: [StockLine; 0] = [];
    let mut table = Table::new(&mut run);
    assert_eq!(rt; table.add(line(1, 1, 1)), Err(Full { places: 0 }));
    assert_eq!(rt; table.find(&line(1, 1, 1)), None);
    assert_eq!(rt; table.capacity(), 0);
    assert_eq!(rt; table.len(), 0);
}

#[test]
fn a_full_run_replaces_and_refuses(rt: HostRuntime) {
    let mut run = [line(9, 9, 9)];
    let mut table = Table::new(&mut run);
    assert_eq!(rt; table.len(), 0);
    assert_eq!(rt; table.add(line(2, -5, 1)), Ok(()));
    assert_eq!(rt;
        table.add(line(2, -5, 7)),
        Ok(()),
        "an equal key takes no place"
    );
    assert_eq!(rt; table.add(line(2, -6, 1)), Err(Full { places: 1 }));
    assert_eq!(rt; table.len(), 1);
    assert_eq!(rt;
        at(&table, 0),
        Some((2, -5, 7)),
        "the refusal changes nothing"
    );
}

#[test]
fn lines_ascend_by_shelf_then_row(rt: HostRuntime) {
    let mut run = [line(9, 9, 9); 5];
    let mut table = Table::new(&mut run);
    assert_eq!(rt; table.add(line(2, 1, 10)), Ok(()));
    assert_eq!(rt; table.add(line(1, 7, 11)), Ok(()));
    assert_eq!(rt; table.add(line(2, -1, 12)), Ok(()));
    assert_eq!(rt; table.add(line(1, -7, 13)), Ok(()));
    assert_eq!(rt; at(&table, 0), Some((1, -7, 13)));
    assert_eq!(rt; at(&table, 1), Some((1, 7, 11)));
    assert_eq!(rt; at(&table, 2), Some((2, -1, 12)));
    assert_eq!(rt; at(&table, 3), Some((2, 1, 10)));
    assert_eq!(rt; at(&table, 4), None);
    assert_eq!(rt; table.find(&line(2, -1, 0)), Some(2));
    assert_eq!(rt; table.find(&line(2, 0, 0)), None);
}

#[test]
fn removing_closes_the_gap_and_blanks_the_end(rt: HostRuntime) {
    let mut run = [line(9, 9, 9); 4];
    let mut table = Table::new(&mut run);
    assert_eq!(rt; table.add(line(1, 1, 1)), Ok(()));
    assert_eq!(rt; table.add(line(1, 2, 2)), Ok(()));
    assert_eq!(rt; table.add(line(1, 3, 3)), Ok(()));
    table.remove(&line(1, 2, 9));
    table.remove(&line(1, 4, 4));
    assert_eq!(rt; table.len(), 2, "an absent key removes nothing");
    assert_eq!(rt; table.entries().len(), 2);
    assert_eq!(rt; at(&table, 1), Some((1, 3, 3)));
    assert_eq!(rt; (run[2].shelf, run[2].row[0], run[2].count), (0, 0, 0));
    assert_eq!(rt; (run[3].shelf, run[3].row[0], run[3].count), (0, 0, 0));
}
