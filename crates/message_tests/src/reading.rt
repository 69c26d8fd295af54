use message::reader::Reader;
use message::record_list::RecordList;
use std::test::Fail;

// How many records a message has, or the number and the place of its refusal.
fn read(bytes: &[u8]) -> Result<usize, (u8, usize)> {
    RecordList::read(bytes)
        .map(|list| list.records().len())
        .map_err(|fault| (fault.number(), fault.place()))
}

#[test]
fn a_message_holds_1024_records(rt: HostRuntime) {
    assert_eq!(rt; read(&[0; 0]), Ok(0));
    assert_eq!(rt; read(&[0; 2048]), Ok(1024));
    assert_eq!(rt;
        read(&[0; 2049]),
        Err((3, 2048)),
        "any byte behind the 1,024th record begins another"
    );
    assert_eq!(rt; read(&[0; 2050]), Err((3, 2048)));
}

#[test]
fn fields_are_read_as_written(rt: HostRuntime) -> Result<(), Fail> {
    let Ok(list) = RecordList::read(&[
        0x06, 0x81, 0xff, 0xff, 0xff, 0xfe, 0, 1, 0, 2, 2, 1, 0, 1, 0,
    ]) else {
        return Err(Fail::new("refused"));
    };
    let records = list.records();
    assert!(rt; records.len() == 2);
    assert_eq!(rt; records[0].row, [-2, 0, 0, 0, 0, 0, 0, 65538]);
    assert_eq!(rt; records[0].count, 1);
    assert_eq!(rt; records[0].node, 2);
    assert!(rt; records[0].take);
    assert_eq!(rt; records[1].row, [0; 8]);
    assert_eq!(rt; records[1].count, 256);
    assert_eq!(rt; records[1].node, 0);
    assert!(rt; !records[1].take);
    Ok(())
}

#[test]
fn every_column_cut_in_its_middle_is_torn(rt: HostRuntime) {
    for map in [1, 2, 4, 8, 16, 32, 64, 128] {
        assert_eq!(rt; read(&[0, map, 0, 0, 5]), Err((1, 0)));
    }
}

#[test]
fn a_field_cut_in_its_middle_is_torn(rt: HostRuntime) {
    assert_eq!(rt; read(&[0]), Err((1, 0)), "the map");
    assert_eq!(rt; read(&[0, 3, 0, 0, 0, 5, 0, 0, 0]), Err((1, 0)), "column 1");
    assert_eq!(rt; read(&[1, 0, 0]), Err((1, 0)), "the count");
    assert_eq!(rt; read(&[2, 0]), Err((1, 0)), "the node");
    assert_eq!(rt; read(&[0, 0, 0]), Err((1, 2)), "the second record's map");
}

#[test]
fn a_forbidden_bit_or_value_is_refused(rt: HostRuntime) {
    assert_eq!(rt; read(&[8, 0]), Err((2, 0)), "bit 11");
    assert_eq!(rt; read(&[0x80, 0]), Err((2, 0)), "bit 15");
    assert_eq!(rt;
        read(&[0, 1, 0, 0, 0, 0]),
        Err((2, 0)),
        "a column field of 0"
    );
    assert_eq!(rt;
        read(&[0, 1, 0x80, 0, 0, 0]),
        Err((2, 0)),
        "the smallest number"
    );
    assert_eq!(rt;
        read(&[0, 1, 0x80, 0, 0, 1]),
        Ok(1),
        "one above the smallest number"
    );
    assert_eq!(rt; read(&[0, 0, 1, 0, 0, 0]), Err((2, 2)), "a count of 0");
    assert_eq!(rt; read(&[1, 0, 0, 1]), Err((2, 0)), "a count field of 1");
    assert_eq!(rt; read(&[1, 0, 0, 2]), Ok(1));
    assert_eq!(rt; read(&[2, 0, 0]), Err((2, 0)), "a node field of 0");
    assert_eq!(rt; read(&[2, 0, 16]), Err((2, 0)));
    assert_eq!(rt; read(&[2, 0, 15]), Ok(1));
}

#[test]
fn torn_comes_before_forbidden(rt: HostRuntime) {
    assert_eq!(rt; read(&[0xf8, 1]), Err((1, 0)));
    assert_eq!(rt; read(&[0xf8, 1, 0, 0, 0, 0]), Err((2, 0)));
}

#[test]
fn the_cursor_stays_at_a_refusal_and_at_the_end(rt: HostRuntime) {
    let bytes = [4, 0, 1, 0, 0];
    let mut reader = Reader::new(&bytes);
    assert!(rt; matches!(reader.next(), Ok(Some(_))));
    assert_eq!(rt; reader.place(), 2);
    assert!(rt; matches!(reader.next(), Err(_)));
    assert!(rt; matches!(reader.next(), Err(_)));
    assert_eq!(rt; reader.place(), 2);
    let mut short = Reader::new(&bytes[0..2]);
    assert!(rt; matches!(short.next(), Ok(Some(_))));
    assert!(rt; matches!(short.next(), Ok(None)));
    assert!(rt; matches!(short.next(), Ok(None)));
}
