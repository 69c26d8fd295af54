use message::record::Record;
use message::round_trip::reread;
use message::writer::write;
use std::test::Fail;

fn plain() -> Record {
    Record {
        row: [0; 8],
        count: 1,
        node: 0,
        take: false,
    }
}

// A record with every field.
fn full() -> Record {
    Record {
        row: [-2147483647, 2, 3, 4, 5, 6, 7, 2147483647],
        count: 65535,
        node: 15,
        take: true,
    }
}

// The message's length, or the number and the place of the refusal.
fn written(records: &[Record], buffer: &mut [u8]) -> Result<usize, (u8, usize)> {
    write(records, buffer).map_err(|fault| (fault.number(), fault.place()))
}

#[test]
fn a_message_takes_1024_records(rt: HostRuntime) {
    let records = [plain(); 1025];
    let mut buffer = [7; 2050];
    assert_eq!(rt; written(&records, &mut buffer), Err((3, 1024)));
    assert_eq!(rt; buffer[0], 7, "a refusal leaves the buffer");
    assert_eq!(rt; written(&records[0..1024], &mut buffer), Ok(2048));
    assert_eq!(rt; buffer[2047], 0);
    assert_eq!(rt; buffer[2048], 7, "bytes behind the message stay");
}

#[test]
fn an_unlawful_record_is_refused(rt: HostRuntime) {
    let mut buffer = [7; 100];
    let mut smallest = full();
    smallest.row[7] = i32::MIN;
    assert_eq!(rt; written(&[full(), smallest], &mut buffer), Err((2, 1)));
    let mut none = plain();
    none.count = 0;
    assert_eq!(rt; written(&[none, smallest], &mut buffer), Err((2, 0)));
    let mut far = plain();
    far.node = 16;
    assert_eq!(rt; written(&[plain(), plain(), far], &mut buffer), Err((2, 2)));
    assert_eq!(rt; buffer[0], 7);
}

#[test]
fn a_short_buffer_is_refused(rt: HostRuntime) {
    let mut short = [7; 36];
    assert_eq!(rt; written(&[full()], &mut short), Err((8, 0)));
    assert_eq!(rt; short[0], 7);
    let mut buffer = [9; 37];
    assert_eq!(rt; written(&[full()], &mut buffer), Ok(37));
    assert_eq!(rt; buffer[0], 7, "the map's upper byte: count, node and take");
    assert_eq!(rt; buffer[1], 0xff);
    assert_eq!(rt; buffer[36], 15);
}

#[test]
fn fields_are_written_as_read(rt: HostRuntime) {
    let record = Record {
        row: [-2, 0, 0, 0, 0, 0, 0, 65538],
        count: 256,
        node: 2,
        take: true,
    };
    let mut buffer = [7; 14];
    assert_eq!(rt; written(&[record], &mut buffer), Ok(13));
    assert_eq!(rt;
        buffer,
        [0x07, 0x81, 0xff, 0xff, 0xff, 0xfe, 0, 1, 0, 2, 1, 0, 2, 7]
    );
}

#[test]
fn long_comes_before_unlawful_and_unlawful_before_short(rt: HostRuntime) {
    let mut none = plain();
    none.count = 0;
    let records = [none; 1025];
    assert_eq!(rt; written(&records, &mut [0; 0]), Err((3, 1024)));
    assert_eq!(rt; written(&records[0..1], &mut [0; 0]), Err((2, 0)));
}

#[test]
fn records_come_back(rt: HostRuntime) -> Result<(), Fail> {
    let mut buffer = [7; 50];
    let Ok(list) = reread(&[full(), plain()], &mut buffer) else {
        return Err(Fail::new("refused"));
    };
    let records = list.records();
    assert!(rt; records.len() == 2);
    assert_eq!(rt; records[0].row[0], -2147483647);
    assert_eq!(rt; records[0].count, 65535);
    assert_eq!(rt; records[0].node, 15);
    assert!(rt; records[0].take);
    assert_eq!(rt; records[1].count, 1);
    assert!(rt; !records[1].take);
    Ok(())
}
