use crate::checking;

// For a measure that shows one column.
fn check(bytes: &[u8]) -> Result<usize, (u8, u8)> {
    checking::check(bytes, 1)
}

#[test]
fn pair(rt: HostRuntime) {
    assert_eq!(rt; check(&[0, 4, 0, 4, 3]), Err((2, 1)));
    assert_eq!(rt; check(&[0, 4, 0, 4, 3, 2]), Err((2, 3)));
    assert_eq!(rt; check(&[0, 4, 0, 4, 3, 0]), Err((2, 1)));
    assert_eq!(rt; check(&[0, 4, 0, 4, 3, 0, 2]), Err((2, 3)));
    assert_eq!(rt; check(&[0, 4, 0, 4, 3, 0, 1]), Err((2, 1)));
    assert_eq!(rt; check(&[0, 4, 0, 4, 3, 0, 1, 5]), Err((2, 2)));
    assert_eq!(rt; check(&[0, 4, 0, 4, 3, 0, 1, 1]), Err((2, 1)));
    assert_eq!(rt; check(&[0, 4, 0, 4, 3, 0, 1, 1, 4]), Err((2, 4)));
    assert_eq!(rt; check(&[0, 4, 0, 4, 3, 0, 1, 1, 3]), Err((2, 1)));
    assert_eq!(rt; check(&[0, 4, 0, 4, 3, 0, 1, 1, 3, 4]), Err((2, 4)));
    assert_eq!(rt;
        check(&[0, 4, 0, 4, 3, 0, 1, 0]),
        Ok(3),
        "every row with every row"
    );
    assert_eq!(rt;
        check(&[0, 4, 0, 4, 3, 0, 1, 4, 0, 0, 1, 1, 2, 2, 3, 3]),
        Ok(3)
    );
}

#[test]
fn the_sides_of_a_pair(rt: HostRuntime) {
    assert_eq!(rt; check(&[0, 1, 0, 2, 3, 0, 1, 1, 0, 1]), Ok(3));
    assert_eq!(rt; check(&[0, 1, 0, 2, 3, 0, 1, 1, 1, 0]), Err((2, 4)));
    assert_eq!(rt; check(&[0, 1, 0, 2, 3, 1, 0, 1, 1, 0]), Ok(3));
    assert_eq!(rt; check(&[0, 4, 0, 5, 3, 0, 1, 0]), Err((2, 5)));
    assert_eq!(rt;
        check(&[0, 4, 0, 5, 3, 0, 1, 1, 0, 5]),
        Err((2, 4)),
        "the width comes last"
    );
    assert_eq!(rt; check(&[0, 4, 0, 5, 3, 0, 1, 1, 0]), Err((2, 1)));
    assert_eq!(rt;
        check(&[0, 4, 3, 0, 0, 0, 2, 1, 1, 7]),
        Ok(3),
        "a pair is as wide as both"
    );
    assert_eq!(rt; check(&[0, 3, 3, 0, 0, 0, 2, 1, 1, 6]), Err((2, 4)));
}

#[test]
fn both(rt: HostRuntime) {
    assert_eq!(rt; check(&[0, 2, 0, 2, 4]), Err((2, 1)));
    assert_eq!(rt; check(&[0, 2, 0, 2, 4, 2]), Err((2, 3)));
    assert_eq!(rt; check(&[0, 2, 0, 2, 4, 0]), Err((2, 1)));
    assert_eq!(rt; check(&[0, 2, 0, 2, 4, 0, 2]), Err((2, 3)));
    assert_eq!(rt; check(&[0, 2, 0, 2, 4, 0, 1]), Ok(3));
    assert_eq!(rt; check(&[0, 2, 0, 3, 4, 0, 1]), Err((2, 5)));
    assert_eq!(rt; check(&[0, 2, 0, 3, 4, 1, 0]), Err((2, 5)));
}

#[test]
fn less(rt: HostRuntime) {
    assert_eq!(rt; check(&[0, 2, 0, 2, 5]), Err((2, 1)));
    assert_eq!(rt; check(&[0, 2, 0, 2, 5, 2]), Err((2, 3)));
    assert_eq!(rt; check(&[0, 2, 0, 2, 5, 0]), Err((2, 1)));
    assert_eq!(rt; check(&[0, 2, 0, 2, 5, 0, 2]), Err((2, 3)));
    assert_eq!(rt; check(&[0, 2, 0, 2, 5, 1, 0]), Ok(3));
    assert_eq!(rt; check(&[0, 2, 0, 3, 5, 0, 1]), Err((2, 5)));
    assert_eq!(rt; check(&[0, 3, 0, 2, 5, 0, 1]), Err((2, 5)));
}

#[test]
fn both_sides_may_be_the_same_node(rt: HostRuntime) {
    assert_eq!(rt; check(&[0, 4, 3, 0, 0, 1, 0, 3]), Ok(2), "a pair");
    assert_eq!(rt; check(&[0, 2, 4, 0, 0]), Ok(2), "a union");
    assert_eq!(rt; check(&[0, 2, 5, 0, 0]), Ok(2), "a difference");
}
