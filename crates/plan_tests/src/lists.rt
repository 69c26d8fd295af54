use crate::checking::check;

#[test]
fn pick(rt: HostRuntime) {
    assert_eq!(rt; check(&[0, 3, 2], 1), Err((1, 1)));
    assert_eq!(rt; check(&[0, 3, 2, 1], 1), Err((1, 3)));
    assert_eq!(rt; check(&[0, 3, 2, 0], 1), Err((1, 1)));
    assert_eq!(rt; check(&[0, 3, 2, 0, 0], 1), Err((1, 2)));
    assert_eq!(rt; check(&[0, 3, 2, 0, 9], 1), Err((1, 2)));
    assert_eq!(rt; check(&[0, 3, 2, 0, 2, 0], 1), Err((1, 1)));
    assert_eq!(rt; check(&[0, 3, 2, 0, 2, 3, 9], 1), Err((1, 4)));
    assert_eq!(rt; check(&[0, 3, 2, 0, 2, 0, 3], 1), Err((1, 4)));
    assert_eq!(rt;
        check(&[0, 3, 2, 0, 2, 2, 2], 1),
        Ok(2),
        "a column may come twice"
    );
    assert_eq!(rt; check(&[0, 3, 2, 0, 8, 0, 1, 2, 0, 1, 2, 0, 1], 1), Ok(2));
    assert_eq!(rt;
        check(&[0, 3, 2, 0, 1, 2, 2, 1, 1, 0], 1),
        Ok(3),
        "a pick of a pick"
    );
    assert_eq!(rt; check(&[0, 3, 2, 0, 1, 2, 2, 1, 1, 1], 1), Err((2, 4)));
}

#[test]
fn total(rt: HostRuntime) {
    assert_eq!(rt; check(&[0, 2, 6], 1), Err((1, 1)));
    assert_eq!(rt; check(&[0, 2, 6, 1], 1), Err((1, 3)));
    assert_eq!(rt; check(&[0, 2, 6, 0], 1), Err((1, 1)));
    assert_eq!(rt; check(&[0, 2, 6, 0, 2], 1), Err((1, 4)));
    assert_eq!(rt; check(&[0, 2, 6, 0, 1], 1), Err((1, 1)));
    assert_eq!(rt; check(&[0, 2, 6, 0, 1, 8], 1), Err((1, 2)));
    assert_eq!(rt; check(&[0, 2, 6, 0, 1, 1], 1), Err((1, 1)));
    assert_eq!(rt; check(&[0, 2, 6, 0, 1, 1, 2], 1), Err((1, 4)));
    assert_eq!(rt; check(&[0, 2, 6, 0, 1, 1, 0], 1), Ok(2));
    assert_eq!(rt; check(&[0, 2, 6, 0, 1, 0], 1), Ok(2), "one group");
}

#[test]
fn a_total_must_fit_in_8_columns(rt: HostRuntime) {
    assert_eq!(rt; check(&[0, 2, 6, 0, 1, 7, 0, 0, 0, 0, 0, 0, 0], 0), Ok(2));
    assert_eq!(rt;
        check(&[0, 2, 6, 0, 1, 7, 0, 0, 0, 0, 0, 0, 0], 1),
        Err((1, 5))
    );
    assert_eq!(rt;
        check(&[0, 2, 6, 0, 1, 7, 0, 0, 0, 0, 0, 0, 2], 1),
        Err((1, 4)),
        "the width comes last"
    );
    assert_eq!(rt;
        check(&[0, 2, 6, 0, 1, 7, 0, 0, 0, 0, 0, 0], 1),
        Err((1, 1))
    );
    assert_eq!(rt; check(&[0, 2, 6, 0, 1, 6, 0, 0, 0, 0, 0, 0], 1), Ok(2));
    assert_eq!(rt; check(&[0, 2, 6, 0, 1, 0], 7), Ok(2));
    assert_eq!(rt;
        check(&[0, 2, 6, 0, 1, 0], 8),
        Err((1, 5)),
        "8 shown columns fit no total"
    );
    assert_eq!(rt; check(&[0, 2, 6, 0, 1, 0], 255), Err((1, 5)));
    assert_eq!(rt; check(&[0, 2, 6, 0, 2, 0], 255), Err((1, 4)));
    assert_eq!(rt; check(&[0, 2, 4, 0, 0], 8), Ok(2));
    assert_eq!(rt; check(&[0, 2, 4, 0, 0], 255), Ok(2));
}

#[test]
fn a_total_is_as_wide_as_it_shows(rt: HostRuntime) {
    assert_eq!(rt; check(&[0, 2, 6, 0, 1, 1, 0, 2, 1, 1, 2], 1), Ok(3));
    assert_eq!(rt; check(&[0, 2, 6, 0, 1, 1, 0, 2, 1, 1, 3], 1), Err((2, 4)));
    assert_eq!(rt; check(&[0, 2, 6, 0, 1, 1, 0, 2, 1, 1, 3], 2), Ok(3));
}
