use crate::checking::check;
use plan::plan::Plan;
use std::test::Fail;

#[test]
fn a_refusal_has_the_number_12(rt: HostRuntime) {
    let fault = Plan::check(&[0, 9], 1).err();
    assert_eq!(rt; fault.map(|fault| fault.number()), Some(12));
}

#[test]
fn a_plan_has_a_node(rt: HostRuntime) {
    assert_eq!(rt; check(&[], 1), Err((0, 6)), "no node");
    assert_eq!(rt; check(&[7], 1), Err((0, 2)), "an unknown operator");
    assert_eq!(rt; check(&[255, 0, 0], 1), Err((0, 2)));
    assert_eq!(rt; check(&[0, 1, 7], 1), Err((1, 2)));
}

#[test]
fn base(rt: HostRuntime) {
    assert_eq!(rt; check(&[0], 1), Err((0, 1)));
    assert_eq!(rt; check(&[0, 0], 1), Err((0, 2)));
    assert_eq!(rt; check(&[0, 1], 1), Ok(1));
    assert_eq!(rt; check(&[0, 8], 1), Ok(1));
    assert_eq!(rt; check(&[0, 9], 1), Err((0, 2)));
    assert_eq!(rt; check(&[0, 8, 0], 1), Err((1, 1)));
}

#[test]
fn keep_with_a_number(rt: HostRuntime) {
    assert_eq!(rt; check(&[1, 0], 1), Err((0, 3)), "node 0 has no lower node");
    assert_eq!(rt; check(&[0, 2, 1], 1), Err((1, 1)));
    assert_eq!(rt; check(&[0, 2, 1, 1], 1), Err((1, 3)), "itself");
    assert_eq!(rt; check(&[0, 2, 1, 0], 1), Err((1, 1)));
    assert_eq!(rt; check(&[0, 2, 1, 0, 2], 1), Err((1, 4)));
    assert_eq!(rt; check(&[0, 2, 1, 0, 1], 1), Err((1, 1)));
    assert_eq!(rt; check(&[0, 2, 1, 0, 1, 6], 1), Err((1, 2)), "the relation");
    assert_eq!(rt; check(&[0, 2, 1, 0, 1, 5], 1), Err((1, 1)));
    assert_eq!(rt; check(&[0, 2, 1, 0, 1, 5, 2], 1), Err((1, 2)), "the kind");
    assert_eq!(rt; check(&[0, 2, 1, 0, 1, 5, 0, 1, 2, 3], 1), Err((1, 1)));
    assert_eq!(rt; check(&[0, 2, 1, 0, 1, 5, 0, 1, 2, 3, 4], 1), Ok(2));
}

#[test]
fn keep_with_a_column(rt: HostRuntime) {
    assert_eq!(rt; check(&[0, 2, 1, 0, 0, 0, 1], 1), Err((1, 1)));
    assert_eq!(rt; check(&[0, 2, 1, 0, 0, 0, 1, 2], 1), Err((1, 4)));
    assert_eq!(rt; check(&[0, 2, 1, 0, 0, 0, 1, 1], 1), Ok(2));
    assert_eq!(rt;
        check(&[0, 2, 1, 3, 9, 9, 9, 9], 1),
        Err((1, 3)),
        "the first bad field decides"
    );
    assert_eq!(rt; check(&[0, 2, 1, 0, 9, 9, 9, 9], 1), Err((1, 4)));
    assert_eq!(rt; check(&[0, 2, 1, 0, 0, 9, 9, 9], 1), Err((1, 2)));
}

#[test]
fn there_are_at_most_16_nodes(rt: HostRuntime) {
    let sixteen = [
        0, 1, 0, 2, 0, 3, 0, 4, 0, 5, 0, 6, 0, 7, 0, 8, 0, 1, 0, 2, 0, 3, 0, 4, 0, 5, 0, 6, 0, 7,
        0, 8,
    ];
    let more = [
        0, 1, 0, 2, 0, 3, 0, 4, 0, 5, 0, 6, 0, 7, 0, 8, 0, 1, 0, 2, 0, 3, 0, 4, 0, 5, 0, 6, 0, 7,
        0, 8, 255,
    ];
    assert_eq!(rt; check(&sixteen, 1), Ok(16));
    assert_eq!(rt; check(&sixteen[..31], 1), Err((15, 1)));
    assert_eq!(rt;
        check(&more, 1),
        Err((16, 6)),
        "any byte behind 16 whole nodes"
    );
}

#[test]
fn a_number_of_keep_has_four_bytes(rt: HostRuntime) {
    assert_eq!(rt;
        check(&[0, 2, 1, 0, 1, 5, 0], 1),
        Err((1, 1)),
        "no byte of the number"
    );
}

#[test]
fn keep_has_six_relations(rt: HostRuntime) {
    for relation in [0, 1, 2, 3, 4, 5] {
        assert_eq!(rt; check(&[0, 2, 1, 0, 1, relation, 1, 0], 1), Ok(2));
    }
    assert_eq!(rt; check(&[0, 2, 1, 0, 1, 255, 1, 0], 1), Err((1, 2)));
}

#[test]
fn no_operator_but_base_comes_first(rt: HostRuntime) {
    for operator in [1, 2, 3, 4, 5, 6] {
        assert_eq!(rt; check(&[operator, 0], 1), Err((0, 3)));
    }
    assert_eq!(rt; check(&[0, 2, 4, 0, 255], 1), Err((1, 3)));
}

#[test]
fn the_17th_node_is_refused(rt: HostRuntime) {
    let bytes = [
        0, 8, 0, 8, 0, 8, 0, 8, 0, 8, 0, 8, 0, 8, 0, 8, 0, 8, 0, 8, 0, 8, 0, 8, 0, 8, 0, 8, 0, 8,
        0, 8, 0, 8,
    ];
    assert_eq!(rt; check(&bytes[..30], 1), Ok(15));
    assert_eq!(rt; check(&bytes[..31], 1), Err((15, 1)));
    assert_eq!(rt; check(&bytes[..32], 1), Ok(16));
    assert_eq!(rt;
        check(&bytes[..33], 1),
        Err((16, 6)),
        "any byte behind 16 whole nodes"
    );
    assert_eq!(rt; check(&bytes, 1), Err((16, 6)), "and a whole node");
}

// What is printed of bytes that are no plan; of a plan, nothing.
fn printed(rt: &HostRuntime, bytes: &[u8], shown: u8) -> Result<String, Fail> {
    match Plan::check(bytes, shown) {
        Ok(_) => Ok(String::new(rt.alloc())),
        Err(fault) => Ok(format!(in rt.alloc(); "{fault}")?),
    }
}

#[test]
fn a_refused_plan_is_printed(rt: HostRuntime) -> Result<(), Fail> {
    assert_eq!(rt; printed(&rt, &[], 1)?.as_str(), "plan refused 12 at 0 6");
    assert_eq!(rt; printed(&rt, &[0], 1)?.as_str(), "plan refused 12 at 0 1");
    assert_eq!(rt;
        printed(&rt, &[0, 2, 7], 1)?.as_str(),
        "plan refused 12 at 1 2"
    );
    assert_eq!(rt;
        printed(&rt, &[0, 2, 4, 0, 1], 1)?.as_str(),
        "plan refused 12 at 1 3"
    );
    assert_eq!(rt;
        printed(&rt, &[0, 2, 6, 0, 2], 1)?.as_str(),
        "plan refused 12 at 1 4"
    );
    assert_eq!(rt;
        printed(&rt, &[0, 2, 6, 0, 1, 1, 0], 7)?.as_str(),
        "plan refused 12 at 1 5"
    );
    assert_eq!(rt; printed(&rt, &[0, 2, 6, 0, 1, 1, 0], 1)?.as_str(), "");
    Ok(())
}
