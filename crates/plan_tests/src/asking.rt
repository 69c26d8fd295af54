use bag::condition::{Operand, Relation};
use plan::node::{ColumnPair, Listed, Node};
use plan::plan::Plan;

// The width of a node's rows in a plan over rows of 3 columns: keep, pair, pick, total.
fn width(i: usize) -> Option<u8> {
    let bytes = [
        0, 3, 1, 0, 2, 4, 0, 255, 255, 255, 254, 3, 0, 1, 1, 2, 0, 2, 2, 2, 5, 0, 6, 2, 3, 1, 4,
    ];
    Plan::check(&bytes, 2).ok()?.width(i)
}

#[test]
fn widths_of_nodes(rt: HostRuntime) {
    assert_eq!(rt; width(0), Some(3));
    assert_eq!(rt; width(1), Some(3));
    assert_eq!(rt; width(2), Some(6));
    assert_eq!(rt; width(3), Some(2));
    assert_eq!(rt; width(4), Some(4));
    assert_eq!(rt; width(5), None);
}

// The number that column 2 is compared with in a plan of a base and a keep.
fn constant(i: usize) -> Option<i32> {
    let plan = Plan::check(&[0, 3, 1, 0, 2, 4, 0, 255, 255, 255, 254], 2).ok()?;
    match plan.node(i)? {
        Node::Keep {
            child: 0,
            column: 2,
            relation: Relation::GreaterOrEqual,
            operand: Operand::Constant(v),
        } => Some(v),
        _ => None,
    }
}

#[test]
fn nodes_of_a_plan(rt: HostRuntime) {
    assert_eq!(rt; constant(0), None);
    assert_eq!(rt; constant(1), Some(-2));
    assert_eq!(rt; constant(2), None);
}

// A pair of the bases 0 and 1 with the listed columns.
fn pair(count: u8, places: [ColumnPair; 4]) -> Node {
    Node::Pair {
        left: 0,
        right: 1,
        pairs: Listed { count, places },
    }
}

const ZEROS: ColumnPair = ColumnPair { left: 0, right: 0 };

#[test]
fn pairs_keep_their_sides(rt: HostRuntime) {
    let two = Plan::check(&[0, 4, 0, 3, 3, 0, 1, 2, 0, 0, 3, 1], 0).ok();
    assert_eq!(rt;
        two.and_then(|plan| plan.node(2)),
        Some(pair(2, [ZEROS, ColumnPair { left: 3, right: 1 }, ZEROS, ZEROS]))
    );
    let one = Plan::check(&[0, 4, 0, 3, 3, 0, 1, 1, 3, 1], 0).ok();
    assert_eq!(rt;
        one.and_then(|plan| plan.node(2)),
        Some(pair(1, [ColumnPair { left: 3, right: 1 }, ZEROS, ZEROS, ZEROS])),
        "unused places are 0"
    );
}

#[test]
fn a_plan_keeps_the_shown_columns(rt: HostRuntime) {
    let three = Plan::check(&[0, 8], 3).ok();
    assert_eq!(rt; three.map(|plan| plan.shown_columns()), Some(3));
    let many = Plan::check(&[0, 8], 200).ok();
    assert_eq!(rt; many.map(|plan| plan.shown_columns()), Some(8));
}

// A node of a plan of all operators but keep and pair.
fn node(i: usize) -> Option<Node> {
    let bytes = [0, 3, 2, 0, 2, 2, 1, 4, 1, 1, 5, 2, 1, 6, 0, 2, 1, 1];
    Plan::check(&bytes, 2).ok()?.node(i)
}

#[test]
fn each_operator_comes_back(rt: HostRuntime) {
    assert_eq!(rt; node(0), Some(Node::Base { width: 3 }));
    let columns = Listed {
        count: 2,
        places: [2, 1, 0, 0, 0, 0, 0, 0],
    };
    assert_eq!(rt; node(1), Some(Node::Pick { child: 0, columns }));
    assert_eq!(rt; node(2), Some(Node::Both { left: 1, right: 1 }));
    assert_eq!(rt; node(3), Some(Node::Less { left: 2, right: 1 }));
    let columns = Listed {
        count: 1,
        places: [1, 0, 0, 0, 0, 0, 0, 0],
    };
    assert_eq!(rt;
        node(4),
        Some(Node::Total {
            child: 0,
            measured: 2,
            columns,
        })
    );
    assert_eq!(rt; node(5), None, "there is no node 5");
}
