// Rule books, room for graphs, and the opening of a case.
use crate::reading::checked;
use crate::samples::{SESSION, VARIED};
use book::RuleBook;
use calls::Memories;
use fault::Fault;
use fit::{check_fit, fits};
use opening::open;
use records::{Edge, Guard, Kind, Node, Sign};
use scale::{Variants, YesNo};
use std::test::Fail;
use writing::check_count;

const NODE: Node = Node {
    kind: Kind::Fixed,
    block: 9,
    first: 9,
    count: 9,
    value: 9,
};

const EDGE: Edge = Edge {
    guard: Guard::Plain,
    weight: 9,
    target: 9,
};

// A book takes in one case after another.
#[test]
fn rule_books(rt: HostRuntime) -> Result<(), Fail> {
    let mut book = RuleBook::new(rt.alloc())?;
    assert_eq!(rt;
        (book.places(), book.rules().len(), book.signs().len()),
        (0, 0, 0)
    );
    let file = checked::<YesNo>(&SESSION)?;
    assert!(rt; book.fill(&file));
    assert_eq!(rt;
        (book.places(), book.rules().len(), book.signs().len()),
        (2, 2, 1)
    );
    assert_eq!(rt; book.rules().get(1).copied(), Some(file.rule(1)));
    let varied = checked::<Variants>(&VARIED)?;
    assert!(rt; book.fill(&varied));
    assert_eq!(rt; (book.places(), book.rules().len()), (1, 1));
    assert_eq!(rt; book.signs().get(1).copied(), Some(Sign::Greatest));
    Ok(())
}

// Just as many rows as are wanted do; the limit itself is allowed.
#[test]
fn rooms(rt: HostRuntime) {
    let rows = [0u8; 3];
    for (n, most, answer) in [
        (3, 3, Ok(())),
        (4, 9, Err(Fault::FewNodes)),
        (3, 2, Err(Fault::FewNodes)),
        (0, 0, Ok(())),
    ] {
        assert_eq!(rt; check_count(n, &rows, most, Fault::FewNodes), answer);
    }
}

// The yes/no sample in memories with one entry to spare, and in too small ones.
#[test]
fn openings(rt: HostRuntime) -> Result<(), Fail> {
    let mut book = RuleBook::new(rt.alloc())?;
    let mut nodes = [NODE; 3];
    let mut edges = [EDGE; 3];
    let short = open::<YesNo>(&SESSION, &mut book, &mut nodes[0..1], &mut edges);
    assert!(rt; matches!(short, Err(Fault::FewNodes)));
    let short = open::<YesNo>(&SESSION, &mut book, &mut nodes, &mut edges[0..1]);
    assert!(rt; matches!(short, Err(Fault::FewEdges)));
    assert_eq!(rt; (book.places(), nodes[0], edges[0]), (0, NODE, EDGE));
    let Ok(opened) = open::<YesNo>(&SESSION, &mut book, &mut nodes, &mut edges) else {
        return Err(Fail::new("refused"));
    };
    assert_eq!(rt; (opened.nodes, opened.edges), (2, 2));
    assert_eq!(rt; (opened.initial, opened.left), (0, 3));
    // labels 2 and 1 are the results of rules 1 and 0
    for (e, (rule, target)) in [(1, 1), (0, 0)].iter().enumerate() {
        let ruled = Edge {
            guard: Guard::By { rule: *rule },
            weight: 1,
            target: *target,
        };
        assert_eq!(rt; edges[e], ruled);
    }
    assert_eq!(rt; (edges[2], nodes[2]), (EDGE, NODE));
    let memory = Memories {
        nodes: &nodes,
        edges: &edges,
    };
    assert!(rt; fits::<YesNo>(&book, &opened, &memory));
    assert!(rt; check_fit::<YesNo>(&book, &opened, &memory).is_ok());
    Ok(())
}
