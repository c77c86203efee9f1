// What a checked case file holds, and its tables as processes.
use crate::processes::{Row, lists, step};
use crate::samples::{SESSION, VARIED, told};
use casefile::{check as check_file, make_table};
use format::CaseFile;
use process::{Process, SingleVariant};
use records::{Kind, NONE, Sign};
use scale::{Scale, Variants, YesNo};
use std::test::Fail;

pub fn checked<'a, S: Scale>(bytes: &'a [u8]) -> Result<CaseFile<'a>, Fail> {
    match check_file::<S>(bytes) {
        Ok(file) => Ok(file),
        Err(fault) => Err(Fail::new(fault.number())),
    }
}

#[test]
fn counts_and_rules(rt: HostRuntime) -> Result<(), Fail> {
    let file = checked::<YesNo>(&SESSION)?;
    let h = file.header;
    assert_eq!(rt; (h.places, h.rules, h.blocks), (2, 2, 1));
    assert_eq!(rt; (h.nodes, h.edges, h.initial), (2, 2, 0));
    let rule = file.rule(1);
    assert_eq!(rt; rule.labels, [2, 2, NONE, NONE, NONE, NONE, NONE, NONE]);
    assert_eq!(rt; (file.rule(0).result, rule.result), (1, 2));
    // which places take part
    for (place, part) in [(0, true), (1, true), (2, false), (255, false)] {
        assert_eq!(rt; rule.takes_part(place), part);
    }
    Ok(())
}

#[test]
fn blocks_nodes_and_edges(rt: HostRuntime) -> Result<(), Fail> {
    let file = checked::<Variants>(&VARIED)?;
    assert_eq!(rt; file.sign(0), Sign::Least);
    assert_eq!(rt; file.sign(1), Sign::Greatest);
    let any_of = file.node(0);
    assert_eq!(rt; (any_of.kind, any_of.block), (Kind::AnyOf, 0));
    assert_eq!(rt; (any_of.first, any_of.count, any_of.value), (0, 1, 0));
    let fixed = file.node(2);
    assert_eq!(rt; (fixed.kind, fixed.block), (Kind::Fixed, 1));
    assert_eq!(rt;
        (fixed.first, fixed.count, fixed.value),
        (3, 0, (1 << 63) + 6)
    );
    // label and target of each edge
    for (e, edge) in (0..3).zip([(7, 1), (NONE, 1), (7, 2)]) {
        assert_eq!(rt; (file.edge(e).label, file.edge(e).target), edge);
    }
    Ok(())
}

// What making the table of a place answers: the refusal's number and positions, all 0 where there is none.
fn making<S: Scale>(bytes: &[u8], place: u8) -> (u8, u64, u64) {
    match make_table::<S>(bytes, place) {
        Ok(_) => (0, 0, 0),
        Err(fault) => told(fault),
    }
}

// The file's own refusal comes before that of a place which it lacks.
#[test]
fn places(rt: HostRuntime) {
    for (place, number) in [(0, 0), (1, 0), (2, 21), (255, 21)] {
        assert_eq!(rt; making::<YesNo>(&SESSION, place), (number, 0, 0));
        assert_eq!(rt; making::<Variants>(&SESSION, place), (2, 0, 0));
        assert_eq!(rt; making::<YesNo>(&SESSION[0..27], place), (1, 27, 0));
        assert_eq!(rt; making::<YesNo>(&SESSION[0..192], place), (8, 1, 44));
    }
}

#[test]
fn tables_as_processes(rt: HostRuntime) -> Result<(), Fail> {
    let Ok(table) = make_table::<Variants>(&VARIED, 0) else {
        return Err(Fail::new("no table"));
    };
    assert_eq!(rt; (table.states(), table.initial()), (3, 1));
    lists(
        &rt,
        &table,
        &[
            Row(0, 1, step(7, 6, 1), None),
            Row(1, 2, step(7, 3, 2), step(8, u64::MAX, 0)),
            Row(2, 0, None, None),
            Row(3, 0, None, None),
            Row(u32::MAX, 0, None, None),
        ],
    );
    lists(
        &rt,
        &SingleVariant {
            variant: 2,
            process: table,
        },
        &[
            Row(0, 1, step(7, 1, 1), None),
            Row(1, 2, step(7, 0, 2), step(8, 1, 0)),
            Row(3, 0, None, None),
        ],
    );
    Ok(())
}
