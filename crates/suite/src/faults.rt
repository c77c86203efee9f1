// Every refusal: its number, layer, positions and line.
use fault::{Fault, Layer, Placed, TableFault};
use std::process::Abort;
use std::test::Fail;

// A refusal, its layer, and its line, which has its number and positions.
#[derive(Clone, Copy)]
struct Row(Fault, Layer, &'static str);

fn told(rt: &(impl Abort + AllocGlobal), rows: &[Row]) -> Result<(), Fail> {
    for Row(fault, layer, line) in rows {
        let number = fault.number();
        let first = fault.first();
        let second = fault.second();
        let text = format!(in rt.alloc(); "refused {number} {first} {second}\n")?;
        assert_eq!(rt; text.as_str(), *line);
        assert_eq!(rt; fault.line(rt.alloc())?.as_str(), *line);
        assert_eq!(rt; fault.layer(), *layer);
    }
    Ok(())
}

#[test]
fn of_the_input(rt: HostRuntime) -> Result<(), Fail> {
    let step = Fault::Step {
        state: 7,
        transition: 65534,
    };
    told(
        &rt,
        &[
            Row(
                Fault::ShortFile { length: 27 },
                Layer::File,
                "refused 1 27 0\n",
            ),
            Row(Fault::Header { byte: 24 }, Layer::File, "refused 2 24 0\n"),
            Row(
                Fault::Sections { length: 1 << 32 },
                Layer::File,
                "refused 3 4294967296 0\n",
            ),
            Row(Fault::Rule { rule: 255 }, Layer::File, "refused 4 255 0\n"),
            Row(Fault::Block { block: 15 }, Layer::File, "refused 5 15 0\n"),
            Row(
                Fault::Node { node: 4095 },
                Layer::File,
                "refused 6 4095 0\n",
            ),
            Row(
                Fault::Edge { edge: 16383 },
                Layer::File,
                "refused 7 16383 0\n",
            ),
            Row(
                Fault::Shape { state: 65536 },
                Layer::Process,
                "refused 9 65536 0\n",
            ),
            Row(step, Layer::Process, "refused 10 7 65534\n"),
            Row(Fault::Oversize, Layer::File, "refused 11 0 0\n"),
        ],
    )
}

fn of_table(place: u8, fault: TableFault, line: &'static str) -> Row {
    Row(Fault::from(Placed { place, fault }), Layer::Table, line)
}

#[test]
fn of_a_table(rt: HostRuntime) -> Result<(), Fail> {
    told(
        &rt,
        &[
            of_table(7, TableFault::States, "refused 8 7 0\n"),
            of_table(0, TableFault::Transitions, "refused 8 0 4\n"),
            of_table(1, TableFault::Initial, "refused 8 1 8\n"),
            of_table(2, TableFault::Start { index: 0 }, "refused 8 2 12\n"),
            of_table(3, TableFault::Start { index: 4096 }, "refused 8 3 16396\n"),
            of_table(
                4,
                TableFault::CutOff { byte: 245784 },
                "refused 8 4 245784\n",
            ),
            of_table(5, TableFault::Excess { byte: 20 }, "refused 8 5 20\n"),
        ],
    )
}

#[test]
fn of_the_state(rt: HostRuntime) -> Result<(), Fail> {
    told(
        &rt,
        &[
            Row(Fault::Misfit, Layer::Remainder, "refused 20 0 0\n"),
            Row(Fault::NotLeft, Layer::Remainder, "refused 21 0 0\n"),
            Row(Fault::FewNodes, Layer::Remainder, "refused 22 0 0\n"),
            Row(Fault::FewEdges, Layer::Remainder, "refused 23 0 0\n"),
            Row(Fault::ShortBuffer, Layer::Remainder, "refused 24 0 0\n"),
            Row(Fault::PlacesLeft, Layer::Remainder, "refused 25 0 0\n"),
        ],
    )
}
