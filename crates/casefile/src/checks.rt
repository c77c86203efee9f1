// The checks of a case file, each over the whole file before the next; the first fault is reported.
ghost use Rattle.std.specs.Prelude.{◌≡◌, ◌+◌, ◌≤◌, Some};
ghost use Rattle.std.specs.Option.{option_map};
ghost use Rattle.fault.specs.First.{earliest, Answers, Passes};
ghost use Rattle.fault.specs.declared.Fault.TheVariants as faults;
ghost use Rattle.format.specs.Case.{IsCaseOf};
ghost use Rattle.format.specs.Layout.{header_of, node_row, table_in};
ghost use Rattle.casefile.specs.Refusal.{sections_fault, has_participant, rule_fault, block_fault, due, value_wrong, node_fault, LaidOut, owned_fault, own_fault, edge_fault, tables_fault, file_fault, making_fault};
ghost use Rattle.casefile.specs.TableFault.{table_fault};
ghost use Rattle.casefile.specs.WellFormed.{ExactlyWellFormed};

use crate::header_check::read_header;
use crate::table_checks::{Counted, check_table, placed};
use fault::{Fault, check_each};
use format::{CaseFile, Table};
use records::{Kind, NONE, Sign};
use scale::Scale;

// Rules, blocks, nodes and edges end within the file.
fn check_sections(file: &CaseFile) -> Result<(), Fault>
    ensures { Passes (sections_fault file.now.bytes.now file.now.header) result }
{
    let length = file.bytes.len();
    if length < file.header.tables_at() {
        Err(Fault::Sections {
            length: length as u64,
        })
    } else {
        Ok(())
    }
}

fn has_participant(file: &CaseFile, rule: u16) -> bool
    ensures { result ≡ has_participant file.now.bytes.now file.now.header rule }
{
    (0..file.header.places).any(|place| file.label(rule, place) != NONE)
}

// The rule has a participant and a result.
fn check_rule(file: &CaseFile, rule: u16) -> Result<(), Fault>
    ensures { Passes (rule_fault file.now.bytes.now file.now.header rule) result }
{
    if !has_participant(file, rule) || file.label(rule, file.header.places) == NONE {
        Err(Fault::Rule { rule })
    } else {
        Ok(())
    }
}

fn check_rules(file: &CaseFile) -> Result<(), Fault>
    ensures { Passes (earliest file.now.header.rules (rule_fault file.now.bytes.now file.now.header)) result }
{
    check_each(
        u32::from(file.header.rules),
        |rule| check_rule(file, rule as u16),
    )
}

#[tactic(auto, using(crate::proofs::Codes::no_sign))]
fn check_block(file: &CaseFile, block: u8) -> Result<(), Fault>
    ensures { Passes (block_fault file.now.bytes.now file.now.header block) result }
{
    if Sign::try_from(file.block_code(block)).is_err() {
        Err(Fault::Block { block })
    } else {
        Ok(())
    }
}

fn check_blocks(file: &CaseFile) -> Result<(), Fault>
    ensures { Passes (earliest file.now.header.blocks (block_fault file.now.bytes.now file.now.header)) result }
{
    check_each(
        u32::from(file.header.blocks),
        |block| check_block(file, block as u8),
    )
}

// Where node `i`'s edges are to begin.
fn due(file: &CaseFile, i: u16) -> u64
    ensures { result ≡ due file.now.bytes.now file.now.header i }
{
    if i == 0 { 0 } else { file.node(i - 1).end() }
}

// A fixed node has a value of the scale and no edges, any other the value 0. Told of the file's code, which may stand for
// no kind.
#[tactic(auto, using(crate::proofs::Codes::fixed_code))]
fn value_wrong<S: Scale>(file: &CaseFile, i: u16) -> bool
    ensures { result ≡ value_wrong S.Scale.algebra file.now.bytes.now file.now.header i }
{
    let node = file.node(i);
    if Kind::try_from(file.kind_code(i)) == Ok(Kind::Fixed) {
        !S::is_value(node.value) || node.count != 0
    } else {
        node.value != 0
    }
}

fn check_node<S: Scale>(file: &CaseFile, i: u16) -> Result<(), Fault>
    ensures { Passes (node_fault S.Scale.algebra file.now.bytes.now file.now.header i) result }
{
    let node = file.node(i);
    let wrong = Kind::try_from(file.kind_code(i)).is_err()
        || node.block >= file.header.blocks
        || u64::from(node.first) != due(file, i)
        || node.end() > u64::from(file.header.edges)
        || value_wrong::<S>(file, i);
    if wrong {
        Err(Fault::Node { node: i })
    } else {
        Ok(())
    }
}

fn check_nodes<S: Scale>(file: &CaseFile) -> Result<(), Fault>
    ensures { Passes (earliest file.now.header.nodes (node_fault S.Scale.algebra file.now.bytes.now file.now.header)) result }
{
    check_each(
        u32::from(file.header.nodes),
        |i| check_node::<S>(file, i as u16),
    )
}

// Edge `e` of node `i` has a target, in no lower block, and nothing between label and target.
fn check_edge(file: &CaseFile, i: u16, e: u16) -> Result<(), Fault>
    ensures { Passes (owned_fault file.now.bytes.now file.now.header (Some i) e) result }
{
    let target = file.edge(e).target;
    let wrong = target >= u32::from(file.header.nodes)
        || file.edge_zero(e) != 0
        || file.node(target as u16).block < file.node(i).block;
    if wrong {
        Err(Fault::Edge { edge: e })
    } else {
        Ok(())
    }
}

fn check_edges_of(file: &CaseFile, i: u16) -> Result<(), Fault>
    requires { (node_row file.now.bytes.now file.now.header i).first + (node_row file.now.bytes.now file.now.header i).count ≤ 16384 }
    ensures { Passes (own_fault file.now.bytes.now file.now.header i) result }
{
    let node = file.node(i);
    check_each(node.count, |k| check_edge(file, i, (node.first + k) as u16))
}

fn check_edges(file: &CaseFile) -> Result<(), Fault>
    requires { LaidOut file.now.bytes.now file.now.header }
    ensures { Passes (earliest file.now.header.edges (edge_fault file.now.bytes.now file.now.header)) result }
{
    // the edges node by node, which is their order
    check_each(
        u32::from(file.header.nodes),
        |i| check_edges_of(file, i as u16),
    )?;
    let end = due(file, file.header.nodes);
    if end < u64::from(file.header.edges) {
        Err(Fault::Edge { edge: end as u16 })
    } else {
        Ok(())
    }
}

// The table of the place, with that place.
fn check_table_at(file: &CaseFile, place: u8) -> Result<(), Fault>
    ensures { Passes (option_map (faults.Table place) (table_fault (table_in file.now.bytes.now file.now.header place))) result }
{
    placed(place, check_table(&file.table_at(place)))?;
    Ok(())
}

// Each table, and nothing behind the last one.
fn check_tables(file: &CaseFile) -> Result<(), Fault>
    requires { 1 ≤ file.now.header.places }
    ensures { Passes (tables_fault file.now.bytes.now file.now.header) result }
{
    check_each(
        u32::from(file.header.places),
        |place| check_table_at(file, place as u8),
    )?;
    let last = file.header.places - 1;
    let table = Counted {
        table: file.table_at(last),
    };
    placed(last, table.check_end())?;
    Ok(())
}

// The case file that the bytes are at the scale, or the first fault in them.
#[tactic(auto, using(crate::proofs::Fine::laid_out))]
pub fn check<'a, S: Scale>(bytes: &'a [u8]) -> Result<CaseFile<'a>, Fault>
    ensures { Answers (file_fault S.Scale.algebra S.Scale.NUMBER bytes.now) (IsCaseOf bytes.now) result }
{
    let header = read_header(bytes, S::NUMBER)?;
    let file = CaseFile { bytes, header };
    check_sections(&file)?;
    check_rules(&file)?;
    check_blocks(&file)?;
    check_nodes::<S>(&file)?;
    check_edges(&file)?;
    check_tables(&file)?;
    Ok(file)
}

// The table of the place in a case file, which is checked whole.
pub fn make_table<'a, S: Scale>(bytes: &'a [u8], place: u8) -> Result<Table<'a>, Fault>
    ensures { Answers (making_fault S.Scale.algebra S.Scale.NUMBER bytes.now place) (λ t. t.bytes.now ≡ table_in bytes.now (header_of bytes.now) place) result }
{
    let file = check::<S>(bytes)?;
    file.table(place).ok_or(Fault::NotLeft)
}

// The contract is the theorem: the check accepts a case file exactly where it is well formed.
#[tactic(auto, using(crate::proofs::Accepts::exactly))]
pub fn accepts_well_formed()
    ensures { ExactlyWellFormed }
{}
