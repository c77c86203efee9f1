// The lines on rules, blocks, nodes, edges and places.
ghost use Rattle.std.specs.Prelude.{◌≡◌, ◌<◌, List, IfOk, string_bytes};
ghost use Rattle.records.specs.Words.{kind_word};
ghost use Rattle.lines.specs.Lines.{part, rule_line, block_line, joint_line, fixed_line, node_line, edge_line, place_line};

use crate::digits::hex;
use crate::pieces::whole;
use format::FormulaEdge;
use records::{Kind, NONE, Node, PLACES, Rule, Sign};
use std::alloc::{AllocError, Global};

// What a rule asks of a place; nothing where the place does not take part.
fn part(alloc: Global, rule: &Rule, place: u8) -> Result<String, AllocError>
    ensures { IfOk result (λ t. string_bytes t ≡ part rule.now place) }
{
    if rule.takes_part(place) {
        let label = rule.label(place);
        format!(in alloc; "place {place} by {label}, ")
    } else {
        Ok(String::new(alloc))
    }
}

pub fn rule_line(alloc: Global, i: u16, rule: &Rule) -> Result<String, AllocError>
    ensures { IfOk result (λ t. string_bytes t ≡ rule_line i rule.now) }
{
    let parts = whole(alloc, PLACES as u16, |place| part(alloc, rule, place as u8))?;
    let result = rule.result;
    format!(in alloc; "rule {i}: {parts}result {result}\n")
}

pub fn block_line(alloc: Global, b: u8, sign: Sign) -> Result<String, AllocError>
    ensures { IfOk result (λ t. string_bytes t ≡ block_line b sign) }
{
    format!(in alloc; "block {b}: {sign}\n")
}

// The line on a node of edges.
fn joint_line(alloc: Global, i: u16, node: &Node) -> Result<String, AllocError>
    ensures { IfOk result (λ t. string_bytes t ≡ joint_line (kind_word node.now.kind) i node.now) }
{
    let kind = node.kind;
    let block = node.block;
    let count = node.count;
    let first = node.first;
    format!(in alloc; "node {i}: {kind}, block {block}, {count} edges from {first}\n")
}

// The line on a node with a value of its own.
fn fixed_line(alloc: Global, i: u16, node: &Node) -> Result<String, AllocError>
    ensures { IfOk result (λ t. string_bytes t ≡ fixed_line i node.now) }
{
    let digits = hex(alloc, node.value)?;
    let block = node.block;
    format!(in alloc; "node {i}: fixed {digits}, block {block}\n")
}

pub fn node_line(alloc: Global, i: u16, node: &Node) -> Result<String, AllocError>
    ensures { IfOk result (λ t. string_bytes t ≡ node_line i node.now) }
{
    match node.kind {
        Kind::AnyOf | Kind::AllOf => joint_line(alloc, i, node),
        Kind::Fixed => fixed_line(alloc, i, node),
    }
}

pub fn edge_line(alloc: Global, e: u16, edge: &FormulaEdge) -> Result<String, AllocError>
    ensures { IfOk result (λ t. string_bytes t ≡ edge_line e edge.now) }
{
    let label = edge.label;
    let target = edge.target;
    if label == NONE {
        format!(in alloc; "edge {e}: plain to node {target}\n")
    } else {
        format!(in alloc; "edge {e}: label {label} to node {target}\n")
    }
}

pub fn place_line(
    alloc: Global,
    p: u8,
    states: u32,
    transitions: u32,
    initial: u32,
) -> Result<String, AllocError>
    ensures { IfOk result (λ t. string_bytes t ≡ place_line p states transitions initial) }
{
    format!(in alloc; "place {p}: {states} states, {transitions} transitions, initial {initial}\n")
}
