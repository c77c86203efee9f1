// The account of a whole case, section by section.
ghost use Rattle.std.specs.Prelude.{◌≡◌, ℕ, List, IfOk, string_bytes};
ghost use Rattle.fault.specs.Each.{Below, Each};
ghost use Rattle.format.specs.Layout.{scale_number};
ghost use Rattle.account.specs.Account.{scale_word, heading, section, rules_text, blocks_text, nodes_text, edges_text, place_text, places_text, account_text};

use crate::input::names_variants;
use format::CaseFile;
use lines::{block_line, edge_line, node_line, place_line, rule_line, whole};
use process::Process;
use std::alloc::{AllocError, Global};

// The word for the scale that the header names. A scale is a type, so there is no value of it to print.
fn scale_word(bytes: &[u8]) -> &'static str
    ensures { result.now ≡ scale_word (scale_number bytes.now) }
{
    if names_variants(bytes) {
        "variants"
    } else {
        "yes/no"
    }
}

fn heading(alloc: Global, case: &CaseFile<'_>) -> Result<String, AllocError>
    ensures { IfOk result (λ t. string_bytes t ≡ heading case.now.bytes.now case.now.header) }
{
    let scale = scale_word(case.bytes);
    let places = case.header.places;
    format!(in alloc; "scale {scale}\nplaces {places}\n")
}

// A title with the number of lines, and the lines.
fn section<F: Fn(u16) -> Result<String, AllocError>>(
    alloc: Global,
    title: &str,
    count: u16,
    line: F,
) -> Result<String, AllocError>
    requires { Below count (F.pre line) }
    ensures { (text : ℕ → List ℕ) → Each count (F.post line) (λ i r. IfOk r (λ t. string_bytes t ≡ text i)) → IfOk result (λ t. string_bytes t ≡ section title.now count text) }
{
    let lines = whole(alloc, count, line)?;
    format!(in alloc; "{title} {count}\n{lines}")
}

fn rules_text(alloc: Global, case: &CaseFile<'_>) -> Result<String, AllocError>
    ensures { IfOk result (λ t. string_bytes t ≡ rules_text case.now.bytes.now case.now.header) }
{
    section(alloc, "rules", case.header.rules, |r| {
        rule_line(alloc, r, &case.rule(r))
    })
}

fn blocks_text(alloc: Global, case: &CaseFile<'_>) -> Result<String, AllocError>
    ensures { IfOk result (λ t. string_bytes t ≡ blocks_text case.now.bytes.now case.now.header) }
{
    let count = u16::from(case.header.blocks);
    section(alloc, "blocks", count, |b| {
        block_line(alloc, b as u8, case.sign(b as u8))
    })
}

fn nodes_text(alloc: Global, case: &CaseFile<'_>) -> Result<String, AllocError>
    ensures { IfOk result (λ t. string_bytes t ≡ nodes_text case.now.bytes.now case.now.header) }
{
    let count = case.header.nodes;
    let initial = case.header.initial;
    let lines = whole(alloc, count, |i| node_line(alloc, i, &case.node(i)))?;
    format!(in alloc; "nodes {count}, initial {initial}\n{lines}")
}

fn edges_text(alloc: Global, case: &CaseFile<'_>) -> Result<String, AllocError>
    ensures { IfOk result (λ t. string_bytes t ≡ edges_text case.now.bytes.now case.now.header) }
{
    section(alloc, "edges", case.header.edges, |e| {
        edge_line(alloc, e, &case.edge(e))
    })
}

fn place_text(alloc: Global, case: &CaseFile<'_>, p: u8) -> Result<String, AllocError>
    ensures { IfOk result (λ t. string_bytes t ≡ place_text case.now.bytes.now case.now.header p) }
{
    let table = case.table_at(p);
    place_line(
        alloc,
        p,
        table.states(),
        table.transitions(),
        table.initial(),
    )
}

fn places_text(alloc: Global, case: &CaseFile<'_>) -> Result<String, AllocError>
    ensures { IfOk result (λ t. string_bytes t ≡ places_text case.now.bytes.now case.now.header) }
{
    let count = u16::from(case.header.places);
    whole(alloc, count, |p| place_text(alloc, case, p as u8))
}

// All that a person reads of the case.
#[tactic(auto, unfolding(crate::specs::Account::account_text))]
pub fn account(alloc: Global, case: &CaseFile<'_>) -> Result<String, AllocError>
    ensures { IfOk result (λ t. string_bytes t ≡ account_text case.now.bytes.now case.now.header) }
{
    let heading = heading(alloc, case)?;
    let rules = rules_text(alloc, case)?;
    let blocks = blocks_text(alloc, case)?;
    let nodes = nodes_text(alloc, case)?;
    let edges = edges_text(alloc, case)?;
    let places = places_text(alloc, case)?;
    format!(in alloc; "{heading}{rules}{blocks}{nodes}{edges}{places}")
}
