// Making a rule book and filling it.
ghost use Rattle.std.specs.Prelude.{◌≡◌, ◌<◌, ◌≤◌, ℕ, true, List, map, IfOk, if◌then◌else◌, vec_capacity};
ghost use Rattle.std.specs.List.{range_with_len};
ghost use Rattle.fault.specs.Each.{Below, Each};
ghost use Rattle.format.specs.Layout.{rule_row, block_sign};
ghost use Rattle.meaning.specs.Check.{all, every};
ghost use Rattle.calls.specs.Opening.{book_in};
ghost use Rattle.book.specs.Cases.{blank, holds};
ghost use Rattle.book.specs.Parts.{has_part};

use super::RuleBook;
use format::CaseFile;
use records::{Rule, Sign};
use std::alloc::{AllocError, Global};

// How many rules and blocks a book has room for.
const RULES: u16 = 256;

const BLOCKS: u8 = 16;

// Some of the first `places` places takes part in the rule.
fn has_part(places: u8, rule: &Rule) -> bool
    ensures { result ≡ has_part places rule.now }
{
    (0..places).any(|place| rule.takes_part(place))
}

// Every rule of the case has a participant within its places.
fn all_parts(file: &CaseFile) -> bool
    ensures { result ≡ all file.now.header.rules (λ i. has_part file.now.header.places (rule_row file.now.bytes.now file.now.header i)) }
{
    (0..file.header.rules).all(|i| has_part(file.header.places, &file.rule(i)))
}

// `count` rows in place of those that are there, in the room that there is.
fn refill<T: Drop, F: Fn(u16) -> T>(rows: &mut Vec<T>, count: u16, row: F)
    requires callable { Below count (F.pre row) }
    requires room { count ≤ vec_capacity rows.old }
    ensures items { (value : ℕ → T) → Each count (F.post row) (λ i x. x ≡ value i) → rows.new.items ≡ map value (range_with_len 0 count) }
    ensures capacity { vec_capacity rows.new ≡ vec_capacity rows.old }
{
    rows.clear();
    // the rows in their order
    for i in 0..count {
        rows.push_reserved(row(i));
    }
}

impl RuleBook {
    // A book that holds no case yet, with room for any.
    pub fn new(alloc: Global) -> Result<RuleBook, AllocError>
        ensures { IfOk result (λ b. b ≡ blank) }
    {
        let rules = Vec::with_capacity(alloc, usize::from(RULES))?;
        let signs = Vec::with_capacity(alloc, usize::from(BLOCKS))?;
        Ok(RuleBook {
            places: 0,
            rules,
            signs,
        })
    }

    // Fills the book with the case, where it can hold it; otherwise the book stays as it is. A `bool`, since what a
    // book can hold is one test, and no definition tells its reasons apart.
    pub fn fill(&mut self, file: &CaseFile) -> bool
        ensures test { result ≡ holds file.now.bytes.now file.now.header }
        ensures after { self.new ≡ (if result then book_in file.now.bytes.now file.now.header else self.old) }
        ensures parts { every (has_part self.new.places) self.new.rules ≡ true }
    {
        // looking inside tells the proof that the book as it is has `parts`
        let _ = &self.rules;
        if file.header.rules > RULES || file.header.blocks > BLOCKS || !all_parts(file) {
            return false;
        }
        refill(&mut self.rules, file.header.rules, |i| file.rule(i));
        refill(
            &mut self.signs,
            u16::from(file.header.blocks),
            |i| file.sign(i as u8),
        );
        self.places = file.header.places;
        true
    }
}
