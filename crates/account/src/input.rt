// What is said of an input: its refusal, or the account of the case that it is.
ghost use Rattle.std.specs.Prelude.{◌≡◌, IfOk, string_bytes, ◌==◌};
ghost use Rattle.format.specs.Case.{IsCaseOf};
ghost use Rattle.format.specs.Layout.{scale_number};
ghost use Rattle.fault.specs.First.{Answers};
ghost use Rattle.account.specs.Report.{case_fault, input_fault, report_text, outcome_text};

use crate::sections::account;
use casefile::check;
use fault::Fault;
use format::{CaseFile, header_field};
use scale::{Scale, Variants, YesNo};
use std::alloc::{AllocError, Global};

// How many bytes an input has at most.
pub const MOST: usize = 65536;

// Whether the header names the variants scale.
pub(crate) fn names_variants(bytes: &[u8]) -> bool
    ensures { result ≡ (scale_number bytes.now == 1) }
{
    header_field(bytes, 0) == Variants::NUMBER
}

// The case at the scale that its header names, at yes/no where it names none.
#[tactic(auto, unfolding(crate::specs::Report::case_fault))]
fn open_case<'a>(bytes: &'a [u8]) -> Result<CaseFile<'a>, Fault>
    ensures { Answers (case_fault bytes.now) (IsCaseOf bytes.now) result }
{
    if names_variants(bytes) {
        check::<Variants>(bytes)
    } else {
        check::<YesNo>(bytes)
    }
}

// The case that an input is, or why it is refused.
pub fn open_input<'a>(bytes: &'a [u8]) -> Result<CaseFile<'a>, Fault>
    ensures { Answers (input_fault bytes.now) (IsCaseOf bytes.now) result }
{
    if bytes.len() > MOST {
        Err(Fault::Oversize)
    } else {
        open_case(bytes)
    }
}

// The account of the case that an input is, or the line of its refusal.
pub fn report(alloc: Global, bytes: &[u8]) -> Result<String, AllocError>
    ensures { IfOk result (λ t. string_bytes t ≡ report_text bytes.now) }
{
    match open_input(bytes) {
        Ok(case) => account(alloc, &case),
        Err(fault) => fault.line(alloc),
    }
}

// The same in one line.
pub fn outcome(alloc: Global, bytes: &[u8]) -> Result<String, AllocError>
    ensures { IfOk result (λ t. string_bytes t ≡ outcome_text bytes.now) }
{
    match open_input(bytes) {
        Ok(_) => format!(in alloc; "accepted\n"),
        Err(fault) => fault.line(alloc),
    }
}
