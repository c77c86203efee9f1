// Two well formed case files, and what is asked of changed ones.
use casefile::check as check_file;
use fault::Fault;
use scale::Scale;
use std::alloc::{AllocError, Global};
use std::process::Abort;
use std::test::Fail;

// Yes/no: two places that step 1 and 2 in turn, rules (1, 1) to 1 and (2, 2) to 2.
// Line by line: header; at 28 the rules; at 40 the block; at 41 the nodes; at 73 the edges;
// at 89 and 141 a table each, of counts, starts and transitions.
pub const SESSION: [u8; 193] = *b"\
    \0\0\0\0\x02\0\0\0\x02\0\0\0\x01\0\0\0\x02\0\0\0\x02\0\0\0\0\0\0\0\
    \x01\0\x01\0\x01\0\
    \x02\0\x02\0\x02\0\
    \0\
    \0\0\x02\0\0\0\0\0\0\0\0\0\0\0\0\0\
    \x02\0\0\0\x02\0\0\0\x01\0\0\0\0\0\0\0\
    \x02\0\0\0\x01\0\0\0\
    \x01\0\0\0\0\0\0\0\
    \x02\0\0\0\x02\0\0\0\0\0\0\0\
    \0\0\0\0\x01\0\0\0\x02\0\0\0\
    \x01\0\x01\0\0\0\x01\0\0\0\0\0\0\0\
    \x02\0\0\0\0\0\x01\0\0\0\0\0\0\0\
    \x02\0\0\0\x02\0\0\0\0\0\0\0\
    \0\0\0\0\x01\0\0\0\x02\0\0\0\
    \x01\0\x01\0\0\0\x01\0\0\0\0\0\0\0\
    \x02\0\0\0\0\0\x01\0\0\0\0\0\0\0";

// Variants: one place of three states, one rule, a least and a greatest block.
// Line by line: header; at 28 the rule; at 32 the blocks; at 34 the nodes; at 82 the edges;
// at 106 the table, of counts, starts and transitions.
pub const VARIED: [u8; 176] = *b"\
    \x01\0\0\0\x01\0\0\0\x01\0\0\0\x02\0\0\0\x03\0\0\0\x03\0\0\0\0\0\0\0\
    \x07\0\x07\0\
    \0\x01\
    \0\0\x01\0\0\0\0\0\0\0\0\0\0\0\0\0\
    \x01\x01\x02\0\x01\0\0\0\0\0\0\0\0\0\0\0\
    \x02\x01\0\0\x03\0\0\0\x06\0\0\0\0\0\0\x80\
    \x07\0\0\0\x01\0\0\0\
    \xff\xff\0\0\x01\0\0\0\
    \x07\0\0\0\x02\0\0\0\
    \x03\0\0\0\x03\0\0\0\x01\0\0\0\
    \0\0\0\0\x01\0\0\0\x03\0\0\0\x03\0\0\0\
    \x07\0\x01\0\0\0\x06\0\0\0\0\0\0\0\
    \x07\0\x02\0\0\0\x03\0\0\0\0\0\0\0\
    \x08\0\0\0\0\0\xff\xff\xff\xff\xff\xff\xff\xff";

// Bytes that stand in a sample's place from a byte on.
#[derive(Clone, Copy)]
pub struct Patch<'a>(pub usize, pub &'a [u8]);

// The patches of a sample; then the refusal's number and positions, all 0 where there is none.
#[derive(Clone, Copy)]
pub struct Row<'a>(pub &'a [Patch<'a>], pub u8, pub u64, pub u64);

fn patched(heap: Global, sample: &[u8], patches: &[Patch<'_>]) -> Result<Vec<u8>, AllocError> {
    let mut case = sample.to_vec(heap)?;
    for Patch(at, bytes) in patches {
        for (slot, byte) in case.iter_mut().skip(*at).zip(*bytes) {
            *slot = *byte;
        }
    }
    Ok(case)
}

pub fn told(fault: Fault) -> (u8, u64, u64) {
    (fault.number(), fault.first(), fault.second())
}

// What the check of the bytes says.
pub fn answer<S: Scale>(bytes: &[u8]) -> (u8, u64, u64) {
    match check_file::<S>(bytes) {
        Ok(_) => (0, 0, 0),
        Err(fault) => told(fault),
    }
}

pub fn answers<S: Scale>(
    rt: &impl Abort,
    heap: Global,
    sample: &[u8],
    rows: &[Row<'_>],
) -> Result<(), Fail> {
    for (i, Row(patches, number, first, second)) in rows.iter().enumerate() {
        let case = patched(heap, sample, patches)?;
        let told = answer::<S>(case.as_slice());
        assert_eq!(rt; (i, told), (i, (*number, *first, *second)));
    }
    Ok(())
}
