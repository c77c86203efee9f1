// Case files: what is accepted, and each refusal with its position.
use crate::samples::{Patch, Row, SESSION, VARIED, answer, answers};
use scale::{Variants, YesNo};
use std::test::Fail;

const ONES: [u8; 28] = [255; 28];

// The limits of every count from both sides: past one the field's byte, at one a later fault or none.
#[test]
fn headers(rt: HostRuntime) -> Result<(), Fail> {
    assert_eq!(rt; answer::<YesNo>(&SESSION), (0, 0, 0));
    assert_eq!(rt; answer::<Variants>(&SESSION), (2, 0, 0));
    assert_eq!(rt; answer::<Variants>(&VARIED), (0, 0, 0));
    assert_eq!(rt; answer::<YesNo>(&VARIED), (2, 0, 0));
    answers::<YesNo>(
        &rt,
        rt.alloc(),
        &SESSION,
        &[
            Row(&[Patch(0, &ONES)], 2, 0, 0),
            Row(&[Patch(3, &[1])], 2, 0, 0),
            Row(&[Patch(4, &ONES)], 2, 4, 0),
            Row(&[Patch(4, &[0])], 2, 4, 0),
            Row(&[Patch(4, &[1])], 5, 0, 0),
            Row(&[Patch(4, &[8])], 6, 0, 0),
            Row(&[Patch(4, &[9])], 2, 4, 0),
            Row(&[Patch(7, &[1])], 2, 4, 0),
            Row(&[Patch(8, &[0, 0])], 6, 0, 0),
            Row(&[Patch(8, &[0, 1])], 3, 193, 0),
            Row(&[Patch(8, &[1, 1])], 2, 8, 0),
            Row(&[Patch(12, &[0])], 2, 12, 0),
            Row(&[Patch(12, &[16])], 5, 3, 0),
            Row(&[Patch(12, &[17])], 2, 12, 0),
            Row(&[Patch(16, &[0])], 2, 16, 0),
            Row(&[Patch(16, &[1])], 7, 0, 0),
            Row(&[Patch(16, &[0, 16])], 3, 193, 0),
            Row(&[Patch(16, &[1, 16])], 2, 16, 0),
            Row(&[Patch(20, &[0])], 6, 0, 0),
            Row(&[Patch(20, &[0, 64])], 3, 193, 0),
            Row(&[Patch(20, &[1, 64])], 2, 20, 0),
            Row(&[Patch(24, &[1])], 0, 0, 0),
            Row(&[Patch(24, &[2])], 2, 24, 0),
            Row(&[Patch(26, &[1])], 2, 24, 0),
        ],
    )
}

// Rules, blocks, nodes and edges of the yes/no sample; a fault of one number comes before every fault of the next.
#[test]
fn sections(rt: HostRuntime) -> Result<(), Fail> {
    answers::<YesNo>(
        &rt,
        rt.alloc(),
        &SESSION,
        &[
            Row(&[Patch(28, &[255, 255])], 0, 0, 0),
            Row(&[Patch(28, &[255, 255, 255, 255])], 4, 0, 0),
            Row(&[Patch(34, &[255, 255, 255, 255])], 4, 1, 0),
            Row(&[Patch(32, &[255, 255])], 4, 0, 0),
            Row(&[Patch(38, &[255, 255]), Patch(40, &[2])], 4, 1, 0),
            Row(&[Patch(40, &[1])], 0, 0, 0),
            Row(&[Patch(40, &[2]), Patch(41, &[3])], 5, 0, 0),
            Row(&[Patch(41, &[1])], 0, 0, 0),
            Row(&[Patch(41, &[2])], 6, 0, 0),
            Row(&[Patch(41, &[3])], 6, 0, 0),
            Row(&[Patch(58, &[1]), Patch(77, &[2])], 6, 1, 0),
            Row(&[Patch(43, &[3])], 6, 0, 0),
            Row(&[Patch(43, &[1])], 6, 1, 0),
            Row(&[Patch(45, &[1])], 6, 0, 0),
            Row(&[Patch(61, &[1])], 6, 1, 0),
            Row(&[Patch(61, &[255, 255, 255, 255])], 6, 1, 0),
            Row(&[Patch(43, &[1]), Patch(59, &[1, 0, 1])], 6, 1, 0),
            Row(&[Patch(56, &[1])], 6, 0, 0),
            Row(&[Patch(57, &[0])], 6, 1, 0),
            Row(&[Patch(57, &[0]), Patch(65, &[0])], 0, 0, 0),
            Row(&[Patch(65, &[2])], 6, 1, 0),
            Row(&[Patch(72, &[1])], 6, 1, 0),
            Row(&[Patch(73, &[9, 0])], 0, 0, 0),
            Row(&[Patch(73, &[255, 255])], 0, 0, 0),
            Row(&[Patch(77, &[2]), Patch(89, &[0])], 7, 0, 0),
            Row(&[Patch(85, &[0, 0, 1])], 7, 1, 0),
            Row(&[Patch(75, &[1])], 7, 0, 0),
            Row(&[Patch(84, &[128])], 7, 1, 0),
            Row(&[Patch(43, &[1]), Patch(61, &[1])], 7, 1, 0),
            Row(&[Patch(43, &[0]), Patch(61, &[0])], 7, 0, 0),
        ],
    )
}

// What wants two blocks, another scale's values, or a table of three states.
#[test]
fn second_sample(rt: HostRuntime) -> Result<(), Fail> {
    answers::<Variants>(
        &rt,
        rt.alloc(),
        &VARIED,
        &[
            Row(&[Patch(33, &[2])], 5, 1, 0),
            Row(&[Patch(51, &[2])], 6, 1, 0),
            Row(&[Patch(74, &[255; 8])], 0, 0, 0),
            Row(&[Patch(94, &[0])], 7, 1, 0),
            Row(&[Patch(86, &[0])], 0, 0, 0),
            Row(&[Patch(67, &[0])], 7, 2, 0),
            Row(&[Patch(102, &[3])], 7, 2, 0),
            Row(&[Patch(118, &[1])], 8, 0, 12),
            Row(&[Patch(122, &[2]), Patch(126, &[1])], 8, 0, 20),
            Row(&[Patch(122, &[9])], 8, 0, 20),
            Row(&[Patch(122, &[9, 0, 0, 0, 9])], 8, 0, 24),
            Row(&[Patch(126, &[4, 0, 0, 0, 4])], 8, 0, 24),
            Row(&[Patch(130, &[2])], 8, 0, 24),
            Row(&[Patch(114, &[2])], 0, 0, 0),
            Row(&[Patch(114, &[3])], 8, 0, 8),
            Row(&[Patch(110, &[0, 64])], 8, 0, 24),
            Row(&[Patch(110, &[1, 64])], 8, 0, 4),
        ],
    )
}

// The tables of the yes/no sample; labels, targets and weights are no fault.
#[test]
fn tables(rt: HostRuntime) -> Result<(), Fail> {
    answers::<YesNo>(
        &rt,
        rt.alloc(),
        &SESSION,
        &[
            Row(&[Patch(89, &[0])], 8, 0, 0),
            Row(&[Patch(141, &[0])], 8, 1, 0),
            Row(&[Patch(89, &[1])], 8, 0, 16),
            Row(&[Patch(141, &[0, 16])], 8, 1, 28),
            Row(&[Patch(141, &[1, 16])], 8, 1, 0),
            Row(&[Patch(145, &[0, 64])], 8, 1, 20),
            Row(&[Patch(145, &[1, 64])], 8, 1, 4),
            Row(&[Patch(149, &[1])], 0, 0, 0),
            Row(&[Patch(149, &[2])], 8, 1, 8),
            Row(&[Patch(153, &[1])], 8, 1, 12),
            Row(&[Patch(161, &[0])], 8, 1, 20),
            Row(&[Patch(153, &[1]), Patch(97, &[2])], 8, 0, 8),
            Row(&[Patch(113, &ONES), Patch(165, &ONES)], 0, 0, 0),
        ],
    )
}

// A table's field of the yes/no sample that a cut after `length` of the table's bytes hits.
fn field_hit(length: usize) -> u64 {
    let mut hit = 0;
    // the last field that begins at or before the cut
    for field in [4, 8, 12, 16, 20, 24, 26, 30, 38, 40, 44] {
        if field <= length {
            hit = field as u64;
        }
    }
    hit
}

// The sample cut at every byte, and lengthened.
#[test]
fn lengths(rt: HostRuntime) -> Result<(), Fail> {
    for length in 0..SESSION.len() {
        let told = match length {
            0..28 => (1, length as u64, 0),
            28..89 => (3, length as u64, 0),
            89..141 => (8, 0, field_hit(length - 89)),
            _ => (8, 1, field_hit(length - 141)),
        };
        let cut = &SESSION[0..length];
        assert_eq!(rt; (length, answer::<YesNo>(cut)), (length, told));
    }
    let mut longer = SESSION.to_vec(rt.alloc())?;
    longer.push(0)?;
    assert_eq!(rt; answer::<YesNo>(longer.as_slice()), (8, 1, 52));
    longer.extend_from_slice(&ONES)?;
    assert_eq!(rt; answer::<YesNo>(longer.as_slice()), (8, 1, 52));
    Ok(())
}
