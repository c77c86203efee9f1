// Both scales at sample codes.
use scale::{Scale, Variants, YesNo};
use std::process::Abort;

const ALL: u64 = u64::MAX;

// Join and meet of two codes, in both orders.
#[derive(Clone, Copy)]
struct Pair(u64, u64, u64, u64);

fn pairs<S: Scale>(rt: &impl Abort, rows: &[Pair]) {
    for Pair(x, y, join, meet) in rows {
        assert_eq!(rt; (S::join(*x, *y), S::join(*y, *x)), (*join, *join));
        assert_eq!(rt; (S::meet(*x, *y), S::meet(*y, *x)), (*meet, *meet));
    }
}

// Whether a code is a value, its complement and its rank.
#[derive(Clone, Copy)]
struct Single(u64, bool, u64, u8);

fn singles<S: Scale>(rt: &impl Abort, rows: &[Single]) {
    for Single(x, value, complement, rank) in rows {
        assert_eq!(rt;
            (S::is_value(*x), S::complement(*x), S::rank(*x)),
            (*value, *complement, *rank)
        );
    }
}

#[test]
fn yes_no(rt: HostRuntime) {
    assert_eq!(rt; (YesNo::lowest(), YesNo::highest()), (0, 1));
    assert_eq!(rt; (YesNo::NUMBER, YesNo::HEIGHT), (0, 1));
    singles::<YesNo>(
        &rt,
        &[
            Single(0, true, 1, 0),
            Single(1, true, 0, 1),
            Single(2, false, 0, 0),
            Single(ALL, false, 0, 0),
        ],
    );
    pairs::<YesNo>(
        &rt,
        &[
            Pair(0, 0, 0, 0),
            Pair(0, 1, 1, 0),
            Pair(1, 1, 1, 1),
            Pair(0, 2, 0, 0),
            Pair(1, 2, 0, 0),
            Pair(2, 2, 0, 0),
            Pair(1, ALL, 0, 0),
        ],
    );
}

#[test]
fn variants(rt: HostRuntime) {
    assert_eq!(rt; (Variants::lowest(), Variants::highest()), (0, ALL));
    assert_eq!(rt; (Variants::NUMBER, Variants::HEIGHT), (1, 64));
    singles::<Variants>(
        &rt,
        &[
            Single(0, true, ALL, 0),
            Single(6, true, 0xFFFF_FFFF_FFFF_FFF9, 2),
            Single(1 << 63, true, ALL >> 1, 1),
            Single(ALL, true, 0, 64),
        ],
    );
    pairs::<Variants>(
        &rt,
        &[
            Pair(0, 0, 0, 0),
            Pair(6, 3, 7, 2),
            Pair(5, 10, 15, 0),
            Pair(1 << 63, 1, (1 << 63) + 1, 0),
            Pair(0, ALL, ALL, 0),
            Pair(ALL, ALL, ALL, ALL),
        ],
    );
}

// The laws that a verdict rests on, at three values.
fn laws<S: Scale>(rt: &impl Abort, x: u64, y: u64, z: u64) {
    assert_eq!(rt; S::join(S::join(x, y), z), S::join(x, S::join(y, z)));
    assert_eq!(rt; S::meet(S::meet(x, y), z), S::meet(x, S::meet(y, z)));
    assert_eq!(rt; S::join(x, S::meet(x, y)), x);
    assert_eq!(rt; S::meet(x, S::join(x, y)), x);
    assert_eq!(rt;
        S::meet(x, S::join(y, z)),
        S::join(S::meet(x, y), S::meet(x, z))
    );
    assert_eq!(rt; S::complement(S::complement(x)), x);
    assert_eq!(rt;
        S::complement(S::join(x, y)),
        S::meet(S::complement(x), S::complement(y))
    );
    assert_eq!(rt; (S::join(S::lowest(), x), S::meet(S::highest(), x)), (x, x));
    let below = S::join(x, y) == y && x != y;
    assert!(rt; !below || S::rank(x) < S::rank(y));
}

fn laws_among<S: Scale>(rt: &impl Abort, values: &[u64]) {
    for x in values {
        for y in values {
            for z in values {
                laws::<S>(rt, *x, *y, *z);
            }
        }
    }
}

#[test]
fn laws_of_both(rt: HostRuntime) {
    laws_among::<YesNo>(&rt, &[0, 1]);
    laws_among::<Variants>(&rt, &[0, 1, 6, 3, 0xFFFF_0000_FFFF_0000, 1 << 63, ALL]);
}
