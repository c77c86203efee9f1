// Pools at the edges of their capacity, and layers over layers.
use process::{Pool, Process, SingleVariant, Transition};
use std::process::Abort;

const TAKE: u16 = 3;

const GIVE: u16 = 4;

const WEIGHT: u64 = 6;

fn pool(capacity: u16) -> Pool {
    Pool {
        capacity,
        take: TAKE,
        give: GIVE,
        weight: WEIGHT,
    }
}

pub fn step(label: u16, weight: u64, target: u32) -> Option<Transition> {
    Some(Transition {
        label,
        weight,
        target,
    })
}

// A state, how many transitions it has, and the first two of them; no state has more.
#[derive(Clone, Copy)]
pub struct Row(
    pub u32,
    pub u32,
    pub Option<Transition>,
    pub Option<Transition>,
);

pub fn lists<P: Process>(rt: &impl Abort, p: &P, rows: &[Row]) {
    for Row(s, count, first, second) in rows {
        assert_eq!(rt; p.count(*s), *count);
        assert_eq!(rt;
            (p.transition(*s, 0), p.transition(*s, 1)),
            (*first, *second)
        );
        assert_eq!(rt;
            (p.transition(*s, 2), p.transition(*s, u32::MAX)),
            (None, None)
        );
    }
}

#[test]
fn pools(rt: HostRuntime) {
    let none = pool(0);
    assert_eq!(rt; (none.states(), none.initial()), (1, 0));
    lists(
        &rt,
        &none,
        &[
            Row(0, 0, None, None),
            Row(1, 0, None, None),
            Row(u32::MAX, 0, None, None),
        ],
    );
    let one = pool(1);
    assert_eq!(rt; (one.states(), one.initial()), (2, 0));
    lists(
        &rt,
        &one,
        &[
            Row(0, 1, step(TAKE, WEIGHT, 1), None),
            Row(1, 1, step(GIVE, WEIGHT, 0), None),
            Row(2, 0, None, None),
        ],
    );
    let most = pool(65535);
    assert_eq!(rt; (most.states(), most.initial()), (65536, 0));
    lists(
        &rt,
        &most,
        &[
            Row(0, 1, step(TAKE, WEIGHT, 1), None),
            Row(1, 2, step(TAKE, WEIGHT, 2), step(GIVE, WEIGHT, 0)),
            Row(
                65534,
                2,
                step(TAKE, WEIGHT, 65535),
                step(GIVE, WEIGHT, 65533),
            ),
            Row(65535, 1, step(GIVE, WEIGHT, 65534), None),
            Row(65536, 0, None, None),
        ],
    );
}

fn single<P: Process>(variant: u8, process: P) -> SingleVariant<P> {
    SingleVariant { variant, process }
}

// A pool of capacity 2 whose weight shows through a layer as `weight`.
fn shows<P: Process>(rt: &impl Abort, p: &P, weight: u64) {
    assert_eq!(rt; (p.states(), p.initial()), (3, 0));
    lists(
        rt,
        p,
        &[
            Row(0, 1, step(TAKE, weight, 1), None),
            Row(1, 2, step(TAKE, weight, 2), step(GIVE, weight, 0)),
            Row(2, 1, step(GIVE, weight, 1), None),
            Row(3, 0, None, None),
        ],
    );
}

#[test]
fn layers(rt: HostRuntime) {
    let below = Pool {
        weight: (1 << 63) + 2,
        ..pool(2)
    };
    // the bit that each variant sees, alone and through two more layers
    for (variant, bit) in [(0, 0), (1, 1), (62, 0), (63, 1), (64, 0), (255, 0)] {
        let seen = single(variant, &below);
        shows(&rt, &seen, bit);
        shows(&rt, &single(0, &seen), bit);
        shows(&rt, &single(1, single(0, seen)), 0);
        shows(&rt, &single(64, &&seen), 0);
    }
}
