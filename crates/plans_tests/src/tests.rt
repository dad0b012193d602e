use plans::{Claim, Direction, Plan, is_plan};
use std::test::Fail;

// 2^60, and its opposite.
const MOST: u64 = 1_152_921_504_606_846_976;

const LEAST_BOUND: i64 = -1_152_921_504_606_846_976;

const SECOND: Claim = Claim {
    position: 2,
    dir: Direction::Forward,
    bound: -5,
    rest: 0,
};

const SEVENTH: Claim = Claim {
    position: 7,
    dir: Direction::Backward,
    bound: 0,
    rest: MOST,
};

const AT_0: Claim = Claim {
    position: 0,
    bound: 0,
    ..SECOND
};

const TOO_LOW: Claim = Claim {
    bound: LEAST_BOUND - 1,
    ..SECOND
};

const TOO_HIGH: Claim = Claim {
    bound: 0,
    rest: MOST + 1,
    ..SECOND
};

#[test]
fn a_plan_of_no_tasks(rt: HostRuntime) {
    let alloc = rt.alloc();
    let plan = Plan::new(Vec::new(alloc), 0, Vec::new(alloc), Vec::new(alloc));
    assert!(rt; plan.order().is_empty());
}

// A peak, claims and a priority, and whether they make a plan with an order of three tasks.
type Parts = (u64, &'static [Claim], &'static [u32], bool);

const PARTS: [Parts; 11] = [
    (MOST, &[SECOND, SEVENTH], &[2, 3, 1], true),
    (0, &[], &[], true),
    (MOST + 1, &[SECOND, SEVENTH], &[], false),
    (9, &[SEVENTH, SECOND], &[], false),
    (9, &[SECOND, SECOND], &[], false),
    (9, &[AT_0], &[], false),
    (9, &[TOO_LOW], &[], false),
    (9, &[TOO_HIGH], &[], false),
    (9, &[SECOND, SEVENTH], &[2, 3], false),
    (9, &[SECOND, SEVENTH], &[2, 3, 2], false),
    (9, &[SECOND, SEVENTH], &[2, 3, 4], false),
];

#[test]
fn tells_which_parts_make_a_plan(rt: HostRuntime) -> Result<(), Fail> {
    for (peak, claims, priority, want) in PARTS {
        let told = is_plan(rt.alloc(), &[3, 1, 2], peak, claims, priority)?;
        assert_eq!(rt; told, want, "{claims:?} {priority:?}");
    }
    Ok(())
}

#[test]
fn a_plan_gives_its_parts(rt: HostRuntime) -> Result<(), Fail> {
    let alloc = rt.alloc();
    let order = Vec::from_slice(alloc, &[3, 1, 2])?;
    let claims = Vec::from_slice(alloc, &[SECOND])?;
    let priority = Vec::from_slice(alloc, &[2, 3, 1])?;
    assert!(rt; is_plan(alloc, &order, 9, &claims, &priority)?);
    let plan = Plan::new(order, 9, claims, priority);
    assert_eq!(rt; plan.order(), [3, 1, 2].as_slice());
    assert_eq!(rt; plan.peak(), 9);
    assert_eq!(rt; plan.claims(), [SECOND].as_slice());
    assert_eq!(rt; plan.priority(), [2, 3, 1].as_slice());
    Ok(())
}

#[test]
fn each_direction_is_opposite_to_the_other(rt: HostRuntime) {
    assert_eq!(rt; Direction::Forward.opposite(), Direction::Backward);
    assert_eq!(rt; Direction::Backward.opposite(), Direction::Forward);
}
