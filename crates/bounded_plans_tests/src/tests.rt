use bounded_plans::{BoundEvidence, BoundedPlan, evidence_within};
use peak_bounds::{Amount, Blocker, Event, EventSet, Evidence};
use std::alloc::{AllocError, Global};
use std::process::Abort;
use std::test::Fail;

fn amounts_of(alloc: Global, told: &[(u32, i64)]) -> Result<Vec<Amount>, AllocError> {
    let mut amounts = Vec::new(alloc);
    for (place, amount) in told {
        amounts.push(Amount {
            place: *place,
            amount: *amount,
        })?;
    }
    Ok(amounts)
}

// A set with these amounts, its own and those of its one blocker.
fn set_of(alloc: Global, base: &[(u32, i64)], own: &[(u32, i64)]) -> Result<Evidence, AllocError> {
    let base = amounts_of(alloc, base)?;
    let own = amounts_of(alloc, own)?;
    let blockers = vec![in alloc; Blocker::new(7, own)]?;
    Ok(Evidence::Set(EventSet::new(Event::First, base, blockers)))
}

// Places and amounts, and whether they may be told.
const TOLD: [(&[(u32, i64)], bool); 9] = [
    (&[], true),
    (&[(1, 5), (2, 0), (9, -5)], true),
    (&[(4294967295, 1152921504606846976)], true),
    (&[(4294967295, -1152921504606846976)], true),
    (&[(0, 5)], false),
    (&[(3, 1152921504606846977)], false),
    (&[(3, -1152921504606846977)], false),
    (&[(3, 5), (3, 5)], false),
    (&[(3, 5), (2, 5)], false),
];

fn check_set(
    rt: &impl Abort,
    alloc: Global,
    told: &[(u32, i64)],
    within: bool,
) -> Result<(), Fail> {
    let as_base = set_of(alloc, told, &[(4, 1)])?;
    assert_eq!(rt; evidence_within(&as_base), within);
    let as_own = set_of(alloc, &[(4, 1)], told)?;
    assert_eq!(rt; evidence_within(&as_own), within);
    Ok(())
}

#[test]
fn sets_keep_to_the_limits(rt: HostRuntime) -> Result<(), Fail> {
    for (told, within) in TOLD {
        check_set(&rt, rt.alloc(), told, within)?;
    }
    Ok(())
}

#[test]
fn task_0_is_no_task(rt: HostRuntime) {
    assert!(rt; evidence_within(&Evidence::Start));
    assert!(rt; evidence_within(&Evidence::Need(1)));
    assert!(rt; !evidence_within(&Evidence::Need(0)));
}

// Any number of states may be told, also none and the most that a number can be.
#[test]
fn a_plan_tells_how_many_states_are_looked_at(rt: HostRuntime) -> Result<(), Fail> {
    let alloc = rt.alloc();
    for most in [0, 7, 4294967295] {
        let plan = BoundedPlan::new(Vec::new(alloc), 5, 4, BoundEvidence::States(most));
        let told = match plan.evidence() {
            BoundEvidence::States(states) => Some(*states),
            _ => None,
        };
        assert_eq!(rt; told, Some(most));
    }
    Ok(())
}
