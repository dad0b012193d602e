//! What no run passes as it stands, worked by hand.

ghost use Rattle.std.specs.Prelude.{◌≤◌, IfSome};

use super::{are, task};
use fences::{FenceCertificate, Workers, are_implied, judge_certificate};
use fencing::standing_certificate;
use shared_systems::{GivenSharedItem, SharedSystem, shared_system_of_arrays};
use std::alloc::Global;
use std::rt::HostRuntime;
use std::test::Fail;

// An item that so many tasks read.
fn item(size: u64, from: u32, readers: u32) -> GivenSharedItem {
    GivenSharedItem {
        size,
        from,
        readers,
    }
}

// How many workers are asked for, and the certificate: the bound, the workers, the joins, the fences and the amounts.
type Standing = (
    Option<u32>,
    u64,
    Workers,
    &'static [u32],
    &'static [(u32, u32)],
    &'static [u64],
);

fn is(made: &FenceCertificate, row: &Standing) -> bool {
    let (_, bound, workers, joins, fences, amounts) = *row;
    made.bound == bound
        && made.workers == workers
        && &made.joins[..] == joins
        && are(&made.fences, fences)
        && &made.amounts[..] == amounts
}

// Whether this certificate is made, and is accepted, and its fences forbid no run.
fn stands(alloc: Global, system: &SharedSystem, row: &Standing) -> Result<bool, Fail>
    requires { IfSome row.now.0 (λ count. 1 ≤ count) }
{
    let Some(made) = standing_certificate(alloc, system, row.0)? else {
        return Ok(false);
    };
    judge_certificate(alloc, system, &made)?;
    Ok(is(&made, row) && are_implied(alloc, system, &made.fences)?)
}

// Two lines of two tasks: the first of each makes 4, the second 1 of it. While both second ones run 8 and 2 are there. On one worker it is 8 and 1;
// with room 1 only the first ones need something, the 4 that they leave.
#[test]
fn two_lines(rt: HostRuntime) -> Result<(), Fail> {
    let alloc = rt.alloc();
    let tasks = [task(0, 0), task(0, 0), task(0, 0), task(0, 0), task(0, 0)];
    let items = [item(4, 1, 1), item(1, 2, 1), item(4, 3, 1), item(1, 4, 1)];
    let system = shared_system_of_arrays(alloc, &tasks, &items, &[2, 5, 4, 5])?;
    let one = Workers::AtMost { count: 1, room: 1 };
    assert!(rt;
        stands(
            alloc,
            &system,
            &(None, 10, Workers::Any, &[], &[], &[4, 1, 4, 1])
        )?
    );
    assert!(rt; stands(alloc, &system, &(Some(1), 9, one, &[], &[], &[4, 1, 4, 1]))?);
    Ok(())
}

// Task 1 makes 5, task 2 makes 3 of it, and task 3 takes these and needs 4: 4 of the 5 are handed on to it.
#[test]
fn one_line(rt: HostRuntime) -> Result<(), Fail> {
    let alloc = rt.alloc();
    let tasks = [task(0, 0), task(0, 0), task(4, 0)];
    let items = [item(5, 1, 1), item(3, 2, 1)];
    let system = shared_system_of_arrays(alloc, &tasks, &items, &[2, 3])?;
    assert!(rt; stands(alloc, &system, &(None, 8, Workers::Any, &[], &[], &[5, 7]))?);
    Ok(())
}

// Tasks 2 and 3 read the 4 that task 1 makes, and need 6 beside the 1 that each makes for task 4, which needs 15. The most is used while both run,
// 4 and 7 and 7. Of what they leave 6 and 6 are handed on to task 4, and 3 of the 4, over a fence from the join, task 5: it comes before task 4
// anyway.
#[test]
fn a_join_before_a_task(rt: HostRuntime) -> Result<(), Fail> {
    let alloc = rt.alloc();
    let tasks = [task(0, 0), task(6, 0), task(6, 0), task(15, 0)];
    let items = [item(4, 1, 2), item(1, 2, 1), item(1, 3, 1)];
    let system = shared_system_of_arrays(alloc, &tasks, &items, &[2, 3, 4, 4])?;
    let amounts = &[4, 0, 0, 0, 0, 7, 7, 3];
    assert!(rt;
        stands(
            alloc,
            &system,
            &(None, 18, Workers::Any, &[1], &[(5, 4)], amounts)
        )?
    );
    Ok(())
}
