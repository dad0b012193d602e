//! Fences that forbid no run, and others.

use super::{fence, task};
use fences::{Fence, are_implied};
use shared_systems::{GivenSharedItem, SharedSystem, shared_system_of_arrays};
use std::alloc::Global;
use std::rt::HostRuntime;
use std::test::Fail;

// An item that so many tasks read.
fn item(size: u64, from: u32, readers: u32) -> GivenSharedItem {
    GivenSharedItem {
        size,
        from,
        readers,
    }
}

// Tasks 2 and 3 read what task 1 makes; task 4 takes up what both make, and task 5 what task 2 makes for it. The join has the number 6.
fn forked(alloc: Global) -> Result<SharedSystem, Fail> {
    let tasks = [task(0), task(0), task(0), task(0), task(0)];
    let items = [item(5, 1, 2), item(1, 2, 1), item(1, 3, 1), item(1, 2, 1)];
    Ok(shared_system_of_arrays(alloc, &tasks, &items, &[2, 3, 4, 4, 5])?)
}

#[test]
fn fences_that_forbid_no_run(rt: HostRuntime) -> Result<(), Fail> {
    let alloc = rt.alloc();
    let system = forked(alloc)?;
    let rows: [&[Fence]; 4] = [
        &[],
        &[fence(6, 4)],
        &[fence(1, 4), fence(6, 4), fence(3, 4)],
        &[fence(1, 2), fence(2, 5), fence(1, 5), fence(6, 4)],
    ];
    for fences in rows {
        assert_eq!(rt; are_implied(alloc, &system, fences), Ok(true));
    }
    Ok(())
}

// The join comes after task 3, which does not come before task 5; and it comes before no reader.
#[test]
fn fences_that_forbid_some_run(rt: HostRuntime) -> Result<(), Fail> {
    let alloc = rt.alloc();
    let system = forked(alloc)?;
    let rows: [&[Fence]; 8] = [
        &[fence(6, 5)],
        &[fence(2, 3)],
        &[fence(6, 4), fence(3, 5)],
        &[fence(4, 1)],
        &[fence(6, 3)],
        &[fence(4, 4)],
        &[fence(7, 4)],
        &[fence(0, 4)],
    ];
    for fences in rows {
        assert_eq!(rt; are_implied(alloc, &system, fences), Ok(false));
    }
    Ok(())
}
