//! Certificates for a shared system, worked by hand.

use super::{fence, task};
use fences::{
    CertificateRefusal, Fence, FenceCertificate, FenceTest, FencesRefusal, Workers,
    judge_certificate,
};
use shared_systems::{GivenSharedItem, SharedSystem, shared_system_of_arrays};
use std::alloc::{AllocError, Global};
use std::rt::HostRuntime;
use std::test::Fail;

// An item that so many tasks read.
fn item(size: u64, from: u32, readers: u32) -> GivenSharedItem {
    GivenSharedItem {
        size,
        from,
        readers,
    }
}

// Tasks 2 and 3 read the 5 that task 1 makes, and need 1 and 2; task 4 takes up 2 that are there from the start, and needs 6.
fn forked(alloc: Global) -> Result<SharedSystem, Fail> {
    let tasks = [task(0), task(1), task(2), task(6)];
    let items = [item(2, 0, 1), item(5, 1, 2)];
    Ok(shared_system_of_arrays(alloc, &tasks, &items, &[4, 2, 3])?)
}

// Task 4 waits for the join, which has the number 5. The items of the collected system are the 2 and the 5, then the waits of tasks 2 and 3 for
// task 1, and those of the join for both. Task 1 draws 8; over the join 6 of them come to task 4.
fn waiting(alloc: Global) -> Result<FenceCertificate, AllocError> {
    Ok(FenceCertificate {
        bound: 10,
        workers: Workers::Any,
        joins: vec![in alloc; 2]?,
        fences: vec![in alloc; fence(5, 4)]?,
        amounts: vec![in alloc; 2, 5, 1, 2, 1, 2, 6]?,
    })
}

#[test]
fn certificates_that_hold(rt: HostRuntime) -> Result<(), Fail> {
    let alloc = rt.alloc();
    let system = forked(alloc)?;
    let mut certificate = waiting(alloc)?;
    assert_eq!(rt; judge_certificate(alloc, &system, &certificate), Ok(()));
    // With room 1 for each of two workers tasks 1 to 4 need 4, 0, 1 and 5 beside it, of which 8 are certified.
    certificate.workers = Workers::AtMost { count: 2, room: 1 };
    certificate.amounts = vec![in alloc; 2, 5, 0, 1, 0, 1, 5]?;
    assert_eq!(rt; judge_certificate(alloc, &system, &certificate), Ok(()));
    // Without the fence task 4 may run beside the others, and draws 6.
    certificate.workers = Workers::Any;
    certificate.fences = Vec::new(alloc);
    certificate.amounts = vec![in alloc; 2, 5, 1, 2, 1, 2]?;
    certificate.bound = 16;
    assert_eq!(rt; judge_certificate(alloc, &system, &certificate), Ok(()));
    Ok(())
}

// How the certificate ends that has these joins.
fn joins_refused(alloc: Global, joins: &[u32]) -> Result<Option<CertificateRefusal>, Fail> {
    let system = forked(alloc)?;
    let mut certificate = waiting(alloc)?;
    certificate.joins = Vec::from_slice(alloc, joins)?;
    Ok(judge_certificate(alloc, &system, &certificate).err())
}

#[test]
fn joins_that_are_not_those_of_the_system(rt: HostRuntime) -> Result<(), Fail> {
    let alloc = rt.alloc();
    let rows: [&[u32]; 4] = [&[], &[1], &[2, 2], &[1, 2]];
    for joins in rows {
        let refusal = joins_refused(alloc, joins)?;
        assert_eq!(rt; refusal, Some(CertificateRefusal::Joins));
    }
    Ok(())
}

// How the certificate ends on at most so many workers with so much room each.
fn workers_refused(
    alloc: Global,
    count: u32,
    room: u64,
) -> Result<Option<CertificateRefusal>, Fail> {
    let system = forked(alloc)?;
    let mut certificate = waiting(alloc)?;
    certificate.workers = Workers::AtMost { count, room };
    Ok(judge_certificate(alloc, &system, &certificate).err())
}

#[test]
fn workers_whose_room_the_bound_has_not(rt: HostRuntime) -> Result<(), Fail> {
    let alloc = rt.alloc();
    let rows: [(u32, u64); 3] = [(11, 1), (2, 6), (u32::MAX, u64::MAX)];
    for (count, room) in rows {
        let refusal = workers_refused(alloc, count, room)?;
        assert_eq!(rt; refusal, Some(CertificateRefusal::Reserve));
    }
    Ok(())
}

// How the certificate ends that has these fences.
fn fences_refused(alloc: Global, fences: &[Fence]) -> Result<Option<CertificateRefusal>, Fail> {
    let system = forked(alloc)?;
    let mut certificate = waiting(alloc)?;
    certificate.fences = Vec::from_slice(alloc, fences)?;
    Ok(judge_certificate(alloc, &system, &certificate).err())
}

#[test]
fn fences_that_are_refused(rt: HostRuntime) -> Result<(), Fail> {
    let alloc = rt.alloc();
    let waits = |fence: u64| CertificateRefusal::JoinWaits(fence);
    let said = |refusal: FencesRefusal| CertificateRefusal::Fences(refusal);
    let tasks = FencesRefusal::Fence {
        test: FenceTest::Tasks,
        fence: 1,
    };
    let rows: [(&[Fence], CertificateRefusal); 5] = [
        (&[fence(1, 5)], waits(1)),
        (&[fence(5, 4), fence(4, 5)], waits(2)),
        (&[fence(6, 4)], said(tasks)),
        (&[fence(5, 4), fence(4, 2)], said(FencesRefusal::Cycle(2))),
        (&[], said(FencesRefusal::Length)),
    ];
    for (fences, refusal) in rows {
        let judged = fences_refused(alloc, fences)?;
        assert_eq!(rt; judged, Some(refusal));
    }
    Ok(())
}

#[test]
fn a_bound_that_is_not_certified(rt: HostRuntime) -> Result<(), Fail> {
    let alloc = rt.alloc();
    let system = forked(alloc)?;
    let mut certificate = waiting(alloc)?;
    certificate.bound = 9;
    let refusal = CertificateRefusal::Fences(FencesRefusal::Bound(10));
    assert_eq!(rt;
        judge_certificate(alloc, &system, &certificate),
        Err(refusal)
    );
    Ok(())
}

// 4,000 items that 1,000 tasks read are 4,004,000 items of the collected system.
#[test]
fn more_readers_than_a_system_has_items(rt: HostRuntime) -> Result<(), Fail> {
    let alloc = rt.alloc();
    let tasks = vec![in alloc; task(0); 1000]?;
    let items = vec![in alloc; item(0, 0, 1000); 4000]?;
    let mut readers: Vec<u32> = Vec::new(alloc);
    for _ in 0..4000 {
        for reader in 1..=1000 {
            readers.push(reader)?;
        }
    }
    let system = shared_system_of_arrays(alloc, &tasks, &items, &readers)?;
    let certificate = waiting(alloc)?;
    let refusal = CertificateRefusal::ManyJoins;
    assert_eq!(rt;
        judge_certificate(alloc, &system, &certificate),
        Err(refusal)
    );
    Ok(())
}
