//! Fences for a shared system, with a bound and the amounts that certify it.

ghost use Rattle.std.specs.Prelude.{◌≡◌, ◌-◌, ◌<◌, ◌≤◌, ◌↔◌, IsTrue, IfErr, IfOk, MatchOption, MatchResult, length};
ghost use Rattle.limits.specs.Limits.{most_positions};
ghost use Rattle.lists.specs.Numbers.{Each, IsFirstWithout};
ghost use Rattle.shared_systems.specs.Shared.{SharedTaskSystem};
ghost use Rattle.shared_systems.specs.Collected as collecting;
ghost use Rattle.fences.specs.SharedRuns.{GoesOn, KeepsBound};
ghost use Rattle.fences.specs.Certificates as specs;
ghost use Rattle.fences.specs.Certificates.{Certifies, HasJoins, IsCertificateRefusal, IsForTask, join_places_from, reserve_of};

use crate::NoMemory;
use crate::fenced::{Fence, FencesRefusal, judge_fences};
use crate::laws::certificate_law;
use mp_system::System;
use shared_systems::{SharedItems, SharedSystem};
use std::alloc::Global;
use std::marker::Model;

/// How many tasks run at once.
#[derive(Clone, Copy, Debug, PartialEq, Eq)]
pub enum Workers {
    /// Any number of them.
    Any,
    /// At most so many, and so much memory is set aside for each.
    AtMost { count: u32, room: u64 },
}

/// Fences for a shared system, a bound, and the amounts that certify it. Whether they do is for [`judge_certificate`] to say.
#[derive(Drop)]
pub struct FenceCertificate {
    /// At most so much memory is used, in the unit of the sizes.
    pub bound: u64,
    pub workers: Workers,
    /// The places, from 1, of the items with several readers. Behind all readers of such an item stands a join; in a system of n tasks the joins
    /// are numbered n + 1, n + 2 and so on, in this order.
    pub joins: Vec<u32>,
    /// From a task or a join to a task.
    pub fences: Vec<Fence>,
    /// What is handed on along the items of the collected system, in their order, and behind these along the fences, in the order of the fences.
    pub amounts: Vec<u64>,
}

impl Model for FenceCertificate {
    ghost use Rattle.fences.specs.Certificates.{Certificate};

    ghost Value = { Certificate };

    ghost view = { λ c. record {
      bound = c.bound;
      workers = c.workers;
      joins = c.joins.items;
      fences = c.fences.items;
      amounts = c.amounts.items;
    } };
}

/// What is said against a certificate.
#[derive(Clone, Copy, Debug, PartialEq, Eq)]
pub enum CertificateRefusal {
    /// With its joins the system has more tasks or items than a system may have, the limits `tasks` and `positions`.
    ManyJoins,
    /// The places of the joins are not those of the items with several readers.
    Joins,
    /// The bound has no room for what is set aside for all workers.
    Reserve,
    /// The first fence, counted from 1, by which a join waits.
    JoinWaits(u64),
    /// What is said against the fences and the amounts, over the collected system.
    Fences(FencesRefusal),
    /// Memory ran out, which says nothing of the certificate.
    NoMemory,
}

impl From<NoMemory> for CertificateRefusal {
    ghost use Rattle.fences.specs.declared.certificate.CertificateRefusal.TheVariants.{NoMemory as OutOfMemory};

    ghost from_gives = { λ _ e. e ≡ OutOfMemory };

    fn from(_no_memory: NoMemory) -> CertificateRefusal {
        CertificateRefusal::NoMemory
    }
}

impl From<FencesRefusal> for CertificateRefusal {
    ghost use Rattle.fences.specs.Certificates.{of_fences};

    ghost from_gives = { λ refusal e. e ≡ of_fences refusal };

    fn from(refusal: FencesRefusal) -> CertificateRefusal {
        match refusal {
            FencesRefusal::NoMemory => CertificateRefusal::NoMemory,
            said => CertificateRefusal::Fences(said),
        }
    }
}

// The room that is set aside for each worker.
fn room_of(workers: Workers) -> u64
    ensures { result ≡ specs.room_of workers }
{
    match workers {
        Workers::Any => 0,
        Workers::AtMost { room, .. } => room,
    }
}

// What is left of the bound beside the room of all workers, if it has that room.
fn left_of(workers: Workers, bound: u64) -> Option<u64>
    ensures { MatchOption result (bound < reserve_of workers) (λ left. (reserve_of workers ≤ bound) × (left ≡ bound - reserve_of workers)) }
{
    match workers {
        Workers::Any => Some(bound),
        Workers::AtMost { count, room } => {
            let reserve = u64::from(count).checked_mul(room)?;
            bound.checked_sub(reserve)
        }
    }
}

// Whether these are the places of the items with several readers.
fn are_joins(joins: &[u32], items: &SharedItems) -> bool
    requires { length items.now ≤ most_positions }
    ensures { IsTrue result ↔ (joins.now ≡ join_places_from 1 items.now) }
{
    let mut next = 0;
    for i in 0..items.len() {
        if items.readers(i).len() > 1 {
            if next == joins.len() || joins[next] != i as u32 + 1 {
                return false;
            }
            next += 1;
        }
    }
    next == joins.len()
}

// The collected system, if it is within the limits and the joins are those of the system.
fn joined(
    alloc: Global,
    system: &SharedSystem,
    certificate: &FenceCertificate,
) -> Result<System, CertificateRefusal>
    ensures { MatchResult result
        (λ made. HasJoins system.now certificate.now × (made ≡ collecting.collected system.now))
        (IsCertificateRefusal system.now certificate.now) }
{
    system.keeps();
    let Some(made) = system.collected(alloc)? else {
        return Err(CertificateRefusal::ManyJoins);
    };
    if !are_joins(&certificate.joins, system.items()) {
        return Err(CertificateRefusal::Joins);
    }
    Ok(made)
}

// The first fence, counted from 1, by which a join waits, if one does.
fn first_waiting_join(system: &SharedSystem, fences: &[Fence]) -> Option<u64>
    ensures { MatchOption result
        (Each (length fences.now) (IsForTask system.now fences.now))
        (IsFirstWithout (length fences.now) (IsForTask system.now fences.now)) }
{
    let count = system.tasks().len();
    for i in 0..fences.len() {
        if fences[i].to as usize > count {
            return Some(i as u64 + 1);
        }
    }
    None
}

/// Whether the amounts certify the bound; else what is said first against the certificate. Then no parallel run of the system that keeps to the
/// fences uses more memory than the bound, at each moment at which no more tasks run than there are workers, whatever starts the tasks, and
/// however long they take; and none comes to a stop before all tasks are done. Linear in the tasks, items, readers and fences.
pub fn judge_certificate(
    alloc: Global,
    system: &SharedSystem,
    certificate: &FenceCertificate,
) -> Result<(), CertificateRefusal>
    ensures certified { IfOk result (λ _. Certifies system.now certificate.now) }
    ensures bound { IfOk result (λ _. KeepsBound system.now certificate.now.fences certificate.now.workers certificate.now.bound) }
    ensures goes_on { IfOk result (λ _. GoesOn system.now certificate.now.fences) }
    ensures refused { IfErr result (IsCertificateRefusal system.now certificate.now) }
{
    certificate_law();
    system.keeps();
    let (fences, amounts) = (&certificate.fences, &certificate.amounts);
    let collected = joined(alloc, system, certificate)?;
    let Some(left) = left_of(certificate.workers, certificate.bound) else {
        return Err(CertificateRefusal::Reserve);
    };
    if let Some(fence) = first_waiting_join(system, fences) {
        return Err(CertificateRefusal::JoinWaits(fence));
    }
    let room = room_of(certificate.workers);
    judge_fences(alloc, &collected, fences, amounts, room, left)?;
    Ok(())
}
