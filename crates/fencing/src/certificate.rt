//! Certificates along an order of a shared system.

ghost use Rattle.std.specs.Prelude.{◌≡◌, ◌+◌, ◌≤◌, ◌<◌, IfOk, IfErr, IfSome, length};
ghost use Rattle.limits.specs.Limits.{most_positions};
ghost use Rattle.mp_system.specs.Traversal.{IsTraversal};
ghost use Rattle.shared_systems.specs.SharedMemory.{shared_peak_of};
ghost use Rattle.shared_systems.specs.SharedTraversal.{IsSharedTraversal};
ghost use Rattle.fences.specs.Certificates.{Certifies, join_places_from};
ghost use Rattle.fencing.specs.Asked.{IsFor};
ghost use Rattle.fencing.specs.Refusal.{IsCertifyingRefusal};

use crate::NoMemory;
use crate::choosing::best_chain;
use crate::fencing::FencingRefusal;
use crate::network::Network;
use crate::pruning::pruned;
use crate::rooms::{Chosen, fenced};
use fences::{CertificateRefusal, FenceCertificate, judge_certificate};
use mp_system::{OrderFault, ReplayRefusal, System};
use shared_systems::laws::{order_law, state_law};
use shared_systems::{SharedItems, SharedSystem};
use std::alloc::{AllocError, Global};

/// Why no certificate is made along an order.
#[derive(Clone, Copy, Debug, PartialEq, Eq)]
pub enum CertifyingRefusal {
    /// The order is no traversal: its first fault.
    Order(OrderFault),
    /// The order's peak is above the bound.
    Bound { peak: u64 },
    /// With its joins the system has more tasks or items than a system may have, the limits `tasks` and `positions`.
    ManyJoins,
    /// There would be more items and fences together than the limit `positions`, in the system with its joins.
    ManyFences,
    /// Memory ran out, which says nothing of the order.
    NoMemory,
}

impl From<NoMemory> for CertifyingRefusal {
    ghost use Rattle.fencing.specs.declared.certificate.CertifyingRefusal.TheVariants.{NoMemory as OutOfMemory};

    ghost from_gives = { λ _ e. e ≡ OutOfMemory };

    fn from(_no_memory: NoMemory) -> CertifyingRefusal {
        CertifyingRefusal::NoMemory
    }
}

impl From<ReplayRefusal> for CertifyingRefusal {
    ghost use Rattle.fencing.specs.Refusal.{certifying_of_replay};

    ghost from_gives = { λ refusal e. e ≡ certifying_of_replay refusal };

    fn from(refusal: ReplayRefusal) -> CertifyingRefusal {
        match refusal {
            ReplayRefusal::Order(fault) => CertifyingRefusal::Order(fault),
            ReplayRefusal::NoMemory => CertifyingRefusal::NoMemory,
        }
    }
}

impl From<FencingRefusal> for CertifyingRefusal {
    ghost use Rattle.fencing.specs.Refusal.{of_fencing};

    ghost from_gives = { λ refusal e. e ≡ of_fencing refusal };

    fn from(refusal: FencingRefusal) -> CertifyingRefusal {
        match refusal {
            FencingRefusal::Order(fault) => CertifyingRefusal::Order(fault),
            FencingRefusal::Bound { peak } => CertifyingRefusal::Bound { peak },
            FencingRefusal::ManyFences => CertifyingRefusal::ManyFences,
            FencingRefusal::NoMemory => CertifyingRefusal::NoMemory,
        }
    }
}

/// The places of the items with several readers, from 1.
pub fn join_places(alloc: Global, items: &SharedItems) -> Result<Vec<u32>, NoMemory>
    requires { length items.now ≤ most_positions }
    ensures { IfOk result (λ places. places.items ≡ join_places_from 1 items.now) }
{
    let mut places = Vec::new(alloc);
    for i in 0..items.len() {
        if items.readers(i).len() > 1 {
            places.push(i as u32 + 1)?;
        }
    }
    Ok(places)
}

// What the search finds, if it is accepted.
fn found_along(
    alloc: Global,
    system: &SharedSystem,
    collected: &System,
    order: &[u32],
    bound: u64,
    workers: Option<u32>,
) -> Result<Option<FenceCertificate>, NoMemory>
    requires traversal { IsTraversal collected.now order.now }
    requires workers { IfSome workers (λ count. 1 ≤ count) }
    ensures certified { IfOk result (λ found. IfSome found (Certifies system.now)) }
    ensures asked { IfOk result (λ found. IfSome found (λ c. (c.bound ≡ bound) × IsFor workers c.workers)) }
{
    state_law();
    let tasks = system.tasks().len() as u32;
    let Some(chosen) = best_chain(alloc, collected, order, tasks, bound, workers)? else {
        return Ok(None);
    };
    let joins = join_places(alloc, system.items())?;
    let certificate = FenceCertificate {
        bound,
        workers: chosen.workers,
        joins,
        fences: chosen.fencing.fences,
        amounts: chosen.fencing.amounts,
    };
    match judge_certificate(alloc, system, &certificate) {
        Ok(()) => Ok(Some(certificate)),
        Err(CertificateRefusal::NoMemory) => Err(AllocError),
        Err(_) => Ok(None),
    }
}

// A certificate along a traversal, found by the search if it is accepted.
fn made_along(
    alloc: Global,
    system: &SharedSystem,
    order: &[u32],
    bound: u64,
    workers: Option<u32>,
) -> Result<FenceCertificate, CertifyingRefusal>
    requires workers { IfSome workers (λ count. 1 ≤ count) }
    ensures along { IfOk result (λ _. IsSharedTraversal system.now order.now × (shared_peak_of system.now order.now ≤ bound)) }
    ensures certified { IfOk result (Certifies system.now) }
    ensures asked { IfOk result (λ c. (c.bound ≡ bound) × IsFor workers c.workers) }
    ensures refused { IfErr result (IsCertifyingRefusal system.now order.now bound) }
{
    order_law();
    state_law();
    let peak = system.peak(alloc, order)?;
    if peak > bound {
        return Err(CertifyingRefusal::Bound { peak });
    }
    let Some(collected) = system.collected(alloc)? else {
        return Err(CertifyingRefusal::ManyJoins);
    };
    collected.keeps();
    let order = system.woven(alloc, order)?;
    if let Some(found) = found_along(alloc, system, &collected, &order, bound, workers)? {
        return Ok(found);
    }
    let Chosen { workers, fencing } = fenced(alloc, &collected, &order, bound, workers)?;
    let joins = join_places(alloc, system.items())?;
    Ok(FenceCertificate {
        bound,
        workers,
        joins,
        fences: fencing.fences,
        amounts: fencing.amounts,
    })
}

// The other certificate, if it has fewer fences and is accepted.
fn fewer_of(
    alloc: Global,
    system: &SharedSystem,
    certificate: FenceCertificate,
    other: FenceCertificate,
) -> Result<FenceCertificate, NoMemory>
    requires certified { Certifies system.now certificate }
    requires same { (other.bound ≡ certificate.bound) × (other.workers ≡ certificate.workers) }
    ensures certified { IfOk result (Certifies system.now) }
    ensures same { IfOk result (λ c. (c.bound ≡ certificate.bound) × (c.workers ≡ certificate.workers)) }
    ensures few { IfOk result (λ c. length c.fences ≤ length certificate.fences) }
{
    if other.fences.len() >= certificate.fences.len() {
        return Ok(certificate);
    }
    match judge_certificate(alloc, system, &other) {
        Ok(()) => Ok(other),
        Err(CertificateRefusal::NoMemory) => Err(AllocError),
        Err(_) => Ok(certificate),
    }
}

// A certificate with some of the fences of this one, if one is found.
fn with_fewer(
    alloc: Global,
    system: &SharedSystem,
    order: &[u32],
    certificate: FenceCertificate,
) -> Result<FenceCertificate, NoMemory>
    requires traversal { IsSharedTraversal system.now order.now }
    requires certified { Certifies system.now certificate }
    ensures certified { IfOk result (Certifies system.now) }
    ensures same { IfOk result (λ c. (c.bound ≡ certificate.bound) × (c.workers ≡ certificate.workers)) }
    ensures few { IfOk result (λ c. length c.fences ≤ length certificate.fences) }
{
    order_law();
    let Some(collected) = system.collected(alloc)? else {
        return Ok(certificate);
    };
    let order = system.woven(alloc, order)?;
    let tasks = system.tasks().len() as u32;
    let network = Network::new(alloc, &collected, &order, tasks)?;
    let Some(fencing) = pruned(alloc, &network, &certificate)? else {
        return Ok(certificate);
    };
    let joins = join_places(alloc, system.items())?;
    let other = FenceCertificate {
        bound: certificate.bound,
        workers: certificate.workers,
        joins,
        fences: fencing.fences,
        amounts: fencing.amounts,
    };
    fewer_of(alloc, system, certificate, other)
}

/// A certificate, for so many workers or any number, that fences along a traversal keep a shared system within the bound. There is one for each
/// bound from the order's peak on. Near linear in the tasks, the items and the readers of all items.
///
/// It is made by a search for good fences, which promises nothing and is judged; where that is not accepted, as it may be near the limits, by
/// [`fence_along`](crate::fence_along). For at most so many workers several rooms for each of them are tried. Kept is one with which a run takes
/// the least time by estimate; of those that take about as long the one with the fewest fences.
///
/// Where the fewest fences are asked for, those of them are left out whose amounts a further search can lead otherwise, those on the longest paths
/// first. What is left is judged too, and never more. The steps of that search are limited: within the limit no other fence could be left out.
pub fn certificate_along(
    alloc: Global,
    system: &SharedSystem,
    order: &[u32],
    bound: u64,
    workers: Option<u32>,
    fewest: bool,
) -> Result<FenceCertificate, CertifyingRefusal>
    requires workers { IfSome workers (λ count. 1 ≤ count) }
    ensures along { IfOk result (λ _. IsSharedTraversal system.now order.now × (shared_peak_of system.now order.now ≤ bound)) }
    ensures certified { IfOk result (Certifies system.now) }
    ensures asked { IfOk result (λ c. (c.bound ≡ bound) × IsFor workers c.workers) }
    ensures refused { IfErr result (IsCertifyingRefusal system.now order.now bound) }
{
    let made = made_along(alloc, system, order, bound, workers)?;
    if fewest {
        Ok(with_fewer(alloc, system, order, made)?)
    } else {
        Ok(made)
    }
}
