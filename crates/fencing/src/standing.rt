//! What no run of a system as it stands passes.

ghost use Rattle.std.specs.Prelude.{◌≡◌, ◌≤◌, ℕ, List, IfOk, IfErr, IfSome, MatchOption, map};
ghost use Rattle.mp_system.specs.System.{item_size};
ghost use Rattle.mp_system.specs.Traversal.{IsTraversal};
ghost use Rattle.shared_systems.specs.Collected.{HasRoom};
ghost use Rattle.shared_systems.specs.Collected as collecting;
ghost use Rattle.fences.specs.declared.judged.AmountsRefusal.TheVariants as amounts_refusals;
ghost use Rattle.fences.specs.Amounts.{certified_bound};
ghost use Rattle.fences.specs.Judged.{AreAccepted};
ghost use Rattle.fences.specs.Implied.{AreImplied};
ghost use Rattle.fences.specs.Certificates.{Certifies};
ghost use Rattle.fences.specs.Workers.{relieved};
ghost use Rattle.fencing.specs.Asked.{IsFor};
ghost use Rattle.fencing.specs.Standing.{IsStanding};

use crate::NoMemory;
use crate::certificate::join_places;
use crate::least_room::{Least, least_along};
use crate::rooms::without_room;
use fences::{
    AmountsRefusal, CertificateRefusal, FenceCertificate, FencesRefusal, are_implied,
    judge_amounts, judge_certificate,
};
use mp_system::System;
use shared_systems::laws::order_law;
use shared_systems::{SharedSystem, first_order};
use std::alloc::{AllocError, Global};

// A traversal of the collected system.
fn some_order(alloc: Global, system: &SharedSystem) -> Result<Vec<u32>, NoMemory>
    ensures { IfOk result (λ order. IsTraversal (collecting.collected system.now) order.items) }
{
    order_law();
    let order = first_order(alloc, system)?;
    let woven = system.woven(alloc, &order)?;
    Ok(woven)
}

// The sizes of the items.
fn sizes_of(alloc: Global, system: &System) -> Result<Vec<u64>, NoMemory>
    ensures { IfOk result (λ sizes. sizes.items ≡ map item_size system.now.items) }
{
    system.items().iter().map(|item| item.size).collect(alloc)
}

// The bound that amounts certify which are the sizes. They are never refused.
fn bound_by_sizes(alloc: Global, system: &System, sizes: &[u64]) -> Result<u64, AmountsRefusal>
    requires { sizes.now ≡ map item_size system.now.items }
    ensures accepted { IfOk result (λ _. AreAccepted system.now sizes.now) }
    ensures certified { IfOk result (λ bound. bound ≡ certified_bound (relieved 0 system.now) sizes.now) }
    ensures refused { IfErr result (λ refusal. refusal ≡ amounts_refusals.NoMemory) }
{
    system.keeps();
    judge_amounts(alloc, system, sizes, 0)
}

// The certificate in which each item hands on its size, and nothing is set aside.
fn by_sizes(
    alloc: Global,
    system: &SharedSystem,
    collected: &System,
    workers: Option<u32>,
) -> Result<FenceCertificate, NoMemory>
    requires collected { collected.now ≡ collecting.collected system.now }
    requires room { HasRoom system.now }
    requires ordered { (order : List ℕ) × IsTraversal collected.now order }
    ensures { IfOk result (IsStanding system.now workers) }
{
    collected.keeps();
    let amounts = sizes_of(alloc, collected)?;
    let Ok(bound) = bound_by_sizes(alloc, collected, &amounts) else {
        return Err(AllocError);
    };
    let joins = join_places(alloc, system.items())?;
    Ok(FenceCertificate {
        bound,
        workers: without_room(workers),
        joins,
        fences: Vec::new(alloc),
        amounts,
    })
}

// The least bound that the amounts of a certificate certify beside its own bound, which is what is set aside; none where they certify nothing.
fn least_bound(
    alloc: Global,
    system: &SharedSystem,
    certificate: &FenceCertificate,
) -> Result<Option<u64>, NoMemory> {
    match judge_certificate(alloc, system, certificate) {
        Ok(()) => Ok(Some(certificate.bound)),
        Err(CertificateRefusal::Fences(FencesRefusal::Bound(more))) => {
            Ok(certificate.bound.checked_add(more))
        }
        Err(CertificateRefusal::NoMemory) => Err(AllocError),
        Err(_) => Ok(None),
    }
}

// The certificate, if it is accepted, and its fences forbid no run.
fn judged(
    alloc: Global,
    system: &SharedSystem,
    certificate: FenceCertificate,
) -> Result<Option<FenceCertificate>, NoMemory>
    ensures found { IfOk result (λ found. IfSome found (λ c. c ≡ certificate)) }
    ensures certifies { IfOk result (λ found. IfSome found (Certifies system.now)) }
    ensures implied { IfOk result (λ found. IfSome found (λ c. AreImplied system.now c.fences)) }
{
    match judge_certificate(alloc, system, &certificate) {
        Ok(()) => {}
        Err(CertificateRefusal::NoMemory) => return Err(AllocError),
        Err(_) => return Ok(None),
    }
    if are_implied(alloc, system, &certificate.fences)? {
        Ok(Some(certificate))
    } else {
        Ok(None)
    }
}

// What the search finds, with the least bound that it certifies, if it is accepted.
fn found(
    alloc: Global,
    system: &SharedSystem,
    collected: &System,
    order: &[u32],
    workers: Option<u32>,
) -> Result<Option<FenceCertificate>, NoMemory>
    requires workers { IfSome workers (λ count. 1 ≤ count) }
    ensures { IfOk result (λ found. IfSome found (IsStanding system.now workers)) }
{
    let tasks = system.tasks().len() as u32;
    let Some(least) = least_along(alloc, collected, order, tasks, workers)? else {
        return Ok(None);
    };
    let Least {
        workers,
        reserve,
        fences,
        amounts,
    } = least;
    let joins = join_places(alloc, system.items())?;
    let mut certificate = FenceCertificate {
        bound: reserve,
        workers,
        joins,
        fences,
        amounts,
    };
    let Some(bound) = least_bound(alloc, system, &certificate)? else {
        return Ok(None);
    };
    certificate.bound = bound;
    judged(alloc, system, certificate)
}

/// A certificate, for so many workers or any number, of a bound that no run of a shared system passes as it stands: no fence of it forbids a run.
/// None where with its joins the system has more tasks or items than a system may have.
///
/// It is made by a search for amounts that certify little, which promises nothing and is judged; where that is not accepted, as it may be near the
/// limits, each item hands on its size. Without items of several readers the bound is what some run attains, unless the search runs out of steps,
/// which is not proved. Near linear in the tasks, the items and the readers of all items, beside the steps of the search.
pub fn standing_certificate(
    alloc: Global,
    system: &SharedSystem,
    workers: Option<u32>,
) -> Result<Option<FenceCertificate>, NoMemory>
    requires workers { IfSome workers (λ count. 1 ≤ count) }
    ensures { IfOk result (λ found. MatchOption found (¬ HasRoom system.now) (IsStanding system.now workers)) }
{
    let Some(collected) = system.collected(alloc)? else {
        return Ok(None);
    };
    let order = some_order(alloc, system)?;
    if let Some(found) = found(alloc, system, &collected, &order, workers)? {
        return Ok(Some(found));
    }
    let certificate = by_sizes(alloc, system, &collected, workers)?;
    Ok(Some(certificate))
}
