//! Whether some parts make a plan within the limits.

ghost use Rattle.std.specs.Prelude.{◌≡◌, ◌<◌, ◌↔◌, All, IsTrue, IfOk};
ghost use Rattle.plans.specs.Plan.{IsClaimWithin, RiseFrom, IsPriority, IsPlan};

use crate::NoMemory;
use crate::claim::Claim;
use limits::{MOST_POSITIONS, MOST_TASKS, MOST_TOTAL};
use permutations::PartialPerm;
use std::alloc::Global;

// Whether a claim is within the limits, and can come after one at this position.
fn is_next(last: u32, claim: &Claim) -> bool
    ensures { IsTrue result ↔ (IsClaimWithin claim.now × (last < claim.now.position)) }
{
    claim.bound.unsigned_abs() <= MOST_TOTAL && claim.rest <= MOST_TOTAL && last < claim.position
}

fn are_claims(claims: &[Claim]) -> bool
    ensures { IsTrue result ↔ (All IsClaimWithin claims.now × RiseFrom 0 claims.now) }
{
    let mut last = 0;
    for claim in claims {
        if !is_next(last, claim) {
            return false;
        }
        last = claim.position;
    }
    true
}

// Whether all of so many tasks are ranked, or none.
fn is_priority(alloc: Global, tasks: u32, priority: &[u32]) -> Result<bool, NoMemory>
    ensures { IfOk result (λ yes. IsTrue yes ↔ IsPriority tasks priority.now) }
{
    if priority.is_empty() {
        return Ok(true);
    }
    let mut ranked = PartialPerm::new(alloc, tasks)?;
    for task in priority {
        if !ranked.takes(u64::from(*task)) {
            return Ok(false);
        }
        ranked.push(*task)?;
    }
    Ok(priority.len() == tasks as usize)
}

/// Whether these parts make a plan: what `Plan::new` asks for. Linear in the parts.
pub fn is_plan(
    alloc: Global,
    order: &[u32],
    peak: u64,
    claims: &[Claim],
    priority: &[u32],
) -> Result<bool, NoMemory>
    ensures { IfOk result (λ yes. IsTrue yes
        ↔ IsPlan (record { order = order.now; peak = peak; claims = claims.now; priority = priority.now })) }
{
    if order.len() as u64 > MOST_TASKS || peak > MOST_TOTAL {
        return Ok(false);
    }
    if claims.len() as u64 > MOST_POSITIONS || !are_claims(claims) {
        return Ok(false);
    }
    is_priority(alloc, order.len() as u32, priority)
}
