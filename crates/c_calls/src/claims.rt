//! Claims as C has them.

ghost use Rattle.std.specs.Prelude.{◌≡◌, ◌≤◌, ◌<◌, ◌↔◌, length, map, take, drop, IfOk, IfErr, OnOk, IsTrue};
ghost use Rattle.limits.specs.Limits.{most_tasks, most_positions, most_total};
ghost use Rattle.plans.specs.Plan.{IsClaimWithin};
ghost use Rattle.c_calls.specs.Answers.{claim_given, plan_given};
ghost use Rattle.c_calls.specs.Refusals.{AreRisingClaims, IfClaim, IsFirstWrong, IsGivenPlanRefusal, IsPlanFault};

use crate::refusal::{PlanFault, Refusal};
use limits::{MOST_POSITIONS, MOST_TASKS, MOST_TOTAL};
use plans::{Direction, Plan};
use std::alloc::{AllocError, Global};

/// A claim on the part of the tree's term that ends at a position.
#[repr(C)]
#[derive(Clone, Copy)]
pub struct Claim {
    /// The position, from 1.
    pub position: u32,
    /// 0 forwards, else backwards.
    pub backward: u32,
    /// From -2^60 to 2^60.
    pub bound: i64,
    /// At most 2^60.
    pub rest: u64,
}

fn given(claim: Claim) -> plans::Claim
    ensures { result ≡ claim_given claim }
{
    plans::Claim {
        position: claim.position,
        dir: if claim.backward == 0 {
            Direction::Forward
        } else {
            Direction::Backward
        },
        bound: claim.bound,
        rest: claim.rest,
    }
}

fn handed(claim: plans::Claim) -> Claim
    ensures { claim_given result ≡ claim }
{
    Claim {
        position: claim.position,
        backward: match claim.dir {
            Direction::Forward => 0,
            Direction::Backward => 1,
        },
        bound: claim.bound,
        rest: claim.rest,
    }
}

// Whether a claim stands past a position, and is within the limits.
fn stands(claim: Claim, last: u32) -> bool
    ensures { IsTrue result ↔ ((last < claim.position) × IsClaimWithin (claim_given claim)) }
{
    last < claim.position && claim.bound.unsigned_abs() <= MOST_TOTAL && claim.rest <= MOST_TOTAL
}

// Whether each claim stands past the one before, and is within the limits.
fn check_claims(claims: &[Claim]) -> Result<(), PlanFault>
    ensures claims { OnOk result (AreRisingClaims claims.now) }
    ensures refused { IfErr result (λ fault. IfClaim fault (IsFirstWrong claims.now)) }
{
    let mut last: u32 = 0;
    for i in 0..claims.len() {
        if !stands(claims[i], last) {
            return Err(PlanFault::Claim(i as u64 + 1));
        }
        last = claims[i].position;
    }
    Ok(())
}

// The claims as a plan has them.
fn given_claims(alloc: Global, claims: &[Claim]) -> Result<Vec<plans::Claim>, AllocError>
    ensures { IfOk result (λ given. given.items ≡ map claim_given claims.now) }
{
    claims.iter().map(|claim| given(*claim)).collect(alloc)
}

// Whether an order, a peak and claims keep to what a plan keeps to.
fn check_limits(order: &[u32], peak: u64, claims: &[Claim]) -> Result<(), PlanFault>
    ensures few { OnOk result (length order.now ≤ most_tasks) }
    ensures peak { OnOk result (peak ≤ most_total) }
    ensures few_claims { OnOk result (length claims.now ≤ most_positions) }
    ensures claims { OnOk result (AreRisingClaims claims.now) }
    ensures refused { IfErr result (IsPlanFault order.now peak claims.now) }
{
    if order.len() as u64 > MOST_TASKS {
        return Err(PlanFault::LongOrder);
    }
    if peak > MOST_TOTAL {
        return Err(PlanFault::GreatPeak);
    }
    if claims.len() as u64 > MOST_POSITIONS {
        return Err(PlanFault::ManyClaims);
    }
    check_claims(claims)
}

/// The plan of an order, a peak and claims, or why they are none.
pub fn plan_of_arrays(
    alloc: Global,
    order: &[u32],
    peak: u64,
    claims: &[Claim],
) -> Result<Plan, Refusal>
    ensures plan { IfOk result (λ plan. plan ≡ plan_given order.now peak claims.now) }
    ensures refused { IfErr result (IsGivenPlanRefusal order.now peak claims.now) }
{
    check_limits(order, peak, claims)?;
    let order = Vec::from_slice(alloc, order)?;
    let claims = given_claims(alloc, claims)?;
    Ok(Plan::new(order, peak, claims, Vec::new(alloc)))
}

/// Writes claims at the front of the room, and leaves what lies past them.
pub fn hand_out(claims: &[plans::Claim], room: &mut [Claim])
    requires { length claims.now ≤ length room.old }
    ensures written { map claim_given (take (length claims.now) room.new) ≡ claims.now }
    ensures past { drop (length claims.now) room.new ≡ drop (length claims.now) room.old }
    ensures long { length room.new ≡ length room.old }
{
    for i in 0..claims.len() {
        room[i] = handed(claims[i]);
    }
}
