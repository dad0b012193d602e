ghost use Rattle.std.specs.Prelude.{◌≡◌, ◌≤◌, ◌-◌, IsTrue, ◌↔◌, length, slice_index_or, None, IfSome};
ghost use Rattle.sp_terms.specs.declared.position.Position.{Position};
ghost use Rattle.sp_terms.specs.declared.position.Position.TheVariants.{Par};
ghost use Rattle.sp_terms.specs.Postfix.{at_task};
ghost use Rattle.claim_rules.specs.Placed.{MeetsAt};
ghost use Rattle.plans.specs.Plan.{claim_of, claim_at};
ghost use Rattle.claim_check.specs.Judged.{PassesAt};
ghost use Rattle.claim_check.specs.Judgeable.{IsPlaced};
ghost use Rattle.claim_check.specs.Shapes.{shape_at};

use crate::par::{have_room, sum_of_parts};
use crate::rules::{meets_data, meets_series};
use crate::shape::{Shape, shape_of};
use crate::view::View;
use mp_system::Task;
use plans::Claim;
use sp_terms::{Position, hill};

/// What is said against the claim at a position: nothing where no claim stands there or the claim meets its rule, else what stands there.
/// A claim past the last position always fails, with `Outside`. It takes no memory, and the time of the parts of the term there, or of the
/// claims for a position that the term has not.
pub fn check_at(view: &View<'_>, position: u32) -> Option<Shape>
    // nothing is said exactly where no claim stands, or one of the term that meets its rule
    ensures none { (result ≡ None) ↔ PassesAt view.now.positions (claim_at view.now.claims) position }
    // else what stands at the position is named
    ensures shape { IfSome result (λ shape. shape ≡ shape_at view.now.positions position) }
{
    if !view.has_position(position) {
        if view.has_claim(position) {
            return Some(Shape::Outside);
        }
        return None;
    }
    let claim = view.part(position).claim?;
    if meets_rule(view, position, &claim) {
        None
    } else {
        Some(shape_of(view.at(position)))
    }
}

// Whether a claim at a position of the term meets its rule.
fn meets_rule(view: &View<'_>, position: u32, claim: &Claim) -> bool
    requires at { (1 ≤ position) × (position ≤ length view.now.positions) }
    requires placed { IsPlaced view.now.positions position }
    ensures { IsTrue result ↔ MeetsAt view.now.positions (claim_at view.now.claims) position (claim_of claim.now) }
{
    match view.at(position) {
        Position::Hold(size) => meets_data(size, claim),
        Position::Task { extra, share, time } => {
            meets_at_task(view, position, &Task { extra, share, time }, claim)
        }
        Position::Par(parts) => meets_par(view, position, parts, claim),
    }
}

// Whether a claim at a task meets a rule of a series.
fn meets_at_task(view: &View<'_>, position: u32, task: &Task, claim: &Claim) -> bool
    requires at { (1 ≤ position) × (position ≤ length view.now.positions) }
    requires placed { IsPlaced view.now.positions position }
    requires task { (d : Position) → slice_index_or view.now.positions (position - 1) d ≡ at_task task.now }
    ensures { IsTrue result ↔ MeetsAt view.now.positions (claim_at view.now.claims) position (claim_of claim.now) }
{
    let right = view.part(position - 1);
    let left = view.part(position - 1 - right.values.width);
    let hill = hill(&left.values, task, &right.values);
    meets_series(&left, &right, hill, claim)
}

// Whether a claim at terms side by side meets their rule.
fn meets_par(view: &View<'_>, position: u32, parts: u32, claim: &Claim) -> bool
    requires at { (1 ≤ position) × (position ≤ length view.now.positions) }
    requires placed { IsPlaced view.now.positions position }
    requires par { (d : Position) → slice_index_or view.now.positions (position - 1) d ≡ Par parts }
    ensures { IsTrue result ↔ MeetsAt view.now.positions (claim_at view.now.claims) position (claim_of claim.now) }
{
    let sum = sum_of_parts(view, position, parts, claim.dir);
    if !sum.some {
        return false;
    }
    if u128::from(claim.rest) > sum.total {
        return false;
    }
    have_room(view, position, parts, claim, sum.total)
}
