ghost use Rattle.std.specs.Prelude.{◌≡◌, ◌≤◌, ◌-◌, ◌^◌, IsTrue, ◌↔◌, length, slice_index_or};
ghost use Rattle.sp_terms.specs.declared.position.Position.{Position};
ghost use Rattle.sp_terms.specs.declared.position.Position.TheVariants.{Par};
ghost use Rattle.claim_rules.specs.Placed.{claims_at};
ghost use Rattle.claim_rules.specs.Rules.{values_in, HaveRoom, SomeClaim};
ghost use Rattle.plans.specs.Plan.{claim_at, direction_of};
ghost use Rattle.claim_check.specs.Judgeable.{IsPlaced, parts_at};

use crate::rules::{has_room, value_in};
use crate::view::View;
use plans::{Claim, Direction};

/// The parts of a `par` taken together.
#[derive(Clone, Copy)]
pub struct Sum {
    /// The sum of their values in a direction: below 2^64 for each of them, of which there are below 2^32.
    pub total: u128,
    /// Whether one of them has a claim.
    pub some: bool,
}

/// The sum of the values of all parts, from the last one back: each says by its width where the one before it ends.
pub fn sum_of_parts(view: &View<'_>, position: u32, parts: u32, dir: Direction) -> Sum
    requires at { (1 ≤ position) × (position ≤ length view.now.positions) }
    requires placed { IsPlaced view.now.positions position }
    requires par { (d : Position) → slice_index_or view.now.positions (position - 1) d ≡ Par parts }
    ensures total { result.total ≡
        values_in (direction_of dir) (parts_at view.now.positions position)
        (claims_at view.now.positions (claim_at view.now.claims) position) }
    ensures some { IsTrue result.some ↔ SomeClaim (claims_at view.now.positions (claim_at view.now.claims) position) }
    ensures small { result.total ≤ 2 ^ 96 }
{
    let mut total: u128 = 0;
    let mut some = false;
    let mut here = position - 1;
    let mut left = parts;
    while left > 0 {
        let part = view.part(here);
        total += u128::from(value_in(&part, dir));
        some = some || part.claim.is_some();
        here -= part.values.width;
        left -= 1;
    }
    Sum { total, some }
}

/// Whether each part that has a claim has room for the values of all other parts, where these are their sum.
pub fn have_room(view: &View<'_>, position: u32, parts: u32, claim: &Claim, total: u128) -> bool
    requires at { (1 ≤ position) × (position ≤ length view.now.positions) }
    requires placed { IsPlaced view.now.positions position }
    requires par { (d : Position) → slice_index_or view.now.positions (position - 1) d ≡ Par parts }
    requires sum { total ≡
        values_in (direction_of claim.now.dir) (parts_at view.now.positions position)
        (claims_at view.now.positions (claim_at view.now.claims) position) }
    requires small { total ≤ 2 ^ 96 }
    ensures { IsTrue result ↔
        HaveRoom (direction_of claim.now.dir) claim.now.bound total (parts_at view.now.positions position)
        (claims_at view.now.positions (claim_at view.now.claims) position) }
{
    let mut here = position - 1;
    let mut left = parts;
    while left > 0 {
        let part = view.part(here);
        let others = total - u128::from(value_in(&part, claim.dir));
        if !has_room(&part, claim, others) {
            return false;
        }
        here -= part.values.width;
        left -= 1;
    }
    true
}
