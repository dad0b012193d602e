ghost use Rattle.std.specs.Prelude.{◌≡◌, ◌≤◌, ◌^◌, IsTrue, ◌↔◌, Option, option_map};
ghost use Rattle.mp_system.specs.declared.system.Task.{Task};
ghost use Rattle.sp_terms.specs.Term.{Term, least_of, hill_of};
ghost use Rattle.sp_terms.specs.Values.{values_of};
ghost use Rattle.claim_rules.specs.Rules.{MeetsData, MeetsSeries, Has, HasRoom, value_in, is_same, passed_first, passed_last};
ghost use Rattle.claim_rules.specs.Claims.{Claim as RuleClaim};
ghost use Rattle.plans.specs.Plan.{claim_of, direction_of};

use crate::view::Part;
use plans::{Claim, Direction};

/// Whether a claim on a data item of this size meets its rule.
pub fn meets_data(size: u64, claim: &Claim) -> bool
    ensures { IsTrue result ↔ MeetsData size (claim_of claim.now) }
{
    i128::from(claim.bound) < i128::from(size) && claim.rest <= size
}

/// Whether two directions are the same.
pub fn is_same(one: Direction, two: Direction) -> bool
    ensures { result ≡ is_same (direction_of one) (direction_of two) }
{
    one == two
}

/// Whether there is a claim in this direction, with this bound and at least this rest.
fn has(claim: Option<Claim>, dir: Direction, bound: i64, rest: u64) -> bool
    ensures { IsTrue result ↔ Has (direction_of dir) bound rest (option_map claim_of claim) }
{
    let Some(claim) = claim else {
        return false;
    };
    if !is_same(claim.dir, dir) {
        return false;
    }
    if claim.bound != bound {
        return false;
    }
    rest <= claim.rest
}

/// Whether a claim on a series with this hill meets one of its rules. The parts come in the claim's direction.
fn is_passed(first: &Part, last: &Part, hill: u64, claim: &Claim) -> bool
    ensures { (a b : Term) (v : Task) (p q : Option RuleClaim) →
        first.now.values ≡ values_of (passed_first (direction_of claim.now.dir) a b) →
        option_map claim_of first.now.claim ≡ passed_first (direction_of claim.now.dir) p q →
        option_map claim_of last.now.claim ≡ passed_last (direction_of claim.now.dir) p q →
        hill ≡ hill_of a v b →
        IsTrue result ↔ MeetsSeries a v b p q (claim_of claim.now) }
{
    if has(first.claim, claim.dir, claim.bound, claim.rest) {
        return true;
    }
    if claim.rest > first.values.least {
        return false;
    }
    if i128::from(claim.bound) < i128::from(hill) {
        return true;
    }
    if has(first.claim, claim.dir.opposite(), claim.bound, 0) {
        return true;
    }
    has(last.claim, claim.dir, claim.bound, claim.rest)
}

/// Whether a claim on a series, whose parts and hill are these, meets one of its rules.
pub fn meets_series(left: &Part, right: &Part, hill: u64, claim: &Claim) -> bool
    ensures { (a b : Term) (v : Task) → left.now.values ≡ values_of a → right.now.values ≡ values_of b → hill ≡ hill_of a v b →
        IsTrue result ↔ MeetsSeries a v b (option_map claim_of left.now.claim) (option_map claim_of right.now.claim) (claim_of claim.now) }
{
    match claim.dir {
        Direction::Forward => is_passed(left, right, hill, claim),
        Direction::Backward => is_passed(right, left, hill, claim),
    }
}

/// The value of a part in a direction: no way within the bounds of the claims takes the part below it.
pub fn value_in(part: &Part, dir: Direction) -> u64
    ensures { (t : Term) → part.now.values ≡ values_of t → result ≡ value_in (direction_of dir) t (option_map claim_of part.now.claim) }
{
    match part.claim {
        Some(claim) if is_same(dir, claim.dir) => claim.rest,
        _ => part.values.least,
    }
}

/// Whether a part has no claim, or one whose bound is at least the whole's less the values of all other parts.
pub fn has_room(part: &Part, claim: &Claim, others: u128) -> bool
    requires { others ≤ 2 ^ 96 }
    ensures { IsTrue result ↔ HasRoom claim.now.bound others (option_map claim_of part.now.claim) }
{
    match part.claim {
        None => true,
        Some(own) => i128::from(claim.bound) - others as i128 <= i128::from(own.bound),
    }
}
