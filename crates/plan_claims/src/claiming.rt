//! The claims of a plan: a walk from the last position down.

ghost use Rattle.std.specs.Prelude.{◌≡◌, ◌+◌, ◌-◌, ◌<◌, ◌≤◌, ◌++◌, ℕ, pos, ◌≤ℤ◌, ◌+ℤ◌, length, reverse, All, List, Some, IfOk, IfSome};
ghost use Rattle.std.specs.Prelude.{OnOk};
ghost use Rattle.limits.specs.Limits.{most_positions, most_total};
ghost use Rattle.sp_terms.specs.Values.{term_of};
ghost use Rattle.claim_rules.specs.Claims.{Claim as RuleClaim};
ghost use Rattle.plans.specs.Plan.{claim_at, IsClaimWithin, RiseFrom};
ghost use Rattle.claim_check.specs.Judged.{PassesAt};
ghost use Rattle.cut_laws.specs.Names.{numbered};
ghost use Rattle.cut_laws.specs.TermCuts.{cut_of_term};
ghost use Rattle.sp_cuts.specs.Notes.{noted_in, cut_at, AreNotesOf};
ghost use Rattle.sp_cuts.specs.Parts.{cut_of, IsPart};
ghost use Rattle.plan_claims.specs.declared.wanted.Wanted.{Wanted};
ghost use Rattle.plan_claims.specs.Walks.{AreClaimsOf, IsLeft, IsRight, claims_put};
ghost use Rattle.plan_claims.specs.Wants.{Shows};

use crate::NoMemory;
use crate::handing::hand_down;
use crate::laws::below;
use crate::wanted::Wanted;
use plans::{Claim, Direction};
use sp_cuts::{Notes, Part};
use sp_terms::TermList;
use std::alloc::Global;

/// Claims at positions of a term that certify that the peak of a plan is least: at most one for each position, each of which meets
/// its rule over the claims of its parts, and one on the whole term whose bound is just below the peak. They turn the exchange
/// argument of Liu 1987 (An application of generalized tree pebbling to sparse matrix factorization) into a certificate: no way
/// within the bound of a claim leads to the end of its term. The part is that of the whole term, with what was noted of all
/// positions while it was made, as [`sp_cuts::plan_terms`] gives them. Bounds are from -1 to 2^60 - 1. Linear in the positions and
/// the notes.
pub fn claims_of(
    alloc: Global,
    terms: &TermList,
    part: &Part,
    notes: Notes,
) -> Result<Vec<Claim>, NoMemory>
    requires part { (lists : List (List ℕ)) × IsPart lists part.now
        × (cut_of lists part.now ≡ cut_of_term (term_of terms.now) (numbered 1 (term_of terms.now))) }
    requires notes { AreNotesOf terms.now (length terms.now) (noted_in notes) }
    // what a plan file asks of its claims
    ensures few { IfOk result (λ claims. length claims.items ≤ most_positions) }
    ensures within { IfOk result (λ claims. All IsClaimWithin claims.items) }
    ensures rising { IfOk result (λ claims. RiseFrom 0 claims.items) }
    // what the judge of claims asks of them
    ensures pass { IfOk result (λ claims. (k : ℕ) → PassesAt terms.now (claim_at claims.items) k) }
    ensures root { IfOk result
        (λ claims. (c : RuleClaim) × (claim_at claims.items (length terms.now) ≡ Some c) × (pos part.now.peak ≤ℤ (c.bound +ℤ pos 1))) }
{
    below();
    terms.keeps();
    let root = want_whole(part);
    claims_from(alloc, terms, notes, root)
}

// What is wanted of the whole term: below its peak, in a direction whose side reaches it.
fn want_whole(whole: &Part) -> Wanted
    requires part { (lists : List (List ℕ)) × IsPart lists whole.now }
    ensures limit { result.limit ≡ whole.now.peak }
    ensures shows { (lists : List (List ℕ)) → IsPart lists whole.now → Shows (cut_of lists whole.now) result }
{
    below();
    let bound = whole.peak as i64 - 1;
    let (dir, low) = if whole.peak <= whole.front.top(whole.initial) {
        (Direction::Forward, whole.front.lowest(whole.initial, bound))
    } else {
        (Direction::Backward, whole.back.lowest(whole.fin, bound))
    };
    Wanted {
        dir,
        limit: whole.peak,
        low,
    }
}

// The claims, for what is wanted of the whole term.
fn claims_from(
    alloc: Global,
    terms: &TermList,
    mut notes: Notes,
    root: Wanted,
) -> Result<Vec<Claim>, NoMemory>
    requires notes { AreNotesOf terms.now (length terms.now) (noted_in notes) }
    requires root { Shows (cut_at (term_of terms.now)) root }
    ensures claims { IfOk result (λ claims. AreClaimsOf terms.now root claims.items) }
{
    let mut todo = Vec::new(alloc);
    todo.push(Some(root))?;
    let mut claims = Vec::new(alloc);
    let mut position = terms.len();
    while 0 < position {
        claim_at_position(terms, &mut notes, position, &mut todo, &mut claims)?;
        position -= 1;
    }
    claims.reverse();
    Ok(claims)
}

// One position: its claim, if one is wanted of its term, and what is wanted of the parts.
fn claim_at_position(
    terms: &TermList,
    notes: &mut Notes,
    position: u32,
    todo: &mut Vec<Option<Wanted>>,
    claims: &mut Vec<Claim>,
) -> Result<(), NoMemory>
    requires position { (1 ≤ position) × (position ≤ length terms.now) }
    requires left { IsLeft terms.now position (noted_in notes.old) todo.old.items }
    ensures left { OnOk result (IsLeft terms.now (position - 1) (noted_in notes.new) todo.new.items) }
    ensures right { OnOk result ((root : Wanted) → IsRight terms.now position root todo.old.items (reverse claims.old.items)
        → IsRight terms.now (position - 1) root todo.new.items (reverse claims.new.items)) }
{
    below();
    terms.keeps();
    let Some(wanted) = todo.pop() else {
        unreachable!()
    };
    put_claim(position, wanted, claims)?;
    hand_down(terms.at(position), notes, wanted, todo)?;
    Ok(())
}

fn put_claim(position: u32, wanted: Option<Wanted>, claims: &mut Vec<Claim>) -> Result<(), NoMemory>
    requires { IfSome wanted (λ w. w.limit ≤ most_total) }
    ensures { OnOk result (claims.new.items ≡ claims.old.items ++ claims_put position wanted) }
{
    if let Some(wanted) = wanted {
        claims.push(Claim {
            position,
            dir: wanted.dir,
            bound: wanted.limit as i64 - 1,
            rest: wanted.low,
        })?;
    }
    Ok(())
}
