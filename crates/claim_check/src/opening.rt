//! What is judged before the claims: the order, the peak and the claim on the whole term.

ghost use Rattle.std.specs.Prelude.{◌≡◌, pos, ◌≤ℤ◌, ◌+ℤ◌, IsTrue, ◌↔◌, IfErr, IfOk, OnOk};
ghost use Rattle.mp_system.specs.System.{TaskSystem};
ghost use Rattle.plans.specs.Plan.{claim_at};
ghost use Rattle.claim_check.specs.Accepted.{HasRoot};
ghost use Rattle.claim_check.specs.Lowest.{IsLowestFrom};
ghost use Rattle.claim_check.specs.Opening.{IsEarly, IsSettled};
ghost use Rattle.claim_check.specs.Verdicts.{IsVerdict};

use crate::NoMemory;
use crate::objection::Objection;
use crate::verdict::Verdict;
use crate::view::View;
use mp_system::{ReplayRefusal, System, replay};
use plans::{Claim, Plan};
use sp_terms::TermList;
use std::alloc::Global;

/// Why the claims of a plan are not judged.
#[derive(Clone, Copy)]
pub enum Early {
    /// Memory ran out, which says nothing of the plan.
    NoMemory,
    /// The order, the peak or the claim on the whole term is objected to.
    Objection(Objection),
}

impl From<NoMemory> for Early {
    ghost use Rattle.claim_check.specs.declared.opening.Early.TheVariants.{NoMemory as OutOfMemory};

    ghost from_gives = { λ _ e. e ≡ OutOfMemory };

    fn from(_no_memory: NoMemory) -> Early {
        Early::NoMemory
    }
}

/// The claims of a plan whose order, peak and claim on the whole term are as they have to be, else what is objected to in these.
pub fn opened<'a>(
    alloc: Global,
    system: &System,
    terms: &'a TermList,
    plan: &'a Plan,
) -> Result<View<'a>, Early>
    ensures view { IfOk result (λ view. view ≡ record { positions = terms.now; claims = plan.now.claims }) }
    ensures settled { OnOk result (IsSettled system.now terms.now plan.now) }
    ensures early { IfErr result (IsEarly system.now terms.now plan.now) }
{
    let replayed = match replay(alloc, system, plan.order()) {
        Ok(replayed) => replayed,
        Err(ReplayRefusal::NoMemory) => return Err(Early::NoMemory),
        Err(ReplayRefusal::Order(fault)) => return Err(Early::Objection(Objection::Order(fault))),
    };
    let printed = plan.peak();
    if replayed != printed {
        return Err(Early::Objection(Objection::Peak { replayed, printed }));
    }
    let view = View::new(alloc, terms, plan.claims())?;
    if !has_root(&view, plan) {
        return Err(Early::Objection(Objection::Root { last: view.len() }));
    }
    Ok(view)
}

// Whether the last position has a claim with a bound of at least the plan's peak less 1.
fn has_root(view: &View<'_>, plan: &Plan) -> bool
    requires { view.now.claims ≡ plan.now.claims }
    ensures { IsTrue result ↔ HasRoot view.now.positions plan.now }
{
    let Some(claim) = view.part(view.len()).claim else {
        return false;
    };
    reaches(&claim, plan.peak())
}

// Whether the bound of a claim is at least a peak less 1.
fn reaches(claim: &Claim, peak: u64) -> bool
    ensures { IsTrue result ↔ pos peak ≤ℤ (claim.now.bound +ℤ pos 1) }
{
    i128::from(peak) <= i128::from(claim.bound) + 1
}

/// What is said of such a plan, by the lowest position whose claim fails.
pub fn verdict_by(view: &View<'_>, plan: &Plan, lowest: Option<u32>) -> Verdict
    requires claims { view.now.claims ≡ plan.now.claims }
    requires lowest { IsLowestFrom view.now.positions (claim_at view.now.claims) 0 lowest }
    ensures { (system : TaskSystem) → IsSettled system view.now.positions plan.now → IsVerdict system view.now.positions plan.now result }
{
    match lowest {
        None => Verdict::Yes(plan.peak()),
        Some(position) => Verdict::No(Objection::Claim {
            position,
            shape: view.shape(position),
        }),
    }
}
