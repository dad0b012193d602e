//! Plans with a bound as JSON. A plan is sent to a writer of `serde` part by part, so that nothing but the text takes memory.

ghost use Rattle.std.specs.Prelude.{◌≡◌, string_bytes, IfOk, IsTrue, OnOk};
ghost use Rattle.serde.specs.Event.{WritesSeq};
ghost use Rattle.serde_json.specs.Events.{SendsValue};
ghost use Rattle.mp_text.specs.Report.{is_token};
ghost use Rattle.plan_files.specs.JsonValues.{claim_value};
ghost use Rattle.bounded_plan_files.specs.Json.{evidence_word, bounded_json_of};
ghost use Rattle.bounded_plan_files.specs.JsonValues.{amount_value, amounts_value, blocker_value, set_value, told_value, evidence_value};
ghost use Rattle.bounded_plan_files.specs.JsonValues.{bounded_plan_value};

use crate::NoMemory;
use crate::printing::event_word;
use bounded_plans::{BoundEvidence, BoundedPlan};
use mp_text::laws::printed_number;
use peak_bounds::{Amount, Blocker, EventSet, Evidence};
use plan_files::send_claim;
use plans::Claim;
use serde::{Described, Serialize, Serializer};
use std::alloc::{AllocError, Global};

// Sends an amount, as an array.
fn send_amount<S: Serializer>(told: &Amount, out: &mut S) -> Result<(), S::Error>
    ensures { OnOk result (SendsValue (amount_value told.now) (S.written out.old) (S.written out.new)) }
{
    (told.place, told.amount).serialize(out)
}

// Sends amounts, as an array of them.
fn send_amounts<S: Serializer>(amounts: &[Amount], out: &mut S) -> Result<(), S::Error>
    ensures { OnOk result
        (WritesSeq (λ told. SendsValue (amount_value told)) amounts.now (S.written out.old) (S.written out.new)) }
{
    out.begin_seq(Some(amounts.len()))?;
    for told in amounts {
        send_amount(told, out)?;
    }
    out.end_seq()
}

// Sends a blocker, as an array of its task and its amounts.
fn send_blocker<S: Serializer>(blocker: &Blocker, out: &mut S) -> Result<(), S::Error>
    ensures { OnOk result (SendsValue (blocker_value blocker.now) (S.written out.old) (S.written out.new)) }
{
    out.begin_seq(Some(2))?;
    blocker.task().serialize(out)?;
    send_amounts(blocker.amounts(), out)?;
    out.end_seq()
}

// Sends blockers, as an array of them.
fn send_blockers<S: Serializer>(blockers: &[Blocker], out: &mut S) -> Result<(), S::Error>
    ensures { OnOk result
        (WritesSeq (λ blocker. SendsValue (blocker_value blocker)) blockers.now (S.written out.old) (S.written out.new)) }
{
    out.begin_seq(Some(blockers.len()))?;
    for blocker in blockers {
        send_blocker(blocker, out)?;
    }
    out.end_seq()
}

// Sends a set, as an object of its base and its blockers.
fn send_set<S: Serializer>(set: &EventSet, out: &mut S) -> Result<(), S::Error>
    ensures { OnOk result (SendsValue (set_value set.now) (S.written out.old) (S.written out.new)) }
{
    out.begin_map(Some(2))?;
    out.key("base")?;
    send_amounts(set.base(), out)?;
    out.key("blockers")?;
    send_blockers(set.blockers(), out)?;
    out.end_map()
}

// Sends claims, as an array of them.
fn send_claims<S: Serializer>(claims: &[Claim], out: &mut S) -> Result<(), S::Error>
    ensures { OnOk result
        (WritesSeq (λ claim. SendsValue (claim_value claim)) claims.now (S.written out.old) (S.written out.new)) }
{
    out.begin_seq(Some(claims.len()))?;
    for claim in claims {
        send_claim(claim, out)?;
    }
    out.end_seq()
}

// The word for the sort of evidence.
fn evidence_word(evidence: &BoundEvidence) -> &'static str
    ensures { result.now ≡ evidence_word evidence.now }
{
    match evidence {
        BoundEvidence::Sums(Evidence::Start) => "need",
        BoundEvidence::Sums(Evidence::Need(_)) => "need",
        BoundEvidence::Sums(Evidence::Set(set)) => event_word(set.event()),
        BoundEvidence::Claims(_) => "claims",
        BoundEvidence::States(_) => "states",
    }
}

// Sends what is told behind the word.
fn send_told<S: Serializer>(evidence: &BoundEvidence, out: &mut S) -> Result<(), S::Error>
    ensures { OnOk result (SendsValue (told_value evidence.now) (S.written out.old) (S.written out.new)) }
{
    match evidence {
        BoundEvidence::Sums(Evidence::Start) => 0u32.serialize(out),
        BoundEvidence::Sums(Evidence::Need(task)) => task.serialize(out),
        BoundEvidence::Sums(Evidence::Set(set)) => send_set(set, out),
        BoundEvidence::Claims(claims) => send_claims(claims.claims(), out),
        BoundEvidence::States(most) => most.serialize(out),
    }
}

// Sends evidence, as an object of one member.
fn send_evidence<S: Serializer>(evidence: &BoundEvidence, out: &mut S) -> Result<(), S::Error>
    ensures { OnOk result (SendsValue (evidence_value evidence.now) (S.written out.old) (S.written out.new)) }
{
    out.begin_map(Some(1))?;
    out.key(evidence_word(evidence))?;
    send_told(evidence, out)?;
    out.end_map()
}

/// A plan with a bound, for a writer: an object of its bound, its evidence, its order and its peak.
#[derive(Drop)]
pub struct BoundedPlanJson<'a>(pub &'a BoundedPlan);

impl Described for BoundedPlanJson<'_> {
    ghost writes = { λ sent. SendsValue (bounded_plan_value sent.0.now) };
}

impl Serialize for BoundedPlanJson<'_> {
    fn serialize<S: Serializer>(&self, out: &mut S) -> Result<(), S::Error> {
        let plan = self.0;
        out.begin_map(Some(4))?;
        out.key("bound")?;
        plan.bound().serialize(out)?;
        out.key("evidence")?;
        send_evidence(plan.evidence(), out)?;
        out.key("order")?;
        plan.order().serialize(out)?;
        out.key("peak")?;
        plan.peak().serialize(out)?;
        out.end_map()
    }
}

/// A plan as JSON without blanks: an object of its bound, its evidence, its order and its peak, as in
/// `{"bound":7,"evidence":{"need":1},"order":[1],"peak":9}`. Evidence is an object of one member: `need` with a task, 0 for what is there at
/// the start; `first` or `last` with `{"base":[[place,amount],..],"blockers":[[task,[[place,amount],..]],..]}`; `claims` with claims as
/// `plan_json` writes them; or `states` with how many states are looked at from the end, at most. Linear in the tasks and the evidence.
pub fn bounded_plan_json(alloc: Global, plan: &BoundedPlan) -> Result<String, NoMemory>
    ensures text { IfOk result (λ text. string_bytes text ≡ bounded_json_of plan.now) }
    ensures token { IfOk result (λ text. IsTrue (is_token (string_bytes text))) }
{
    printed_number();
    plan.keeps();
    // each part of a plan can be written, so only memory can be wanting
    serde_json::to_string(alloc, &BoundedPlanJson(plan)).map_err(|_| AllocError)
}
