//! Plans as JSON. A plan is sent to a writer of `serde` part by part, so that nothing but the text takes memory.

ghost use Rattle.std.specs.Prelude.{◌≡◌, string_bytes, IfOk, IsTrue, OnOk};
ghost use Rattle.serde.specs.Event.{WritesSeq};
ghost use Rattle.serde_json.specs.Events.{SendsValue};
ghost use Rattle.mp_text.specs.Report.{is_token};
ghost use Rattle.plan_files.specs.Json.{json_of};
ghost use Rattle.plan_files.specs.JsonValues.{claim_value, plan_value};

use crate::NoMemory;
use crate::printing::dir_word;
use mp_text::laws::printed_number;
use plans::{Claim, Plan};
use serde::{Described, Serialize, Serializer};
use std::alloc::{AllocError, Global};

/// Sends a claim to a writer, as an array.
pub fn send_claim<S: Serializer>(claim: &Claim, out: &mut S) -> Result<(), S::Error>
    ensures { OnOk result (SendsValue (claim_value claim.now) (S.written out.old) (S.written out.new)) }
{
    (claim.position, dir_word(claim.dir), claim.bound, claim.rest).serialize(out)
}

// Sends claims, as an array of them.
fn send_claims<S: Serializer>(claims: &[Claim], out: &mut S) -> Result<(), S::Error>
    ensures { OnOk result
        (WritesSeq (λ claim. SendsValue (claim_value claim)) claims.now (S.written out.old) (S.written out.new)) }
{
    out.begin_seq(Some(claims.len()))?;
    for claim in claims {
        send_claim(claim, out)?;
    }
    out.end_seq()
}

/// A plan, for a writer: an object of its claims, its order and its peak.
#[derive(Drop)]
pub struct PlanJson<'a>(pub &'a Plan);

impl Described for PlanJson<'_> {
    ghost writes = { λ sent. SendsValue (plan_value sent.0.now) };
}

impl Serialize for PlanJson<'_> {
    fn serialize<S: Serializer>(&self, out: &mut S) -> Result<(), S::Error> {
        let plan = self.0;
        out.begin_map(Some(3))?;
        out.key("claims")?;
        send_claims(plan.claims(), out)?;
        out.key("order")?;
        plan.order().serialize(out)?;
        out.key("peak")?;
        plan.peak().serialize(out)?;
        out.end_map()
    }
}

/// A plan as JSON without blanks: an object of its claims, each as `[position,"F" or "R",bound,rest]`, its order and its peak, as in
/// `{"claims":[[3,"R",8,7]],"order":[1],"peak":9}`. A priority is no member. Linear in the tasks and the claims.
pub fn plan_json(alloc: Global, plan: &Plan) -> Result<String, NoMemory>
    ensures text { IfOk result (λ text. string_bytes text ≡ json_of plan.now) }
    ensures token { IfOk result (λ text. IsTrue (is_token (string_bytes text))) }
{
    printed_number();
    plan.keeps();
    // each part of a plan can be written, so only memory can be wanting
    serde_json::to_string(alloc, &PlanJson(plan)).map_err(|_| AllocError)
}
