//! What form a plan's text has.

ghost use Rattle.std.specs.Prelude.{◌≡◌};
ghost use Rattle.plan_orders.specs.PlanOrder.{is_blank, first_mark, is_third, form_of};

use bounded_plan_files::says_third;
use mp_text::{Layout, Lines};

/// What form the text of a plan has.
#[derive(Clone, Copy, Debug, PartialEq, Eq)]
pub enum PlanForm {
    /// One object of JSON.
    Json,
    /// A plan file of version 3.
    Third,
    /// A plan file of version 1 or 2, and whatever is none of the others.
    Earlier,
}

// Whether a byte is white space of JSON.
fn is_blank(byte: u8) -> bool
    ensures { result ≡ is_blank byte }
{
    matches!(byte, b' ' | b'\t' | b'\n' | b'\r')
}

// The first byte that is no white space.
#[tactic(auto, unfolding(crate::specs::PlanOrder::first_mark))]
fn first_mark(bytes: &[u8]) -> Option<u8>
    ensures { result ≡ first_mark bytes.now }
{
    bytes.iter().copied().find(|byte| !is_blank(*byte))
}

// Whether line 1 says version 3.
fn is_third(bytes: &[u8]) -> bool
    ensures { result ≡ is_third bytes.now }
{
    match Lines::new(bytes, Layout::Commented).next_line() {
        Some(line) => says_third(line),
        None => false,
    }
}

/// The form of a text.
pub fn form_of(bytes: &[u8]) -> PlanForm
    ensures { result ≡ form_of bytes.now }
{
    if let Some(b'{') = first_mark(bytes) {
        PlanForm::Json
    } else if is_third(bytes) {
        PlanForm::Third
    } else {
        PlanForm::Earlier
    }
}
