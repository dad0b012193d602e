//! What every parallel run of a system stays within (Marchal, Simon and Vivien 2018): whatever starts the tasks, in whatever order, on
//! however many workers, and however long they take. Amounts that are handed on along the items certify it, and fences make it less.
//!
//! [`judge_amounts`] judges amounts, [`judge_fences`] fences with amounts for a bound, and [`judge_certificate`] such fences for a shared system,
//! in which an item may have several readers. [`are_implied`] says where fences forbid no run. The definitions stand in specs/: `Moments`, `Runs`, `Amounts`, `Workers`, `Fences`, `SharedRuns`;
//! `Implied`, fences that forbid no run; `Judged`, `Orders`, `JudgedFences` and `Certificates`, what they are refused with; the laws in [`laws`].
#![tactic(auto)]

mod bound;
mod certificate;
mod fenced;
mod implied;
mod judged;
pub mod laws;
mod ordered;
mod sums;

pub use certificate::{CertificateRefusal, FenceCertificate, Workers, judge_certificate};
pub use fenced::{Fence, FenceTest, FencesRefusal, judge_fences};
pub use implied::are_implied;
pub use judged::{AmountTest, AmountsRefusal, judge_amounts};
use std::alloc::AllocError;

/// Want of memory: an allocation was refused.
pub type NoMemory = AllocError;
