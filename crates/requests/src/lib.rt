//! Words to requests: what the words after the program's name ask for.
//!
//! The definitions stand in specs/: `Request`, what can be asked for, with the files that it names; `Words`, the words that ask for each; the
//! table of commands among them.
#![tactic(auto)]

mod commands;
mod request;

pub use commands::bound::Bounding;
pub use commands::check::{Check, FenceCheck, GraphCheck};
pub use commands::columns::{Columns, ColumnsFormat};
pub use commands::demo::Demo;
pub use commands::fence::{Fencing, PlannedFencing};
pub use commands::fronts::FrontRun;
pub use commands::plan::GraphPlan;
pub use commands::reduce::Carried;
pub use commands::replay::Replay;
pub use commands::request_of;
pub use commands::simulate::Simulation;
pub use commands::spill::Spilling;
pub use commands::upgrade::Upgrade;
pub use request::{
    DEFAULT_EFFORT, Input, Matrix, OrderSource, OrderedMatrix, Ordering, PlanFormat, Request,
    TaskSource, TreeInput,
};
