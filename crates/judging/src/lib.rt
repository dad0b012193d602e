//! Files and inputs, judged: each has a value, or a page refuses it.
//!
//! The definitions stand in specs/: `Files`, what each file reads as, and the answer that refuses it; `Told`, `Numbered`, `Priorities`.
#![tactic(auto)]

mod files;
mod inputs;
mod numbered;
mod page;
mod status;
mod stop;

pub use files::{
    BoundedPlanFile, EitherGraphFile, FencesFile, FileKind, InverseFile, MatrixFile, OrderFile,
    PermFile, PlanFile, PlannedOrderFile, Ranked, SharedGraphFile, TreeFile, WorkflowFile, judge,
};
pub use inputs::{
    Order, OrderedPattern, OrderedTasks, PatternWithOrder, Priority, Tasks, judge_input,
    judge_matrix, judge_order, judge_ordered_pattern, judge_ordered_tasks, judge_pattern,
    judge_priority, judge_tasks, judge_tree,
};
pub use numbered::{NumberedTerm, judge_numbered};
pub use page::{
    Page, PageKind, bound_page, format_page, limit_page, line_page, order_page, print_count,
    print_end, print_list, print_numbers,
};
pub use status::{Status, code_of, complaint};
pub use stop::Stop;
