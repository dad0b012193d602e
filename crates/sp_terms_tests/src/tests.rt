//! Workflow files, and what their terms are.

mod files;
mod terms;

use sp_terms::TermList;
use std::alloc::Global;
use std::test::Fail;
use workflow_files::read_workflow;

// Two like branches of two tasks each.
const BRANCHES: &str =
    "workflow 1\ntasks 4\ndata 4\ndata 1\ntask 0 1\ndata 3\ntask 6 1\ndata 4\ndata 1\ntask 0 1\ndata 3\ntask 6 1\npar 2\nend\n";

fn read(alloc: Global, text: &str) -> Result<TermList, Fail> {
    Ok(read_workflow(alloc, text.as_bytes())?)
}
