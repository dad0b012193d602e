//! Rows that a program of few lines in another language made of PCG's published definition, and grids by hand.

ghost use Rattle.std.specs.Prelude.{◌≤◌};
ghost use Rattle.limits.specs.Limits.{most_tasks};

use mp_gen::{gen_grid, gen_tree, gen_workflow};
use mp_text::Report;
use patterns::Pattern;
use std::alloc::Global;
use std::process::Abort;
use std::test::Fail;
use tree_files::{print_tree, read_tree};
use workflow_files::print_workflow;

fn tree_text(alloc: Global, seed: u64, n: u32) -> Result<Report, Fail>
    requires { (1 ≤ n) × (n ≤ most_tasks) }
{
    let mut report = Report::new(alloc);
    print_tree(&gen_tree(alloc, seed, n)?, &mut report)?;
    Ok(report)
}

fn workflow_text(alloc: Global, seed: u64, n: u32) -> Result<Report, Fail>
    requires { (1 ≤ n) × (n ≤ most_tasks) }
{
    let mut report = Report::new(alloc);
    print_workflow(&gen_workflow(alloc, seed, n)?, &mut report)?;
    Ok(report)
}

fn check_text(rt: &impl Abort, report: &Report, wanted: &str) {
    assert_eq!(rt; report.bytes(), wanted.as_bytes());
}

#[test]
fn a_seed_has_its_tree(rt: HostRuntime) -> Result<(), Fail> {
    let alloc = rt.alloc();
    check_text(
        &rt,
        &tree_text(alloc, 1, 1)?,
        "tree 1\nnodes 1\n0 850 764 8\nend\n",
    );
    let three = "tree 1\nnodes 3\n3 765 655 4\n3 698 406 4\n0 875 43 10\nend\n";
    check_text(&rt, &tree_text(alloc, 1, 3)?, three);
    check_text(&rt, &tree_text(alloc, 1, 3)?, three);
    let other = "tree 1\nnodes 3\n2 865 610 11\n3 720 695 3\n0 23 71 16\nend\n";
    check_text(&rt, &tree_text(alloc, 2, 3)?, other);
    Ok(())
}

#[test]
fn a_tree_is_read_as_it_was_printed(rt: HostRuntime) -> Result<(), Fail> {
    let alloc = rt.alloc();
    let tree = gen_tree(alloc, 7, 100)?;
    let mut report = Report::new(alloc);
    print_tree(&tree, &mut report)?;
    let again = read_tree(alloc, report.bytes())?;
    assert_eq!(rt; again.nodes(), tree.nodes());
    Ok(())
}

#[test]
fn a_seed_has_its_workflow(rt: HostRuntime) -> Result<(), Fail> {
    let alloc = rt.alloc();
    let least = gen_workflow(alloc, 1, 1)?;
    assert_eq!(rt; least.len(), 3);
    // the last task takes two terms that stand, as its word is even
    let four =
        "workflow 1\ntasks 4\ndata 765\ndata 656\ntask 427 7\ndata 900\ndata 875\ntask 43 10\ndata 866\ndata 997\ntask 720 13\n\
        task 964 8\npar 2\nend\n";
    check_text(&rt, &workflow_text(alloc, 1, 4)?, four);
    check_text(&rt, &workflow_text(alloc, 1, 4)?, four);
    // some terms are set side by side on the way, and three at the end
    let other =
        "workflow 1\ntasks 4\ndata 22\ndata 939\ntask 380 5\ndata 453\ndata 753\ntask 820 5\npar 2\ndata 197\ndata 241\n\
        task 514 6\ndata 896\ndata 213\ntask 839 13\npar 3\nend\n";
    check_text(&rt, &workflow_text(alloc, 10, 4)?, other);
    Ok(())
}

fn check_rows(rt: &impl Abort, pattern: &Pattern, rows: &[&[u32]]) {
    assert_eq!(rt; pattern.rows() as usize, rows.len());
    for (i, row) in rows.iter().enumerate() {
        assert_eq!(rt; pattern.neighbours(i as u32 + 1), *row);
    }
}

#[test]
fn grids_join_neighbours(rt: HostRuntime) -> Result<(), Fail> {
    let alloc = rt.alloc();
    check_rows(&rt, &gen_grid(alloc, 1, 1)?, &[&[]]);
    check_rows(
        &rt,
        &gen_grid(alloc, 2, 2)?,
        &[&[2, 3], &[1, 4], &[1, 4], &[2, 3]],
    );
    let wide: [&[u32]; 6] = [&[2, 4], &[1, 3, 5], &[2, 6], &[1, 5], &[2, 4, 6], &[3, 5]];
    check_rows(&rt, &gen_grid(alloc, 2, 3)?, &wide);
    Ok(())
}
