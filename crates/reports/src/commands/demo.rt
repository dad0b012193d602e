//! `demo`: an input that is made from a number, its plan, and the verdict of the checker on the plan.

ghost use Rattle.std.specs.Prelude.{◌≡◌, ◌≤◌, ◌<◌, ◌*◌, ◌++◌, ◌∷◌, [], IfOk, OnOk, IsTrue, length};
ghost use Rattle.limits.specs.Limits.{most_mindeg};
ghost use Rattle.least_peak.specs.Problem.{system_of};
ghost use Rattle.least_peak.specs.declared.problem.Origin.TheVariants as origins;
ghost use Rattle.reports.specs.Demo.{IsGridTree, IsMade, HasPositions};
ghost use Rattle.reports.specs.Demo.{IsPostorderPeak, kind_word, check_word, postorder_lines, demo_lines, IsJudgedSummary, IsDemoOf};
ghost use Rattle.judging.specs.Pages.{answer_of};
ghost use Rattle.requests.specs.Request.{IsMakeable};
ghost use Rattle.judging.specs.declared.status.Status.TheVariants.{Done};
ghost use Rattle.mp_text.specs.Report.{is_token, is_line_start, line_text, text_of_lines};

use assembly_tree::Shape;
use claim_check::Verdict;
use judging::{Page, PageKind, print_count, print_end};
use least_peak::Problem;
use mp_gen::{gen_grid, gen_tree, gen_workflow};
use mp_outside::Gate;
use mp_text::Report;
use mp_text::Token::Word;
use mp_text::laws::printed_lines;
use ordering::{MindegRefusal, min_degree};
use plans::Plan;
use postorder_best::best_postorder;
use requests::Demo;
use sp_terms::TermList;
use std::alloc::{AllocError, Global};
use std::thread::Threads;
use symbolic::{FrontOptions, front_tree};
use trees::laws::forest_law;
use trees::{Tree, terms_of_tree};

// ---- words

// ---- what is made

/// A problem, and what is said of it beside its plan: the positions of its term, and for a tree the peak of its best postorder.
#[derive(Drop)]
pub struct Made {
    pub problem: Problem,
    pub positions: u32,
    pub postorder: Option<u64>,
}

fn made_tree(alloc: Global, tree: Tree) -> Result<Made, AllocError>
    ensures problem { IfOk result (λ made. made.problem ≡ origins.Tree tree) }
    ensures positions { IfOk result (λ made. HasPositions made.problem made.positions) }
    ensures postorder { IfOk result (λ made. IsPostorderPeak made.problem made.postorder) }
{
    forest_law();
    tree.keeps();
    let positions = terms_of_tree(alloc, &tree)?.terms.len();
    let postorder = Some(best_postorder(alloc, &tree)?.peak);
    let problem = Problem::of_tree(tree);
    Ok(Made {
        problem,
        positions,
        postorder,
    })
}

fn made_workflow(terms: TermList) -> Made
    ensures problem { result.problem ≡ origins.Workflow terms }
    ensures positions { HasPositions result.problem result.positions }
    ensures postorder { IsPostorderPeak result.problem result.postorder }
{
    let positions = terms.len();
    let problem = Problem::of_workflow(terms);
    Made {
        problem,
        positions,
        postorder: None,
    }
}

// The tree of the fronts of a grid.
fn grid_tree(alloc: Global, rows: u32, cols: u32) -> Result<Tree, AllocError>
    requires rows { 1 ≤ rows }
    requires cols { 1 ≤ cols }
    requires few { rows * cols ≤ most_mindeg }
    ensures { IfOk result (IsGridTree rows cols) }
{
    let pattern = gen_grid(alloc, rows, cols)?;
    let order = match min_degree(alloc, &pattern) {
        Ok(order) => order,
        Err(MindegRefusal::Limit) => unreachable!(),
        Err(MindegRefusal::NoMemory) => return Err(AllocError),
    };
    let fronts = FrontOptions {
        shape: Shape::Triangle,
        zeros: None,
        inplace: false,
    };
    front_tree(alloc, &pattern, &order, fronts)
}

fn make(alloc: Global, demo: Demo) -> Result<Made, AllocError>
    requires { IsMakeable demo }
    ensures made { IfOk result (λ made. IsMade demo made.problem) }
    ensures positions { IfOk result (λ made. HasPositions made.problem made.positions) }
    ensures postorder { IfOk result (λ made. IsPostorderPeak made.problem made.postorder) }
{
    match demo {
        Demo::Tree { seed, tasks } => {
            let tree = gen_tree(alloc, seed, tasks)?;
            made_tree(alloc, tree)
        }
        Demo::Workflow { seed, tasks } => {
            let terms = gen_workflow(alloc, seed, tasks)?;
            Ok(made_workflow(terms))
        }
        Demo::Grid { rows, cols } => {
            let tree = grid_tree(alloc, rows, cols)?;
            made_tree(alloc, tree)
        }
    }
}

// ---- the summary

fn kind_word(demo: Demo) -> &'static str
    ensures word { result.now ≡ kind_word demo }
    ensures token { IsTrue (is_token result.now) }
{
    match demo {
        Demo::Tree { .. } => "tree",
        Demo::Workflow { .. } => "workflow",
        Demo::Grid { .. } => "grid",
    }
}

fn check_word(verdict: Verdict) -> &'static str
    ensures word { result.now ≡ check_word verdict }
    ensures token { IsTrue (is_token result.now) }
{
    match verdict {
        Verdict::Yes(_) => "yes",
        Verdict::No(_) => "no",
    }
}

// A name and a word on a line.
fn print_word<'a>(name: &'a str, word: &'a str, report: &mut Report) -> Result<(), AllocError>
    requires start { IsTrue (is_line_start report.old) }
    requires name { IsTrue (is_token name.now) }
    requires word { IsTrue (is_token word.now) }
    ensures start { OnOk result (IsTrue (is_line_start report.new)) }
    ensures text { OnOk result (report.new ≡ report.old ++ line_text (name.now ∷ word.now ∷ [])) }
{
    let (name, word) = (Word(name), Word(word));
    report.line(&[name, word])
}

// The peak of the best postorder, where there is one.
fn print_postorder(postorder: Option<u64>, report: &mut Report) -> Result<(), AllocError>
    requires { IsTrue (is_line_start report.old) }
    ensures start { OnOk result (IsTrue (is_line_start report.new)) }
    ensures text { OnOk result (report.new ≡ report.old ++ text_of_lines (postorder_lines postorder)) }
{
    match postorder {
        Some(peak) => print_count("postorder", peak, report),
        None => Ok(()),
    }
}

// The lines of the summary.
fn summary_page(
    alloc: Global,
    kind: &str,
    made: &Made,
    peak: u64,
    check: &str,
) -> Result<Page, AllocError>
    requires kind { IsTrue (is_token kind.now) }
    requires check { IsTrue (is_token check.now) }
    ensures { IfOk result (λ page. answer_of page ≡ record {
      status = Done;
      text = text_of_lines
          (demo_lines kind.now (length (system_of made.now.problem).tasks) made.now.positions peak made.now.postorder check.now);
    }) }
{
    printed_lines();
    let mut report = Report::new(alloc);
    print_word("demo", kind, &mut report)?;
    let tasks = u64::from(made.problem.task_count());
    print_count("tasks", tasks, &mut report)?;
    print_count("positions", u64::from(made.positions), &mut report)?;
    print_count("peak", peak, &mut report)?;
    print_postorder(made.postorder, &mut report)?;
    print_word("check", check, &mut report)?;
    print_end(&mut report)?;
    let kind = PageKind::Done;
    Ok(Page { kind, report })
}

// The summary of a plan, whoever made it, with the verdict of the checker on it.
fn judged_page<R: Threads + Sync, G: Gate>(
    rt: &R,
    alloc: Global,
    kind: &str,
    made: &Made,
    plan: &Plan,
    gate: &G,
) -> Result<Page, AllocError>
    requires kind { IsTrue (is_token kind.now) }
    requires positions { HasPositions made.now.problem made.now.positions }
    requires postorder { IsPostorderPeak made.now.problem made.now.postorder }
    ensures { IfOk result (λ page. IsJudgedSummary kind.now made.now.problem plan.now (answer_of page)) }
{
    let verdict = made.problem.check(rt, alloc, plan, 1, gate)?;
    summary_page(alloc, kind, made, plan.peak(), check_word(verdict))
}

/// The summary of what is made, planned and checked.
pub fn report_demo<R: Threads + Sync, G: Gate>(
    rt: &R,
    alloc: Global,
    demo: Demo,
    gate: &G,
) -> Result<Page, AllocError>
    requires { IsMakeable demo }
    ensures { IfOk result (λ page. IsDemoOf demo (answer_of page)) }
{
    let made = make(alloc, demo)?;
    let plan = made.problem.plan(alloc)?;
    judged_page(rt, alloc, kind_word(demo), &made, &plan, gate)
}
