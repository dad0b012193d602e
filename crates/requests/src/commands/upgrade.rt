//! `upgrade`: what its words ask for.

ghost use Rattle.std.specs.Prelude.{◌≡◌, IfSome, option_map};
ghost use Rattle.requests.specs.Words.{upgrade_of, upgrade_named};
ghost use Rattle.requests.specs.Request.{IsInRange};
ghost use Rattle.requests.specs.RequestViews.{upgrade_view, request_view};

use crate::request::Request;
use command_line::Line;

/// What is written as version 2, by the name of its file.
#[derive(Clone, Copy, Debug)]
pub enum Upgrade<'a> {
    Tree(&'a str),
    Workflow(&'a str),
    /// A task graph.
    Graph(&'a str),
    /// With the name of a priority file, whose priority stands in place of the plan's.
    Plan(&'a str, Option<&'a str>),
}

// Exactly one of a tree, a workflow, a graph and a plan, and a priority with a plan alone.
fn upgrade_named<'a>(
    tree: Option<&'a str>,
    workflow: Option<&'a str>,
    graph: Option<&'a str>,
    plan: Option<&'a str>,
    priority: Option<&'a str>,
) -> Option<Upgrade<'a>>
    ensures { option_map upgrade_view result ≡ upgrade_named (option_map (λ s. s.now) tree.entry) (option_map (λ s. s.now) workflow.entry)
        (option_map (λ s. s.now) graph.entry) (option_map (λ s. s.now) plan.entry) (option_map (λ s. s.now) priority.entry) }
{
    match (tree, workflow, graph, plan) {
        (Some(tree), None, None, None) if priority.is_none() => Some(Upgrade::Tree(tree)),
        (None, Some(workflow), None, None) if priority.is_none() => Some(Upgrade::Workflow(
            workflow,
        )),
        (None, None, Some(graph), None) if priority.is_none() => Some(Upgrade::Graph(graph)),
        (None, None, None, Some(plan)) => Some(Upgrade::Plan(plan, priority)),
        _ => None,
    }
}

/// `upgrade` and a tree, a workflow, a graph or a plan; with a plan, a priority if it is given.
pub fn upgrade_of<'a>(line: &Line<'a>) -> Option<Request<'a>>
    ensures value { option_map request_view result ≡ upgrade_of line.now.options }
    ensures range { IfSome result (λ request. IsInRange (request_view request)) }
{
    let tree = line.value("tree");
    let workflow = line.value("workflow");
    let graph = line.value("graph");
    let plan = line.value("plan");
    let asked = upgrade_named(tree, workflow, graph, plan, line.value("priority"))?;
    Some(Request::Upgrade(asked))
}
