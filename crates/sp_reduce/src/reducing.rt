ghost use Rattle.std.specs.Prelude.{◌≡◌, ◌≤◌, [], ◌∷◌, ℕ, All, length, IfOk, IfErr, MatchOption};
ghost use Rattle.limits.specs.Limits.{most_tasks, most_arcs};
ghost use Rattle.sp_terms.specs.Values.{term_of};
ghost use Rattle.graphs.specs.Graph.{IsArcWithin, Rises, completed_system};
ghost use Rattle.sp_reduce.specs.Outcome.{IsOutcome};
ghost use Rattle.sp_reduce.specs.Reduced.{HasSystem};
ghost use Rattle.sp_reduce.specs.Refusal.{IsReduceRefusal};
ghost use Rattle.sp_reduce.specs.Work.{IsLink, pairs_of};

use crate::NoMemory;
use crate::building::add_arcs;
use crate::forest::Forest;
use crate::link::Link;
use crate::links::Links;
use crate::postfix::{Written, write_term};
use crate::reduced::{ReduceRefusal, Reduced};
use crate::rounds::{all_tasks, reduce_links};
use graphs::laws::{completed_law, system_law};
use graphs::{Arc, Graph};
use sp_terms::TermList;
use sp_terms::laws::terms_law;
use std::alloc::Global;

// What is left of the arcs of a graph: links, and the terms that they carry.
#[derive(Drop)]
struct Outcome {
    links: Vec<Link>,
    forest: Forest,
}

// Reduces the arcs of a graph of so many tasks until no reduction applies.
fn reduce_arcs(alloc: Global, tasks: u32, arcs: &[Arc]) -> Result<Outcome, NoMemory>
    requires tasks { tasks ≤ most_tasks }
    requires within { All (IsArcWithin tasks) arcs.now }
    requires few { length arcs.now ≤ most_arcs }
    requires ranked { (rank : ℕ → ℕ) × All (Rises rank) arcs.now }
    ensures { IfOk result (λ o. IsOutcome arcs.now o.links.items o.forest.nodes.items o.forest.pieces.items) }
{
    let mut links = Links::new(alloc, tasks)?;
    let mut forest = Forest::new(alloc);
    add_arcs(arcs, &mut links, &mut forest)?;
    let mut todo = all_tasks(alloc, tasks)?;
    reduce_links(&mut links, &mut forest, &mut todo)?;
    Ok(Outcome {
        links: links.into_vec(),
        forest,
    })
}

// The ends of the links that are left.
fn left_ends(alloc: Global, links: &[Link]) -> Result<Vec<(u32, u32)>, NoMemory>
    ensures { IfOk result (λ ends. ends.items ≡ pairs_of links.now) }
{
    let mut ends = Vec::new(alloc);
    for link in links {
        if link.alive {
            ends.push((link.from, link.to))?;
        }
    }
    Ok(ends)
}

// The one link that is left, if one alone is, and leads from none to none.
fn only_link(links: &[Link], ends: &[(u32, u32)]) -> Option<u32>
    requires few { length links.now ≤ most_arcs }
    requires ends { ends.now ≡ pairs_of links.now }
    ensures { MatchOption result (pairs_of links.now ≡ (0, 0) ∷ [] → ⊥) (λ x. IsLink links.now x 0 0 × (pairs_of links.now ≡ (0, 0) ∷ [])) }
{
    if ends.len() != 1 || ends[0].0 != 0 || ends[0].1 != 0 {
        return None;
    }
    for i in 0..links.len() {
        if links[i].alive {
            return Some(i as u32);
        }
    }
    None
}

/// The term of a graph, whose system is that of the completed graph under the names of its tasks; or the irreducible rest, where no
/// term has that system. Expected linear in the tasks and arcs, but for the order of the rest.
pub fn reduce(alloc: Global, graph: &Graph) -> Result<Reduced, ReduceRefusal>
    ensures reduced { IfOk result (λ r. HasSystem r.names.items (term_of r.terms) (completed_system graph.now)) }
    ensures refused { IfErr result (IsReduceRefusal graph.now) }
{
    completed_law();
    system_law();
    terms_law();
    let tasks = graph.tasks();
    let outcome = reduce_arcs(alloc, tasks.len() as u32, graph.completed_arcs())?;
    let mut ends = left_ends(alloc, &outcome.links)?;
    match only_link(&outcome.links, &ends) {
        Some(link) => {
            let root = outcome.forest.nodes[link as usize];
            let Written { positions, names } = write_term(
                alloc,
                tasks,
                &outcome.forest.pieces,
                root,
            )?;
            Ok(Reduced {
                terms: TermList::new(positions),
                names,
            })
        }
        None => {
            ends.sort()?;
            Err(ReduceRefusal::Rest(ends))
        }
    }
}
