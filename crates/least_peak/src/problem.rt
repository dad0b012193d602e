ghost use Rattle.std.specs.Prelude.{◌≡◌, ◌≤◌, ℕ, List, [], length, IfOk, IfErr};
ghost use Rattle.limits.specs.Limits.{most_workers};
ghost use Rattle.mp_system.specs.Memory.{peak_of};
ghost use Rattle.mp_system.specs.Refusal.{IsOrderRefusal};
ghost use Rattle.mp_system.specs.Traversal.{IsTraversal};
ghost use Rattle.sp_terms.specs.SystemOfTerm.{system_of_term};
ghost use Rattle.sp_terms.specs.Values.{term_of};
ghost use Rattle.sp_terms.specs.declared.position.Position.{Position};
ghost use Rattle.plans.specs.Plan.{IsPlan};
ghost use Rattle.claim_check.specs.Accepted.{IsAccepted};
ghost use Rattle.claim_check.specs.Verdicts.{IsVerdict};
ghost use Rattle.claim_check.specs.declared.verdict.Verdict.TheVariants.{Yes};
ghost use Rattle.activation.specs.Machine.{IsSetting, start_state};
ghost use Rattle.activation.specs.Refusal.{IsCoreRefusal};
ghost use Rattle.shared_systems.specs.Bounds.{IsSharedSystem};
ghost use Rattle.shared_systems.specs.OneReader.{shared_of};
ghost use Rattle.least_peak.specs.Best.{IsBestTraversal};
ghost use Rattle.least_peak.specs.Problem.{system_of, IsTermOf};
ghost use Rattle.least_peak.specs.declared.problem.Origin.TheVariants as origins;

use crate::NoMemory;
use crate::planning::plan_term;
use activation::{Core, CoreRefusal};
use claim_check::laws::accepted_law;
use claim_check::{Verdict, check, check_alone};
use mp_outside::Gate;
use mp_system::laws::renaming_law;
use mp_system::{ReplayRefusal, System, replay};
use plans::Plan;
use shared_systems::SharedSystem;
use shared_systems::laws::one_reader_system_law;
use sp_term_laws::laws::value_law;
use sp_terms::laws::terms_law;
use sp_terms::{Position, TermList, system_of};
use std::alloc::Global;
use std::marker::Model;
use std::thread::Threads;
use trees::laws::{forest_law, tree_system, tree_term};
use trees::{Named, Tree, system_of_tree, terms_of_tree};

/// What a problem is made of.
#[derive(Drop)]
pub enum Origin {
    /// A tree, whose nodes hand blocks to their parents.
    Tree(Tree),
    /// A series-parallel workflow.
    Workflow(TermList),
}

/// Tasks that hand data to each other, for which a traversal of least peak is wanted. Its system and the term of a tree are made where
/// they are needed.
#[derive(Drop)]
pub struct Problem {
    origin: Origin,
}

impl Model for Problem {
    ghost use Rattle.least_peak.specs.declared.problem.Origin.{Origin};

    ghost Value = { Origin };

    ghost view = { λ p. p.origin };
}

// The number of tasks of a term.
fn count_tasks(terms: &TermList) -> u32
    ensures { result ≡ length (system_of_term (term_of terms.now)).tasks }
{
    terms_law();
    terms.keeps();
    let mut count = 0;
    for done in 0..terms.len() {
        if let Position::Task { .. } = terms.at(done + 1) {
            count += 1;
        }
    }
    count
}

impl Problem {
    /// The problem of a tree: a task for each node. It takes no memory.
    pub fn of_tree(tree: Tree) -> Problem
        ensures { result ≡ origins.Tree tree }
    {
        Problem {
            origin: Origin::Tree(tree),
        }
    }

    /// The problem of a workflow. It takes no memory.
    pub fn of_workflow(terms: TermList) -> Problem
        ensures { result ≡ origins.Workflow terms }
    {
        Problem {
            origin: Origin::Workflow(terms),
        }
    }

    /// The tasks, numbered from 1, and what they hand to each other. `NoMemory` says nothing of the problem. Linear.
    pub fn system(&self, alloc: Global) -> Result<System, NoMemory>
        ensures { IfOk result (λ system. system ≡ system_of self.now) }
    {
        match &self.origin {
            Origin::Tree(tree) => system_of_tree(alloc, tree),
            Origin::Workflow(terms) => system_of(alloc, terms),
        }
    }

    // All tasks can be ordered, so that the system is within the limits of shared systems too. It does nothing.
    fn keeps(&self)
        ensures { IsSharedSystem (shared_of (system_of self.now)) }
    {
        forest_law();
        tree_system();
        tree_term();
        terms_law();
        value_law();
        renaming_law();
        one_reader_system_law();
        match &self.origin {
            Origin::Tree(tree) => tree.keeps(),
            Origin::Workflow(terms) => terms.keeps(),
        }
    }

    /// The tasks as a shared system, in which each item has at most one reader. `NoMemory` says nothing of the problem. Linear.
    pub fn shared(&self, alloc: Global) -> Result<SharedSystem, NoMemory>
        ensures { IfOk result (λ system. system ≡ shared_of (system_of self.now)) }
    {
        self.keeps();
        let system = self.system(alloc)?;
        SharedSystem::of_system(alloc, &system)
    }

    /// The number of tasks, from 0 to the limit `tasks`. It takes no memory. Linear in the positions of a workflow.
    pub fn task_count(&self) -> u32
        ensures { result ≡ length (system_of self.now).tasks }
    {
        match &self.origin {
            Origin::Tree(tree) => tree.nodes().len() as u32,
            Origin::Workflow(terms) => count_tasks(terms),
        }
    }

    /// A traversal of least peak, with claims that certify it; `check` accepts it. `NoMemory` says nothing of the problem. Near linear
    /// in the tasks. Liu 1987.
    pub fn plan(&self, alloc: Global) -> Result<Plan, NoMemory>
        // the order is a traversal, the peak is its own, and no traversal has a lower one
        ensures best { IfOk result (λ plan. IsBestTraversal (system_of self.now) plan.order plan.peak) }
        // and the claims show it
        ensures accepted { IfOk result (λ plan.
            (positions : List Position) × IsTermOf self.now positions × IsAccepted (system_of self.now) positions plan) }
        ensures within { IfOk result IsPlan }
        ensures priority { IfOk result (λ plan. plan.priority ≡ []) }
    {
        forest_law();
        tree_system();
        terms_law();
        match &self.origin {
            Origin::Tree(tree) => {
                tree.keeps();
                let Named { terms, names } = terms_of_tree(alloc, tree)?;
                terms.keeps();
                plan_term(alloc, &terms, Some(names))
            }
            Origin::Workflow(terms) => {
                terms.keeps();
                plan_term(alloc, terms, None)
            }
        }
    }

    /// A plan as [`plan`](Problem::plan) makes it, where the problem is not needed any more: a tree is dropped once its term is made.
    pub fn into_plan(self, alloc: Global) -> Result<Plan, NoMemory>
        // the order is a traversal, the peak is its own, and no traversal has a lower one
        ensures best { IfOk result (λ plan. IsBestTraversal (system_of self) plan.order plan.peak) }
        // and the claims show it
        ensures accepted { IfOk result (λ plan.
            (positions : List Position) × IsTermOf self positions × IsAccepted (system_of self) positions plan) }
        ensures within { IfOk result IsPlan }
        ensures priority { IfOk result (λ plan. plan.priority ≡ []) }
    {
        forest_law();
        tree_system();
        terms_law();
        let Problem { origin } = self;
        match origin {
            Origin::Tree(tree) => {
                tree.keeps();
                let Named { terms, names } = terms_of_tree(alloc, &tree)?;
                drop(tree);
                terms.keeps();
                plan_term(alloc, &terms, Some(names))
            }
            Origin::Workflow(terms) => {
                terms.keeps();
                plan_term(alloc, &terms, None)
            }
        }
    }

    /// Judges a plan: yes with its peak, which no traversal beats, or the first objection. The claims are judged by up to 4,096 workers,
    /// each of which calls the gate once; the verdict is the same for every number of workers and every gate. `NoMemory` says nothing of
    /// the plan. Linear in the tasks, the items and the claims.
    pub fn check<R: Threads + Sync, G: Gate>(
        &self,
        rt: &R,
        alloc: Global,
        plan: &Plan,
        workers: u32,
        gate: &G,
    ) -> Result<Verdict, NoMemory>
        requires workers { (1 ≤ workers) × (workers ≤ most_workers) }
        ensures verdict { IfOk result (λ verdict.
            (positions : List Position) × IsTermOf self.now positions × IsVerdict (system_of self.now) positions plan.now verdict) }
        // whoever made the plan, a yes says of its order what a plan of our own keeps
        ensures best { IfOk result (λ verdict. (peak : ℕ) → verdict ≡ Yes peak →
            (plan.now.peak ≡ peak) × IsBestTraversal (system_of self.now) plan.now.order peak) }
    {
        accepted_law();
        forest_law();
        tree_term();
        let system = self.system(alloc)?;
        match &self.origin {
            Origin::Tree(tree) => {
                tree.keeps();
                let named = terms_of_tree(alloc, tree)?;
                check(rt, alloc, &system, &named.terms, plan, workers, gate)
            }
            Origin::Workflow(terms) => {
                terms.keeps();
                check(rt, alloc, &system, terms, plan, workers, gate)
            }
        }
    }

    /// Judges a plan as [`check`](Problem::check) does, and starts no thread. `NoMemory` says nothing of the plan. Linear in the tasks,
    /// the items and the claims.
    pub fn check_alone(&self, alloc: Global, plan: &Plan) -> Result<Verdict, NoMemory>
        ensures verdict { IfOk result (λ verdict.
            (positions : List Position) × IsTermOf self.now positions × IsVerdict (system_of self.now) positions plan.now verdict) }
        ensures best { IfOk result (λ verdict. (peak : ℕ) → verdict ≡ Yes peak →
            (plan.now.peak ≡ peak) × IsBestTraversal (system_of self.now) plan.now.order peak) }
    {
        accepted_law();
        forest_law();
        tree_term();
        let system = self.system(alloc)?;
        match &self.origin {
            Origin::Tree(tree) => {
                tree.keeps();
                let named = terms_of_tree(alloc, tree)?;
                check_alone(alloc, &system, &named.terms, plan)
            }
            Origin::Workflow(terms) => {
                terms.keeps();
                check_alone(alloc, &system, terms, plan)
            }
        }
    }

    /// The peak of a traversal, or the first place at which the order fails to be one. Linear in the tasks and items.
    pub fn replay(&self, alloc: Global, order: &[u32]) -> Result<u64, ReplayRefusal>
        ensures peak { IfOk result (λ peak.
            IsTraversal (system_of self.now) order.now × (peak ≡ peak_of (system_of self.now) order.now)) }
        ensures fault { IfErr result (IsOrderRefusal (system_of self.now) order.now) }
    {
        let system = self.system(alloc)?;
        replay(alloc, &system, order)
    }

    /// The core that runs the tasks on 1 to 4,096 workers within a bound on memory, activated in an order;
    /// a [`Simulator`](activation::Simulator) runs it in simulated time. Refused are an order that is no traversal,
    /// and a bound below its peak.
    pub fn core(
        &self,
        alloc: Global,
        order: &[u32],
        bound: u64,
        workers: u32,
    ) -> Result<Core, CoreRefusal>
        requires { (1 ≤ workers) × (workers ≤ most_workers) }
        ensures setting { IfOk result (λ core. core.setting
            ≡ record { system = shared_of (system_of self.now); order = order.now; bound = bound; workers = workers }) }
        ensures start { IfOk result (λ core. core.state ≡ start_state core.setting) }
        ensures within { IfOk result (λ core. IsSetting core.setting) }
        ensures refused { IfErr result (IsCoreRefusal (shared_of (system_of self.now)) order.now bound) }
    {
        let system = self.system(alloc)?;
        Core::of_system(alloc, &system, order, bound, workers)
    }
}
