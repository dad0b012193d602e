//! The fronts, round by round.

ghost use Rattle.std.specs.Prelude.{◌≡◌, ◌+◌, ◌-◌, ◌≤◌, ◌<◌, ◌^◌, ℕ, Bool, true, All, length, drop, IfOk, IfErr, OnOk};
ghost use Rattle.limits.specs.Limits.{most_workers, most_order};
ghost use Rattle.patterns.specs.Pattern.{is_joined};
ghost use Rattle.ordering.specs.Fill.{renumbered, parents_of, counts_of};
ghost use Rattle.assembly_tree.specs.Assembly.{IsSuper};
ghost use Rattle.assembly_tree.specs.Supernodes.{AreSupernodes, first_of, last_of};
ghost use Rattle.rounds_run.specs.FrontRows.{rows_of_front, list_of_front};
ghost use Rattle.rounds_run.specs.RowSystem.{row_peak, row_setting};
ghost use Rattle.rounds_run.specs.Rounds.{AreRounds};
ghost use Rattle.rounds_run.specs.Fronts.{IsFrontsRefusal};
ghost use Rattle.rounds_run.specs.Holding.{Factor, IsFactor, IsHeld, AreJobsOf, AreOrderly, AreFirsts};

use crate::NoMemory;
use crate::crews::{Starts, make_round};
use crate::fronts::Fronts;
use crate::held::Held;
use crate::planning::plan_rounds;
use crate::refusal::FrontsRefusal;
use assembly_tree::{Assembly, Super};
use elim_tree::Numbered;
use elim_tree::laws::{no_earlier_row, path_theorem, renumbered_pattern, structure_by_children};
use mp_outside::Gate;
use ordering::laws::parent_is_first;
use patterns::Pattern;
use permutations::Perm;
use row_table::NumberList;
use std::alloc::Global;
use std::thread::Threads;

// The first column of each supernode.
fn first_columns(alloc: Global, supers: &[Super]) -> Result<Vec<u32>, NoMemory>
    requires { last_of supers.now (length supers.now) ≤ most_order }
    ensures { IfOk result (λ firsts. AreFirsts supers.now firsts.items) }
{
    let mut firsts = Vec::with_capacity(alloc, supers.len())?;
    let mut first = 1;
    for supernode in supers {
        firsts.push(first)?;
        first += supernode.columns;
    }
    Ok(firsts)
}

// Runs round after round.
fn run_rounds<R: Threads + Sync, G: Gate>(
    rt: &R,
    alloc: Global,
    pattern: &Pattern,
    perm: &Perm,
    supers: &[Super],
    rounds: &[NumberList],
    gate: &G,
) -> Result<Vec<NumberList>, NoMemory>
    requires perm { length perm.now ≡ length pattern.now }
    requires supers { IsFactor (record {
      joined = renumbered (is_joined pattern.now) perm.now;
      order = length perm.now;
      supers = supers.now;
    }) }
    requires few { (length perm.now ≤ most_order) × (last_of supers.now (length supers.now) ≤ most_order) }
    requires parents { All (λ x. x.parent ≤ length supers.now) supers.now }
    requires rounds { AreOrderly supers.now rounds.now }
    requires short { All (λ round. length round < 2 ^ 32) rounds.now }
    ensures len { IfOk result (λ rows. length rows.items ≡ length supers.now) }
    ensures rows { IfOk result (λ rows. (s : ℕ) → IsSuper supers.now s → list_of_front rows.items s
        ≡ rows_of_front (renumbered (is_joined pattern.now) perm.now) (length perm.now) (first_of supers.now s)) }
{
    let firsts = first_columns(alloc, supers)?;
    let mut held = Held::new(alloc, supers.len())?;
    let mut starts = Starts::new();
    for list in rounds {
        let round = list.as_slice();
        let jobs = held.jobs(alloc, supers, &firsts, round)?;
        let crews = starts.crews_for(&jobs);
        let made = make_round(rt, alloc, pattern, perm, &jobs, crews, gate)?;
        held.keep_all(supers, round, made)?;
    }
    let Held { rows, .. } = held;
    Ok(rows)
}

/// The rows of every front, made by so many workers in rounds under a bound on the rows that are held.
///
/// A front's list is made of those that its children left to it, which it takes with it; its own rows past its columns are left to its
/// parent, and count until that has run. The rows of the columns are kept, as rows of the factor, and do not count. In a round fronts are
/// activated, in the order of their numbers, while they fit under the bound beside what is booked; then the first of them that have all
/// their children's lists start, as many as there are workers; and all are made, by as many threads as pay for their rows. Each calls the
/// gate once, with its place in the round from 0, in the thread that makes it. The rows are the same for every number of workers, and
/// everything is the same for every gate.
///
/// The bound is refused where it is below the peak of the fronts in the order of their numbers. Near linear in what the lists hold, and in
/// the entries. Duff and Reid 1983; Liu 1992; for the rounds Agullo et al. 2016.
pub fn run_fronts<R: Threads + Sync, G: Gate>(
    rt: &R,
    alloc: Global,
    pattern: &Pattern,
    numbered: &Numbered,
    assembly: &Assembly,
    bound: u64,
    workers: u32,
    gate: &G,
) -> Result<Fronts, FrontsRefusal>
    // an order of this pattern, with its elimination tree and its fundamental supernodes
    requires perm { length numbered.now.perm ≡ length pattern.now }
    requires tree { numbered.now.parents
        ≡ parents_of (renumbered (is_joined pattern.now) numbered.now.perm) (length numbered.now.perm) }
    requires supernodes { AreSupernodes numbered.now.parents
        (counts_of (renumbered (is_joined pattern.now) numbered.now.perm) (length numbered.now.perm)) assembly.now }
    requires workers { (1 ≤ workers) × (workers ≤ most_workers) }
    // each list is the structure of the first column, in rising order; and of each column its structure is the list from there on
    ensures len { IfOk result (λ fronts. length fronts.rows ≡ length assembly.now.supers) }
    ensures rows { IfOk result (λ fronts. (s : ℕ) → IsSuper assembly.now.supers s → list_of_front fronts.rows s
        ≡ rows_of_front (renumbered (is_joined pattern.now) numbered.now.perm) (length numbered.now.perm)
        (first_of assembly.now.supers s)) }
    ensures columns { IfOk result (λ fronts. (s j : ℕ) → IsSuper assembly.now.supers s →
        first_of assembly.now.supers s ≤ j → j ≤ last_of assembly.now.supers s →
        rows_of_front (renumbered (is_joined pattern.now) numbered.now.perm) (length numbered.now.perm) j
        ≡ drop (j - first_of assembly.now.supers s) (list_of_front fronts.rows s)) }
    // the rounds are those of the activation machine, under the bound
    ensures rounds { IfOk result (λ fronts.
        AreRounds (row_setting assembly.now.supers bound workers) fronts.rounds fronts.used) }
    ensures within { IfOk result (λ fronts. fronts.used ≤ bound) }
    ensures fits { OnOk result (row_peak assembly.now.supers ≤ bound) }
    ensures refused { IfErr result (IsFrontsRefusal assembly.now.supers bound) }
{
    renumbered_pattern();
    structure_by_children();
    path_theorem();
    no_earlier_row();
    parent_is_first();
    pattern.keeps();
    let plan = plan_rounds(alloc, assembly, bound, workers)?;
    let rows = run_rounds(
        rt,
        alloc,
        pattern,
        &numbered.perm,
        assembly.supers(),
        &plan.rounds,
        gate,
    )?;
    Ok(Fronts::of(rows, plan.rounds, plan.used))
}
