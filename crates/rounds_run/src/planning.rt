//! The rounds, planned before the first front is made.

ghost use Rattle.std.specs.Prelude.{◌≡◌, ◌≤◌, ◌<◌, ◌^◌, All, length, IfOk, IfErr, OnOk};
ghost use Rattle.mp_system.specs.Traversal.{IsTraversal};
ghost use Rattle.limits.specs.Limits.{most_workers};
ghost use Rattle.rounds_run.specs.RowSystem.{row_peak, row_order, row_setting, row_system};
ghost use Rattle.activation.specs.Machine.{IsSetting, start_state};
ghost use Rattle.rounds_run.specs.Rounds.{AreRounds};
ghost use Rattle.rounds_run.specs.Fronts.{IsFrontsRefusal};
ghost use Rattle.rounds_run.specs.Holding.{AreOrderly};

use crate::refusal::FrontsRefusal;
use crate::rounds::rounds_of;
use crate::row_tree::{row_order, row_system};
use activation::laws::once_law;
use activation::{Core, CoreRefusal, Simulator};
use assembly_tree::Assembly;
use row_table::NumberList;
use shared_systems::laws::one_reader_law;
use std::alloc::Global;

/// The rounds of the supernodes, and the greatest number of rows that they use.
#[derive(Drop)]
pub struct Rounds {
    pub rounds: Vec<NumberList>,
    pub used: u64,
}

// The activation core of the row system.
fn row_core(
    alloc: Global,
    assembly: &Assembly,
    order: &[u32],
    bound: u64,
    workers: u32,
) -> Result<Core, FrontsRefusal>
    requires order { order.now ≡ row_order assembly.now.supers }
    requires traversal { IsTraversal (row_system assembly.now.supers) order.now }
    requires workers { (1 ≤ workers) × (workers ≤ most_workers) }
    ensures setting { IfOk result (λ core. core.setting ≡ row_setting assembly.now.supers bound workers) }
    ensures start { IfOk result (λ core. core.state ≡ start_state core.setting) }
    ensures within { IfOk result (λ core. IsSetting core.setting) }
    ensures refused { IfErr result (IsFrontsRefusal assembly.now.supers bound) }
{
    one_reader_law();
    let system = row_system(alloc, assembly)?;
    match Core::of_system(alloc, &system, order, bound, workers) {
        Ok(core) => Ok(core),
        Err(CoreRefusal::BoundBelow { bound, peak }) => Err(FrontsRefusal::BoundBelow {
            bound,
            peak,
        }),
        Err(CoreRefusal::NoMemory) => Err(FrontsRefusal::NoMemory),
        Err(CoreRefusal::Order(_)) => unreachable!(),
    }
}

/// The rounds in which the fronts are made by so many workers under a bound, by the activation machine.
pub fn plan_rounds(
    alloc: Global,
    assembly: &Assembly,
    bound: u64,
    workers: u32,
) -> Result<Rounds, FrontsRefusal>
    requires workers { (1 ≤ workers) × (workers ≤ most_workers) }
    ensures rounds { IfOk result (λ plan. AreRounds (row_setting assembly.now.supers bound workers) plan.rounds.items plan.used) }
    ensures orderly { IfOk result (λ plan. AreOrderly assembly.now.supers plan.rounds.items) }
    ensures few { IfOk result (λ plan. length plan.rounds.items < 2 ^ 32) }
    ensures short { IfOk result (λ plan. All (λ round. length round < 2 ^ 32) plan.rounds.items) }
    ensures within { IfOk result (λ plan. plan.used ≤ bound) }
    ensures fits { OnOk result (row_peak assembly.now.supers ≤ bound) }
    ensures refused { IfErr result (IsFrontsRefusal assembly.now.supers bound) }
{
    once_law();
    let order = row_order(alloc, assembly.supers())?;
    let core = row_core(alloc, assembly, &order, bound, workers)?;
    let trace = Simulator::new(alloc, core)?.run(&order);
    let rounds = rounds_of(alloc, &trace.events)?;
    Ok(Rounds {
        rounds,
        used: trace.used,
    })
}
