ghost use Rattle.std.specs.Prelude.{◌≡◌, ℕ, ◌<◌, length, map, slice_index, IfOk};
ghost use Rattle.activation.specs.Schedule.{HoldsEach};
ghost use Rattle.activation.specs.Run.{IsRoom, run_tables};

use crate::NoMemory;
use crate::clock::Clock;
use crate::cores::Core;
use crate::rank_set::RankSet;
use shared_systems::laws::order_law;
use std::alloc::Global;

/// What a run keeps: the clock, the ranks of the startable tasks, and by the tasks the moments at which they are due; by the places of the
/// order their ranks, and the places as the priority has their tasks.
#[derive(Drop)]
pub struct Room {
    pub clock: Clock,
    pub ready: RankSet,
    pub dues: Vec<u64>,
    pub ranks: Vec<u32>,
    pub priority: Vec<u32>,
}

impl Room {
    /// The room of a core's run.
    pub fn new(alloc: Global, core: &Core) -> Result<Room, NoMemory>
        ensures { IfOk result (λ room. IsRoom core.now.setting (run_tables room)) }
    {
        core.keeps();
        order_law();
        let count = core.tasks();
        let clock = Clock::new(alloc, core.workers())?;
        let ready = RankSet::new(alloc, count)?;
        let dues = vec![in alloc; 0u64; count]?;
        let ranks = vec![in alloc; 0u32; count]?;
        let priority = vec![in alloc; 0u32; count]?;
        Ok(Room {
            clock,
            ready,
            dues,
            ranks,
            priority,
        })
    }
}

/// Writes down the places of the tasks of a priority, and the rank of each place: where its task stands in the priority, counted from 0.
pub fn write_ranks(core: &Core, tasks: &[u32], priority: &mut [u32], ranks: &mut [u32])
    requires tasks { HoldsEach core.now.setting.system tasks.now }
    requires priority_long { length priority.old ≡ length core.now.setting.order }
    requires ranks_long { length ranks.old ≡ length core.now.setting.order }
    ensures priority { map (slice_index core.now.setting.order) priority.new ≡ tasks.now }
    ensures ranks { (r : ℕ) → r < length tasks.now → slice_index ranks.new (slice_index priority.new r) ≡ r }
{
    core.keeps();
    order_law();
    for rank in 0..tasks.len() {
        let place = core.place_of(tasks[rank]);
        priority[rank] = place;
        ranks[place as usize] = rank as u32;
    }
}
