//! A collected system as a search for fences looks at it.

ghost use Rattle.std.specs.Prelude.{◌≡◌, ◌+◌, length, IfOk};

use crate::NoMemory;
use crate::followers::Followers;
use fences::Fence;
use mp_system::{Item, System};
use row_table::RowTable;
use row_table::laws::numbers_law;
use std::alloc::Global;

/// What a task takes up, and what it leaves.
#[derive(Clone, Copy)]
struct Sums {
    inputs: u64,
    outputs: u64,
}

const NO_SUMS: Sums = Sums {
    inputs: 0,
    outputs: 0,
};

/// An arc into a task or a collector: by which item, and from where.
#[derive(Clone, Copy)]
pub struct Arc {
    pub place: u32,
    pub from: u32,
}

// What a task or a collector needs while it runs, beside what it consumes, and how long it runs.
#[derive(Clone, Copy)]
struct Demand {
    need: u64,
    inputs: u64,
    outputs: u64,
    time: u64,
}

const NO_DEMAND: Demand = Demand {
    need: 0,
    inputs: 0,
    outputs: 0,
    time: 0,
};

/// The tasks and collectors in an order, and the items between them.
#[derive(Drop)]
pub struct Network<'a> {
    system: &'a System,
    pub order: &'a [u32],
    // How many tasks there are; what is numbered from there on is a collector.
    count: u32,
    // The places of the items that each consumes, and of those from each to a collector.
    inputs: RowTable,
    collected: RowTable,
    // Where the arcs into each begin, and the arcs.
    starts: Vec<usize>,
    arcs: Vec<Arc>,
    followers: Followers,
    demands: Vec<Demand>,
}

// Which tasks produce the items for collectors, and 0 for other items.
fn collected_rows(alloc: Global, system: &System, count: u32) -> Result<RowTable, NoMemory> {
    numbers_law();
    let producers: Vec<u32> = system
        .items()
        .iter()
        .map(|item| {
            if item.to.unwrap_or(0) > count {
                item.from.unwrap_or(0)
            } else {
                0
            }
        })
        .collect(alloc)?;
    RowTable::group(alloc, &producers, system.tasks().len() as u32 + 1, 0)
}

fn input_rows(alloc: Global, system: &System) -> Result<RowTable, NoMemory> {
    numbers_law();
    let consumers: Vec<u32> = system
        .items()
        .iter()
        .map(|item| item.to.unwrap_or(0))
        .collect(alloc)?;
    RowTable::group(alloc, &consumers, system.tasks().len() as u32 + 1, 0)
}

// What each task takes up and leaves, by its number.
fn sums_of(alloc: Global, system: &System) -> Result<Vec<Sums>, NoMemory> {
    let mut sums = vec![in alloc; NO_SUMS; system.tasks().len().saturating_add(1)]?;
    for item in system.items() {
        if let Some(producer) = sums.get_mut(item.from.unwrap_or(0) as usize) {
            producer.outputs = producer.outputs.saturating_add(item.size);
        }
        if let Some(consumer) = sums.get_mut(item.to.unwrap_or(0) as usize) {
            consumer.inputs = consumer.inputs.saturating_add(item.size);
        }
    }
    Ok(sums)
}

// The arcs into each, and where those of each begin.
fn arcs_of(
    alloc: Global,
    system: &System,
    inputs: &RowTable,
) -> Result<(Vec<usize>, Vec<Arc>), NoMemory> {
    let mut starts = Vec::new(alloc);
    let mut arcs = Vec::new(alloc);
    let mut task: u32 = 0;
    for _ in 0..system.tasks().len().saturating_add(1) {
        starts.push(arcs.len())?;
        for place in row_of(inputs, task) {
            if let Some(
                Item {
                    from: Some(from),
                    ..
                },
            ) = system.items().get(*place as usize).copied()
            {
                arcs.push(Arc {
                    place: *place,
                    from,
                })?;
            }
        }
        task = task.saturating_add(1);
    }
    starts.push(arcs.len())?;
    Ok((starts, arcs))
}

// Who waits for whom by an item.
fn followers_of(alloc: Global, system: &System) -> Result<Followers, NoMemory> {
    let mut waits = Vec::new(alloc);
    for item in system.items() {
        if let Some(from) = item.from
            && let Some(to) = item.to
        {
            waits.push(Fence { from, to })?;
        }
    }
    Followers::new(alloc, &waits, system.tasks().len().saturating_add(1))
}

// What each needs, by its number; behind so many tasks stand collectors, which take no time.
fn demands_of(
    alloc: Global,
    system: &System,
    sums: &[Sums],
    count: u32,
) -> Result<Vec<Demand>, NoMemory> {
    let mut demands = Vec::new(alloc);
    demands.push(NO_DEMAND)?;
    let mut number: u32 = 0;
    for task in system.tasks() {
        number = number.saturating_add(1);
        let Sums { inputs, outputs } = sums.get(number as usize).copied().unwrap_or(NO_SUMS);
        demands.push(Demand {
            need: task
                .extra
                .saturating_add(outputs)
                .saturating_sub(task.share),
            inputs,
            outputs,
            time: if number > count { 0 } else { task.time },
        })?;
    }
    Ok(demands)
}

fn row_of(rows: &RowTable, task: u32) -> &[u32] {
    if (task as usize) < rows.len() {
        rows.row(task)
    } else {
        &[]
    }
}

impl<'a> Network<'a> {
    /// Behind so many tasks of the system stand collectors.
    pub fn new(
        alloc: Global,
        system: &'a System,
        order: &'a [u32],
        count: u32,
    ) -> Result<Network<'a>, NoMemory> {
        let inputs = input_rows(alloc, system)?;
        let sums = sums_of(alloc, system)?;
        let (starts, arcs) = arcs_of(alloc, system, &inputs)?;
        let demands = demands_of(alloc, system, &sums, count)?;
        Ok(Network {
            system,
            order,
            count,
            inputs,
            collected: collected_rows(alloc, system, count)?,
            starts,
            arcs,
            followers: followers_of(alloc, system)?,
            demands,
        })
    }

    /// The arcs into a task or a collector.
    pub fn arcs(&self, task: u32) -> &[Arc] {
        let place = task as usize;
        let start = self.starts.get(place).copied().unwrap_or(0);
        let end = self
            .starts
            .get(place.saturating_add(1))
            .copied()
            .unwrap_or(0);
        self.arcs.get(start..end).unwrap_or(&[])
    }

    /// Those that wait for a task or a collector by an item.
    pub fn followers(&self, task: u32) -> &[u32] {
        self.followers.of(task)
    }

    /// Whether it is a collector.
    pub fn is_collector(&self, task: u32) -> bool {
        task > self.count
    }

    fn demand(&self, task: u32) -> Demand {
        self.demands
            .get(task as usize)
            .copied()
            .unwrap_or(NO_DEMAND)
    }

    /// The numbers of tasks and collectors are below this.
    pub fn len(&self) -> usize {
        self.system.tasks().len().saturating_add(1)
    }

    /// The items.
    pub fn items(&self) -> &[Item] {
        self.system.items()
    }

    /// The places of the items that a task or a collector consumes.
    pub fn inputs(&self, task: u32) -> &[u32] {
        row_of(&self.inputs, task)
    }

    /// The places of the items from a task to collectors.
    pub fn collected(&self, task: u32) -> &[u32] {
        row_of(&self.collected, task)
    }

    /// The consumer of an item, or 0.
    pub fn consumer(&self, place: u32) -> u32 {
        match self.items().get(place as usize) {
            None => 0,
            Some(item) => item.to.unwrap_or(0),
        }
    }

    /// Whether a collector waits for a reader by the item at this place. The first item that it consumes is what it collects.
    pub fn is_reading(&self, place: u32) -> bool {
        self.inputs(self.consumer(place)).first().copied() != Some(place)
    }

    /// How many readers a collector waits for.
    pub fn readers(&self, collector: u32) -> usize {
        self.inputs(collector).len().saturating_sub(1)
    }

    /// The producer of an item.
    pub fn producer(&self, place: u32) -> Option<u32> {
        self.items().get(place as usize)?.from
    }

    /// How long it runs; a collector takes no time.
    pub fn time(&self, task: u32) -> u64 {
        self.demand(task).time
    }

    /// How long all tasks run together.
    pub fn whole_time(&self) -> u64 {
        let mut whole: u64 = 0;
        for task in self.order {
            whole = whole.saturating_add(self.time(*task));
        }
        whole
    }

    /// What a task takes, where it needs less by the room of its worker.
    pub fn taken(&self, task: u32, room: u64) -> u64 {
        let Demand {
            need,
            inputs,
            outputs,
            ..
        } = self.demand(task);
        need.saturating_sub(room)
            .max(outputs.saturating_sub(inputs))
    }

    /// What a task gives back that took so much.
    pub fn given(&self, task: u32, taken: u64) -> u64 {
        let Demand {
            inputs,
            outputs,
            ..
        } = self.demand(task);
        inputs.saturating_add(taken).saturating_sub(outputs)
    }

    /// The order's peak where each task needs less by the room of its worker.
    pub fn peak(&self, room: u64) -> u64 {
        let mut memory = self.stock();
        let mut peak = memory;
        for task in self.order {
            let taken = self.taken(*task, room);
            peak = peak.max(memory.saturating_add(taken));
            memory = memory
                .saturating_add(taken)
                .saturating_sub(self.given(*task, taken));
        }
        peak
    }

    /// The memory at the start.
    pub fn stock(&self) -> u64 {
        let mut stock: u64 = 0;
        for item in self.items() {
            if item.from.is_none() {
                stock = stock.saturating_add(item.size);
            }
        }
        stock
    }
}
