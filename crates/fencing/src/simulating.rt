//! Runs of a fenced graph on some workers, to judge fences by: list scheduling, which starts the task of the longest path to the end first.

use crate::NoMemory;
use crate::followers::Followers;
use crate::network::Network;
use crate::schedule::{Event, Schedule};
use fences::Fence;
use std::alloc::Global;
use std::cmp::Reverse;
use std::collections::BinaryHeap;

/// What happens in a run, and how long it takes.
#[derive(Drop)]
pub struct Outcome {
    pub schedule: Schedule,
    pub makespan: u64,
}

// A task that can start. The one with the longest path to the end is the greatest; of several the one with the least number.
#[derive(Clone, Copy, PartialEq, Eq, PartialOrd, Ord, Drop)]
struct Ready {
    path: u64,
    task: Reverse<u32>,
}

// A task that runs. The first to end is the least.
#[derive(Clone, Copy, PartialEq, Eq, PartialOrd, Ord, Drop)]
struct Running {
    end: u64,
    task: u32,
}

#[derive(Drop)]
struct Simulation<'a> {
    network: &'a Network<'a>,
    fenced: Followers,
    // The longest path of each from its start to the end of all.
    paths: Vec<u64>,
    // For how many each still waits.
    waits: Vec<usize>,
    ready: BinaryHeap<Ready>,
    running: BinaryHeap<Reverse<Running>>,
    idle: u32,
    now: u64,
    // Those that end now; what stands before `told` has told those that wait for it.
    ended: Vec<u32>,
    events: Vec<Event>,
}

/// The longest path of each from its start to the end of all. The schedule passes the fences.
pub fn paths_of(
    alloc: Global,
    network: &Network,
    fenced: &Followers,
    schedule: &Schedule,
) -> Result<Vec<u64>, NoMemory> {
    let mut paths: Vec<u64> = vec![in alloc; 0; network.len()]?;
    for event in schedule.events.iter().rev() {
        if let Event::End(task, _) = *event {
            let mut longest: u64 = 0;
            for follower in network.followers(task) {
                longest = longest.max(paths.get(*follower as usize).copied().unwrap_or(0));
            }
            for follower in fenced.of(task) {
                longest = longest.max(paths.get(*follower as usize).copied().unwrap_or(0));
            }
            if let Some(path) = paths.get_mut(task as usize) {
                *path = longest.saturating_add(network.time(task));
            }
        }
    }
    Ok(paths)
}

// For how many each waits.
fn waits_of(alloc: Global, network: &Network, fences: &[Fence]) -> Result<Vec<usize>, NoMemory> {
    let mut waits: Vec<usize> = vec![in alloc; 0; network.len()]?;
    for task in network.order {
        if let Some(count) = waits.get_mut(*task as usize) {
            *count = network.arcs(*task).len();
        }
    }
    for fence in fences {
        if let Some(count) = waits.get_mut(fence.to as usize) {
            *count = count.saturating_add(1);
        }
    }
    Ok(waits)
}

impl<'a> Simulation<'a> {
    fn offer(&mut self, task: u32) -> Result<(), NoMemory> {
        let path = self.paths.get(task as usize).copied().unwrap_or(0);
        self.ready.push(Ready {
            path,
            task: Reverse(task),
        })?;
        Ok(())
    }

    // One of those that a task waits for has ended. A collector ends with the last of its readers.
    fn lower(&mut self, task: u32) -> Result<(), NoMemory> {
        let Some(waits) = self.waits.get_mut(task as usize) else {
            return Ok(());
        };
        *waits = waits.saturating_sub(1);
        if *waits > 0 {
            return Ok(());
        }
        if self.network.is_collector(task) {
            self.ended.push(task)?;
        } else {
            self.offer(task)?;
        }
        Ok(())
    }

    fn end(&mut self, task: u32) -> Result<(), NoMemory> {
        let network = self.network;
        self.events.push(Event::End(task, self.now))?;
        for follower in network.followers(task) {
            self.lower(*follower)?;
        }
        for place in 0..self.fenced.of(task).len() {
            let follower = self.fenced.of(task).get(place).copied().unwrap_or(0);
            self.lower(follower)?;
        }
        Ok(())
    }

    // Ends a task, and the collectors that it was the last for.
    fn finish(&mut self, task: u32) -> Result<(), NoMemory> {
        self.idle = self.idle.saturating_add(1);
        self.end(task)?;
        for _ in 0..self.network.len() {
            let Some(collector) = self.ended.pop() else {
                break;
            };
            self.end(collector)?;
        }
        Ok(())
    }

    // Starts tasks while workers are idle.
    fn start_all(&mut self) -> Result<(), NoMemory> {
        for _ in 0..self.idle {
            let Some(
                Ready {
                    task: Reverse(task),
                    ..
                },
            ) = self.ready.pop()
            else {
                break;
            };
            self.idle = self.idle.saturating_sub(1);
            let end = self.now.saturating_add(self.network.time(task));
            self.events.push(Event::Start(task))?;
            self.running.push(Reverse(Running { end, task }))?;
        }
        Ok(())
    }

    // Ends all tasks that end next: whether there are any.
    fn advance(&mut self) -> Result<bool, NoMemory> {
        let Some(Reverse(first)) = self.running.pop() else {
            return Ok(false);
        };
        self.now = first.end;
        self.finish(first.task)?;
        for _ in 0..self.network.len() {
            let Some(Reverse(next)) = self.running.peek().copied() else {
                break;
            };
            if next.end > self.now {
                break;
            }
            self.running.pop();
            self.finish(next.task)?;
        }
        Ok(true)
    }
}

/// A run of the graph with these fences, which the schedule passes, on so many workers.
pub fn simulate(
    alloc: Global,
    network: &Network,
    fences: &[Fence],
    schedule: &Schedule,
    workers: u32,
) -> Result<Outcome, NoMemory> {
    let fenced = Followers::new(alloc, fences, network.len())?;
    let paths = paths_of(alloc, network, &fenced, schedule)?;
    let waits = waits_of(alloc, network, fences)?;
    let mut run = Simulation {
        network,
        fenced,
        paths,
        waits,
        ready: BinaryHeap::new(alloc),
        running: BinaryHeap::new(alloc),
        idle: workers,
        now: 0,
        ended: Vec::new(alloc),
        events: Vec::new(alloc),
    };
    for task in network.order {
        if run.waits.get(*task as usize).copied() == Some(0) && !network.is_collector(*task) {
            run.offer(*task)?;
        }
    }
    for _ in 0..network.len() {
        run.start_all()?;
        if !run.advance()? {
            break;
        }
    }
    Ok(Outcome {
        makespan: run.now,
        schedule: Schedule {
            events: run.events,
            timed: true,
        },
    })
}
