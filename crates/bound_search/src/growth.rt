//! The inside grows, from nothing, by each task that some closed set inside lets run within a bound. Where none is left, the
//! tasks that are ready but blocked show a higher bound: the first of them to run needs the least of what each needs.

use crate::NoMemory;
use crate::closure::Closure;
use crate::effort::Effort;
use crate::kept_flow::{KeptFlow, MUCH};
use crate::known::Known;
use crate::network::Network;
use crate::side::Side;
use crate::tables::{amount_at, count_of, number_at, put_amount, put_number};
use std::alloc::Global;

// After so many tasks that came inside all are looked at again, or after this part of all.
const MANY: usize = 64;

const PART: usize = 256;

/// How a growth within a bound ends.
#[derive(Clone, Copy, PartialEq, Eq)]
pub enum Ended {
    /// All tasks are inside.
    Complete,
    /// None of the tasks that are ready can run within the bound.
    Blocked,
    /// The effort is spent.
    Spent,
}

/// A growth: what is inside, which tasks are ready, and which of them were found blocked.
#[derive(Drop)]
pub struct Growth {
    bound: i64,
    kept: KeptFlow,
    closure: Closure,
    // How many nodes before each are not inside.
    missing: Vec<u32>,
    ready: Vec<u32>,
    blocked: Vec<u32>,
    known: Known,
    // When each was tested last, by the number of tasks inside, and how much it was found to need at least.
    tested: Vec<u32>,
    values: Vec<i64>,
    work: Vec<u32>,
    count: u32,
    before: Vec<i64>,
}

impl Growth {
    /// Nothing is inside but what needs nothing.
    pub fn new(alloc: Global, network: &Network, effort: Effort) -> Result<Growth, NoMemory> {
        let nodes = network.nodes() as usize;
        let mut growth = Growth {
            bound: 0,
            kept: KeptFlow::new(alloc, network, effort)?,
            closure: Closure::new(alloc, network.nodes())?,
            missing: vec![in alloc; 0; nodes]?,
            ready: Vec::new(alloc),
            blocked: Vec::new(alloc),
            known: Known::new(alloc, network.nodes())?,
            tested: vec![in alloc; u32::MAX; nodes]?,
            values: vec![in alloc; 0; nodes]?,
            work: Vec::new(alloc),
            count: 0,
            before: vec![in alloc; 0; nodes]?,
        };
        growth.begin(network)?;
        Ok(growth)
    }

    /// Another growth that has come as far.
    pub fn copy(&self, alloc: Global, network: &Network) -> Result<Growth, NoMemory> {
        Ok(Growth {
            bound: self.bound,
            kept: self.kept.copy(alloc)?,
            closure: Closure::new(alloc, network.nodes())?,
            missing: Vec::from_slice(alloc, &self.missing)?,
            ready: Vec::from_slice(alloc, &self.ready)?,
            blocked: Vec::from_slice(alloc, &self.blocked)?,
            known: self.known.copy(alloc)?,
            tested: Vec::from_slice(alloc, &self.tested)?,
            values: Vec::from_slice(alloc, &self.values)?,
            work: Vec::new(alloc),
            count: self.count,
            before: vec![in alloc; 0; network.nodes() as usize]?,
        })
    }

    /// The tasks that are ready and were not tested.
    pub fn ready(&self) -> &[u32] {
        &self.ready
    }

    /// The blocked tasks.
    pub fn blocked(&self) -> &[u32] {
        &self.blocked
    }

    /// What was spent of the effort.
    pub fn effort(&self) -> Effort {
        self.kept.effort()
    }

    /// Allows so many steps from now on.
    pub fn allow(&mut self, steps: u64) {
        self.kept.allow(steps);
    }

    // What waits for nothing comes first, and what waits for the root alone.
    fn begin(&mut self, network: &Network) -> Result<(), NoMemory> {
        for node in 0..network.nodes() {
            let missing = count_of(network.earlier(node).len());
            put_number(&mut self.missing, node, missing);
            if missing == 0 && node != network.root() {
                self.reach(network, node)?;
            }
        }
        self.release(network, network.root())?;
        self.settle(network)
    }

    // All before this node are inside.
    fn reach(&mut self, network: &Network, node: u32) -> Result<(), NoMemory> {
        if network.is_task(node) {
            self.ready.push(node)?;
        } else if node != network.far() {
            self.work.push(node)?;
        }
        Ok(())
    }

    // A node is inside: those after it wait for one less.
    fn release(&mut self, network: &Network, node: u32) -> Result<(), NoMemory> {
        self.kept.spend(network.later(node).len());
        for after in network.later(node) {
            let missing = number_at(&self.missing, *after).saturating_sub(1);
            put_number(&mut self.missing, *after, missing);
            if missing == 0 {
                self.reach(network, *after)?;
            }
        }
        Ok(())
    }

    // Takes in the nodes that wait for nothing.
    fn settle(&mut self, network: &Network) -> Result<(), NoMemory> {
        for _ in 0..network.nodes() {
            let Some(node) = self.work.pop() else {
                break;
            };
            self.kept.add(network, node)?;
            self.release(network, node)?;
        }
        Ok(())
    }

    // A task comes inside.
    fn add(&mut self, network: &Network, task: u32) -> Result<(), NoMemory> {
        self.count = self.count.saturating_add(1);
        self.work.push(task)?;
        self.settle(network)
    }

    /// All tasks that are ready now come inside.
    pub fn add_ready(&mut self, alloc: Global, network: &Network) -> Result<(), NoMemory> {
        let tasks = Vec::from_slice(alloc, &self.ready)?;
        self.ready.clear();
        for task in &tasks {
            self.add(network, *task)?;
        }
        Ok(())
    }

    // The least memory at which a task can start, or as much of it as is above a limit.
    fn force(&mut self, network: &Network, task: u32, limit: i64) -> Result<i64, NoMemory> {
        let steps = self.closure.set(network, self.kept.dead(), task)?;
        self.kept.spend(steps.saturating_mul(2));
        self.kept.force(network, self.closure.members(), limit)
    }

    /// What a task needs at least as it runs, or as much of it as is above a limit.
    pub fn value(&mut self, network: &Network, task: u32, limit: i64) -> Result<i64, NoMemory> {
        let need = network.need(task);
        let memory = self.force(network, task, limit.saturating_sub(need))?;
        Ok(memory.saturating_add(need))
    }

    // What the flow tells: of all tasks that are ready, or of those near the low set where that is less work.
    fn learn(&mut self, network: &Network, memory: i64) {
        self.known
            .find_low(network, &mut self.kept, self.closure.members());
        let tasks = self.ready.len().saturating_add(self.blocked.len());
        let closed = self.closure.members().len();
        if closed.saturating_add(self.kept.seen().len()) < tasks / 8 {
            self.known
                .learn_near(network, &mut self.kept, self.closure.members(), memory);
        } else {
            self.known
                .learn_all(network, &mut self.kept, &self.ready, memory);
            self.known
                .learn_all(network, &mut self.kept, &self.blocked, memory);
        }
    }

    // Tests whether a task can run within the bound. Then it comes inside.
    fn test(&mut self, network: &Network, task: u32) -> Result<bool, NoMemory> {
        let need = network.need(task);
        let limit = self.bound.saturating_sub(need);
        let memory = self.force(network, task, limit)?;
        if self.effort().is_spent() {
            return Ok(false);
        }
        put_number(&mut self.tested, task, self.count);
        put_amount(&mut self.values, task, memory.saturating_add(need));
        if memory > limit {
            return Ok(false);
        }
        self.learn(network, memory);
        self.add(network, task)?;
        self.known.lower(task);
        let after = memory.saturating_add(network.change(task));
        self.known.learn_after(network, &mut self.kept, task, after);
        Ok(true)
    }

    // Whether what is known lets a task run within the bound.
    fn is_known(&self, network: &Network, task: u32) -> bool {
        self.known.memory(task).saturating_add(network.need(task)) <= self.bound
    }

    // The memory before each node of an order, if only those inside run.
    fn walk(&mut self, side: &Side) {
        let mut memory = side.network.change(side.network.root());
        for (place, node) in side.order.iter().enumerate() {
            put_amount(&mut self.before, count_of(place), memory);
            if self.kept.is_inside(*node) {
                memory = memory.saturating_add(side.network.change(*node));
            }
        }
        self.kept.spend(side.order.len());
    }

    // Takes a task in, if the order lets it run within the bound.
    fn try_order(&mut self, side: &Side, task: u32) -> Result<bool, NoMemory> {
        if self.kept.is_inside(task) {
            return Ok(false);
        }
        let memory = amount_at(&self.before, side.place(task));
        self.known.know(task, memory);
        if !self.is_known(&side.network, task) {
            return Ok(false);
        }
        self.add(&side.network, task)?;
        Ok(true)
    }

    // Drops from the lists what is inside.
    fn drop_inside(&mut self, alloc: Global) -> Result<(), NoMemory> {
        let tasks = self.ready.len().saturating_add(self.blocked.len());
        self.kept.spend(tasks);
        self.ready = self.kept.not_inside(alloc, &self.ready)?;
        self.blocked = self.kept.not_inside(alloc, &self.blocked)?;
        Ok(())
    }

    // Takes in all that the order lets run within the bound, once. Whether there was any.
    fn sweep_once(&mut self, side: &Side) -> Result<bool, NoMemory> {
        self.walk(side);
        let mut is_any = false;
        for k in 0..self.ready.len() {
            let task = number_at(&self.ready, count_of(k));
            is_any = self.try_order(side, task)? || is_any;
        }
        for k in 0..self.blocked.len() {
            let task = number_at(&self.blocked, count_of(k));
            is_any = self.try_order(side, task)? || is_any;
        }
        Ok(is_any)
    }

    // The same until there is none.
    fn sweep(&mut self, alloc: Global, side: &Side) -> Result<(), NoMemory> {
        for _ in 0..side.network.nodes() {
            let is_any = self.sweep_once(side)?;
            self.drop_inside(alloc)?;
            if !is_any || self.effort().is_spent() {
                break;
            }
        }
        Ok(())
    }

    // Takes a ready task in if it can run, or else it is blocked. Whether it came inside.
    fn take(&mut self, network: &Network, task: u32) -> Result<bool, NoMemory> {
        if self.kept.is_inside(task) {
            return Ok(false);
        }
        if self.is_known(network, task) {
            self.add(network, task)?;
            return Ok(true);
        }
        if self.test(network, task)? {
            return Ok(true);
        }
        self.blocked.push(task)?;
        Ok(false)
    }

    // Takes in the ready tasks that can run, the last first, with a sweep now and then.
    fn take_ready(&mut self, alloc: Global, side: &Side) -> Result<(), NoMemory> {
        let many = (side.order.len() / PART).max(MANY);
        let mut taken: usize = 0;
        for _ in 0..self.effort().left() {
            if self.effort().is_spent() {
                break;
            }
            let Some(task) = self.ready.pop() else {
                break;
            };
            self.kept.spend(1);
            if self.take(&side.network, task)? {
                taken = taken.saturating_add(1);
            }
            if taken >= many {
                taken = 0;
                self.sweep(alloc, side)?;
            }
        }
        Ok(())
    }

    // Whether a blocked task may run now: there is more inside than when it was tested, or the bound is higher.
    fn is_open(&self, task: u32) -> bool {
        !self.kept.is_inside(task)
            && (number_at(&self.tested, task) != self.count
                || amount_at(&self.values, task) <= self.bound)
    }

    // Tests the blocked tasks again, each once. Whether any can run.
    fn retry(&mut self, network: &Network) -> Result<bool, NoMemory> {
        let mut is_any = false;
        for k in 0..self.blocked.len() {
            let task = number_at(&self.blocked, count_of(k));
            if self.effort().is_spent() {
                break;
            }
            if self.is_open(task) && self.test(network, task)? {
                is_any = true;
            }
        }
        Ok(is_any)
    }

    /// Grows within a bound, which is no less than those before.
    pub fn grow(&mut self, alloc: Global, side: &Side, bound: i64) -> Result<Ended, NoMemory> {
        self.bound = bound;
        self.sweep(alloc, side)?;
        for _ in 0..self.effort().left() {
            let count = self.count;
            self.take_ready(alloc, side)?;
            self.sweep(alloc, side)?;
            if self.effort().is_spent() {
                return Ok(Ended::Spent);
            }
            if self.count == count && self.ready.len() == 0 && !self.retry(&side.network)? {
                break;
            }
        }
        self.drop_inside(alloc)?;
        if self.effort().is_spent() {
            Ok(Ended::Spent)
        } else if self.blocked.len() == 0 {
            Ok(Ended::Complete)
        } else {
            Ok(Ended::Blocked)
        }
    }

    /// The least of what the blocked tasks need: the bound that they show. It is above the one of the growth, and may be only by 1
    /// if the effort is spent.
    pub fn least_value(&mut self, network: &Network) -> Result<i64, NoMemory> {
        let mut best = MUCH;
        for k in 0..self.blocked.len() {
            let task = number_at(&self.blocked, count_of(k));
            let value = self.value(network, task, best)?;
            if self.effort().is_spent() {
                return Ok(self.bound.saturating_add(1));
            }
            put_amount(&mut self.values, task, value);
            if value <= best {
                best = value;
                self.known
                    .know(task, value.saturating_sub(network.need(task)));
            }
        }
        Ok(best)
    }
}
