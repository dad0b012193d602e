//! The lowered sizes that a flow shows. A use of an item that nobody else reads is lowered by what flows by its arc; the uses of
//! a shared item have what flows from its collector to their readers, less that; a reader that waits for certain has the rest.

use crate::NoMemory;
use crate::closure::Closure;
use crate::common::{common_of, marked};
use crate::effort::Effort;
use crate::filling::fill;
use crate::kept_flow::KeptFlow;
use crate::legs::NONE;
use crate::network::Network;
use crate::tables::{amount_at, count_of, is_marked, mark, number_at, put_amount, put_number};
use crate::use_table::UseTable;
use crate::within::{flow_within, outside_of};
use limits::MOST_POSITIONS;
use peak_bounds::{Amount, Blocker, Event, EventSet};
use std::alloc::Global;

// The lowered sizes of a set of tasks, and those of one of them.
#[derive(Drop)]
struct Lowering {
    is_first: bool,
    outside: Vec<bool>,
    in_set: Vec<bool>,
    kept: KeptFlow,
    // What comes before all tasks of the set, and before the one that is looked at beside that.
    common: Vec<bool>,
    closure: Closure,
    base: Vec<i64>,
    now: Vec<i64>,
    // Which items are looked at for a task, and for which task each was last.
    touched: Vec<u32>,
    touched_for: Vec<u32>,
    // How many amounts were told.
    told: u64,
}

impl Lowering {
    // The flow without the set, that neither lacks room nor leaves some.
    fn new(
        alloc: Global,
        network: &Network,
        order: &[u32],
        table: &UseTable,
        set: &[u32],
        effort: Effort,
    ) -> Result<Lowering, NoMemory> {
        let is_first = network.root() == 0;
        let mut outside = outside_of(alloc, network, order, set)?;
        mark(&mut outside, network.far());
        let mut kept = flow_within(alloc, network, order, &outside, effort)?;
        if is_first {
            kept.drain_to_root(network)?;
        } else {
            fill(&mut kept, network)?;
        }
        let mut closure = Closure::new(alloc, network.nodes())?;
        let common = common_of(alloc, network, &mut kept, &mut closure, set)?;
        kept.settle(network, &common)?;
        closure.clear(network);
        Ok(Lowering {
            is_first,
            outside,
            in_set: marked(alloc, network.nodes(), set)?,
            kept,
            common: marked(alloc, network.nodes(), &common)?,
            closure,
            base: vec![in alloc; 0; table.uses() as usize]?,
            now: vec![in alloc; 0; table.uses() as usize]?,
            touched: Vec::new(alloc),
            touched_for: vec![in alloc; 0; table.items() as usize]?,
            told: 0,
        })
    }

    // By whom a use is read: a task, or the end.
    fn reader(&self, network: &Network, place: u32) -> u32 {
        if self.is_first {
            network.tail(place)
        } else {
            network.head(place)
        }
    }

    // By whom it is made: a task, or the start.
    fn producer(&self, network: &Network, place: u32) -> u32 {
        if self.is_first {
            network.head(place)
        } else {
            network.tail(place)
        }
    }

    fn is_outside(&self, node: u32) -> bool {
        is_marked(&self.outside, node)
    }

    // Whether a node comes before the task that is looked at, or before all of them.
    fn is_before(&self, node: u32) -> bool {
        is_marked(&self.common, node) || self.closure.has(node)
    }

    // What flows by the arc at a place.
    fn flow(&self, network: &Network, place: u32) -> i64 {
        self.kept.flow(network.arc(place))
    }

    // What flows from the collector to the reader.
    fn side_flow(&self, network: &Network, table: &UseTable, place: u32) -> i64 {
        self.flow(network, table.side(place))
    }

    // That, less what flows from there.
    fn passed(&self, network: &Network, table: &UseTable, place: u32) -> i64 {
        self.side_flow(network, table, place)
            .saturating_sub(self.flow(network, place))
    }

    // As the first of the set starts: the first reader outside has the rest.
    fn lower_before(&mut self, network: &Network, table: &UseTable, item: u32) {
        let mut rest = table.size(item);
        let mut waiting = NONE;
        for place in table.first(item)..table.first(item.saturating_add(1)) {
            rest = rest.saturating_sub(self.side_flow(network, table, place));
            let passed = self.passed(network, table, place);
            put_amount(&mut self.now, place, passed);
            if waiting == NONE && self.is_outside(self.reader(network, place)) {
                waiting = place;
            }
        }
        if waiting != NONE {
            let amount = amount_at(&self.now, waiting).saturating_add(rest);
            put_amount(&mut self.now, waiting, amount);
        }
    }

    // Whether a node waits for certain, as this task starts as the last of the set.
    fn is_late(&self, task: u32, node: u32) -> bool {
        node == task || self.is_before(node)
    }

    // What the readers of a shared item leave that do not wait for certain.
    fn rest_of(&self, network: &Network, table: &UseTable, item: u32, task: u32) -> i64 {
        let mut rest = table.size(item);
        for place in table.first(item)..table.first(item.saturating_add(1)) {
            let reader = self.reader(network, place);
            if !self.is_late(task, reader) && !self.is_outside(reader) {
                rest = rest.saturating_sub(self.side_flow(network, table, place));
            }
        }
        rest
    }

    // As this task starts, the last of the set: the first reader that waits has the rest, and those that are done have nothing.
    fn lower_after(&mut self, network: &Network, table: &UseTable, item: u32, task: u32) {
        let mut rest = self.rest_of(network, table, item, task);
        for place in table.first(item)..table.first(item.saturating_add(1)) {
            let reader = self.reader(network, place);
            let mut amount = 0;
            if self.is_late(task, reader) {
                amount = rest.saturating_sub(self.flow(network, place));
                rest = 0;
            } else if !self.is_outside(reader) {
                amount = self.passed(network, table, place);
            }
            put_amount(&mut self.now, place, amount);
        }
    }

    // The lowered sizes of an item's uses, as this task starts. Whether any of them counts.
    fn lower(&mut self, network: &Network, table: &UseTable, item: u32, task: u32) -> bool {
        let place = table.first(item);
        let producer = self.producer(network, place);
        if !table.is_shared(item) {
            let amount = table.size(item).saturating_sub(self.flow(network, place));
            put_amount(&mut self.now, place, amount);
            return !(self.is_before(producer) && self.is_before(self.reader(network, place)));
        }
        if self.is_first {
            self.lower_before(network, table, item);
            return true;
        }
        self.lower_after(network, table, item, task);
        !self.is_late(task, producer)
    }

    // Whether an item's uses count for any task of the set.
    fn is_in_base(&self, network: &Network, table: &UseTable, item: u32) -> bool {
        let place = table.first(item);
        if self.is_first {
            return !self.is_outside(self.producer(network, place));
        }
        let reader = self.reader(network, place);
        table.is_shared(item) || !self.is_outside(reader) || is_marked(&self.in_set, reader)
    }

    // The lowered sizes of the set: those that hold where a task has none of its own.
    fn make_base(
        &mut self,
        alloc: Global,
        network: &Network,
        table: &UseTable,
    ) -> Result<Vec<Amount>, NoMemory> {
        let mut amounts = Vec::new(alloc);
        for item in 0..table.items() {
            if self.is_in_base(network, table, item) && self.lower(network, table, item, NONE) {
                self.tell(table, item, &mut amounts)?;
            }
        }
        for amount in &amounts {
            let place = amount.place.saturating_sub(1);
            put_amount(&mut self.base, place, amount.amount);
        }
        self.count(&amounts);
        Ok(amounts)
    }

    fn count(&mut self, amounts: &[Amount]) {
        self.told = self.told.saturating_add(amounts.len() as u64);
        self.kept.spend(amounts.len());
    }

    // Whether the effort is spent, or more was told than a file can have.
    fn is_over(&self) -> bool {
        self.kept.effort().is_spent() || self.told > MOST_POSITIONS
    }

    // The amounts of an item's uses that differ from those of the set.
    fn tell(&self, table: &UseTable, item: u32, amounts: &mut Vec<Amount>) -> Result<(), NoMemory> {
        for place in table.first(item)..table.first(item.saturating_add(1)) {
            let amount = amount_at(&self.now, place);
            if amount != amount_at(&self.base, place) {
                amounts.push(Amount {
                    place: place.saturating_add(1),
                    amount,
                })?;
            }
        }
        Ok(())
    }

    fn touch(&mut self, item: u32, task: u32) -> Result<(), NoMemory> {
        if number_at(&self.touched_for, item) != task {
            put_number(&mut self.touched_for, item, task);
            self.touched.push(item)?;
        }
        Ok(())
    }

    // The items whose flows differ from those of the set.
    fn touch_changed(
        &mut self,
        network: &Network,
        table: &UseTable,
        task: u32,
    ) -> Result<(), NoMemory> {
        for k in 0..self.kept.log().len() {
            let Some(change) = self.kept.log().get(k).copied() else {
                break;
            };
            if !change.is_room {
                self.touch(table.item_of_arc(network.place(change.place)), task)?;
            }
        }
        Ok(())
    }

    // The shared items that a node reads, or takes up as their collector.
    fn touch_shared(
        &mut self,
        network: &Network,
        table: &UseTable,
        node: u32,
        task: u32,
    ) -> Result<(), NoMemory> {
        let first = network.first_up(node);
        for k in 0..count_of(network.later(node).len()) {
            self.touch_side(table, network.place(first.saturating_add(k)), task)?;
        }
        for arc in network.down(node) {
            self.touch_side(table, network.place(*arc), task)?;
        }
        Ok(())
    }

    fn touch_side(&mut self, table: &UseTable, place: u32, task: u32) -> Result<(), NoMemory> {
        if place >= table.uses() {
            self.touch(table.item_of_arc(place), task)?;
        }
        Ok(())
    }

    // The items whose lowered sizes may differ from those of the set.
    fn touch_all(
        &mut self,
        network: &Network,
        table: &UseTable,
        task: u32,
    ) -> Result<(), NoMemory> {
        self.touched.clear();
        self.touch_changed(network, table, task)?;
        if !self.is_first {
            self.touch_shared(network, table, task, task)?;
            for k in 0..self.closure.members().len() {
                let node = number_at(self.closure.members(), count_of(k));
                self.touch_shared(network, table, node, task)?;
            }
        }
        self.touched.sort_unstable();
        Ok(())
    }

    // A task of the set, with its own lowered sizes; none if these do not show the bound.
    fn blocker(
        &mut self,
        alloc: Global,
        network: &Network,
        table: &UseTable,
        task: u32,
        bound: i64,
    ) -> Result<Option<Blocker>, NoMemory> {
        let least = bound.saturating_sub(network.need(task));
        let steps = self.closure.set(network, &self.common, task)?;
        self.kept.spend(steps.saturating_mul(2));
        let level = self
            .kept
            .force_logged(network, self.closure.members(), least.saturating_sub(1))?;
        if level < least {
            return Ok(None);
        }
        self.touch_all(network, table, task)?;
        let mut amounts = Vec::new(alloc);
        for k in 0..self.touched.len() {
            let item = number_at(&self.touched, count_of(k));
            if self.lower(network, table, item, task) {
                self.tell(table, item, &mut amounts)?;
            }
        }
        self.kept.spend(self.touched.len());
        self.kept.back();
        self.count(&amounts);
        Ok(Some(Blocker::new(task, amounts)))
    }
}

// The evidence, if the effort suffices for it and there are no more amounts than a file can have.
fn make_set(
    alloc: Global,
    network: &Network,
    table: &UseTable,
    set: &[u32],
    bound: i64,
    lowering: &mut Lowering,
) -> Result<Option<EventSet>, NoMemory> {
    let base = lowering.make_base(alloc, network, table)?;
    let mut blockers = Vec::new(alloc);
    for task in set {
        if lowering.is_over() {
            return Ok(None);
        }
        let Some(blocker) = lowering.blocker(alloc, network, table, *task, bound)? else {
            return Ok(None);
        };
        blockers.push(blocker)?;
    }
    if lowering.is_over() {
        return Ok(None);
    }
    let event = if lowering.is_first {
        Event::First
    } else {
        Event::Last
    };
    Ok(Some(EventSet::new(event, base, blockers)))
}

/// The evidence that a set of tasks gives for a bound, in the direction of the network, and what was spent; none if it shows less, if the
/// effort does not suffice for it, or if it would tell more amounts than a file can have.
pub fn evidence_of(
    alloc: Global,
    network: &Network,
    order: &[u32],
    table: &UseTable,
    set: &[u32],
    bound: i64,
    effort: Effort,
) -> Result<(Option<EventSet>, Effort), NoMemory> {
    let mut lowering = Lowering::new(alloc, network, order, table, set, effort)?;
    let evidence = make_set(alloc, network, table, set, bound, &mut lowering)?;
    Ok((evidence, lowering.kept.effort()))
}
