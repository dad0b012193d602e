//! What a refused call answers: a status, and a fault.

ghost use Rattle.std.specs.Prelude.{◌≡◌};
ghost use Rattle.mp_system.specs.declared.judged.SystemRefusal.TheVariants as systems;
ghost use Rattle.shared_systems.specs.declared.judged.SharedRefusal.TheVariants as shared;
ghost use Rattle.trees.specs.declared.judged.NodesRefusal.TheVariants as nodes;
ghost use Rattle.c_calls.specs.Faults.{answer, answer_to, of_nodes, of_system, of_shared, of_replay, of_order, of_core, of_spill, of_plan};
ghost use Rattle.c_calls.specs.Faults.{of_objection, of_columns, of_perm, of_degree, of_front_order, of_fronts};

use crate::refusal::{PlanFault, Refusal};
use crate::{kinds, statuses};
use activation::CoreRefusal;
use claim_check::Objection;
use equivalent_orders::FrontsRefusal;
use mp_system::{ItemTest, OrderFault, OrderKind, ReplayRefusal, SystemRefusal, TaskTest};
use ordering::MindegRefusal;
use patterns::ColumnsRefusal;
use permutations::PermRefusal;
use shared_systems::{SharedItemTest, SharedRefusal};
use spill_plan::SpillRefusal;
use trees::{NodeTest, NodesRefusal};

/// What is wrong, and with which node, place, position or step.
#[repr(C)]
#[derive(Clone, Copy)]
pub struct Fault {
    /// One of the kinds of the header.
    pub kind: u32,
    /// Where it is, counted from 1; 0 where the kind has no place.
    pub at: u64,
    /// What the kind tells beside the place, as the length that is wanted; else 0.
    pub value: u64,
}

/// A status that is not 0, and the fault that a call with this status writes.
#[derive(Clone, Copy)]
pub struct Answer {
    pub status: u32,
    pub fault: Fault,
}

fn say(status: u32, kind: u32, at: u64, value: u64) -> Answer
    ensures { result ≡ answer status kind at value }
{
    Answer {
        status,
        fault: Fault { kind, at, value },
    }
}

fn no_memory() -> Answer
    ensures { result ≡ answer_to Refusal.NoMemory }
{
    say(statuses::NO_MEMORY, kinds::NO_MEMORY, 0, 0)
}

// A node that fails a test.
fn of_node(test: NodeTest, node: u32) -> Answer
    ensures { result ≡ of_nodes (nodes.Node test node) }
{
    let at = u64::from(node);
    match test {
        NodeTest::Parent => say(statuses::FORMAT, kinds::PARENT, at, 0),
        NodeTest::Time => say(statuses::FORMAT, kinds::TIME, at, 0),
        NodeTest::Size => say(statuses::LIMIT, kinds::SIZE, at, 0),
        NodeTest::LongTime => say(statuses::LIMIT, kinds::LONG_TIME, at, 0),
    }
}

fn of_nodes(refusal: NodesRefusal) -> Answer
    ensures { result ≡ of_nodes refusal }
{
    match refusal {
        NodesRefusal::NoNode => say(statuses::FORMAT, kinds::NO_NODE, 0, 0),
        NodesRefusal::ManyNodes => say(statuses::LIMIT, kinds::MANY_TASKS, 0, 0),
        NodesRefusal::Node { test, node } => of_node(test, node),
        NodesRefusal::Total => say(statuses::LIMIT, kinds::TOTAL, 0, 0),
        NodesRefusal::Cycle(node) => say(statuses::FORMAT, kinds::CYCLE, u64::from(node), 0),
        NodesRefusal::Share(node) => say(statuses::FORMAT, kinds::SHARE, u64::from(node), 0),
        NodesRefusal::NoMemory => no_memory(),
    }
}

// A task that fails a test.
fn of_task(test: TaskTest, task: u32) -> Answer
    ensures { result ≡ of_system (systems.Task test task) }
{
    let at = u64::from(task);
    match test {
        TaskTest::Time => say(statuses::FORMAT, kinds::TIME, at, 0),
        TaskTest::Size => say(statuses::LIMIT, kinds::SIZE, at, 0),
        TaskTest::LongTime => say(statuses::LIMIT, kinds::LONG_TIME, at, 0),
    }
}

// An item that fails a test.
fn of_item(test: ItemTest, item: u32) -> Answer
    ensures { result ≡ of_system (systems.Item test item) }
{
    let at = u64::from(item);
    match test {
        ItemTest::Ends => say(statuses::FORMAT, kinds::ENDS, at, 0),
        ItemTest::Size => say(statuses::LIMIT, kinds::ITEM_SIZE, at, 0),
    }
}

fn of_system(refusal: SystemRefusal) -> Answer
    ensures { result ≡ of_system refusal }
{
    match refusal {
        SystemRefusal::ManyTasks => say(statuses::LIMIT, kinds::MANY_TASKS, 0, 0),
        SystemRefusal::ManyItems => say(statuses::LIMIT, kinds::MANY_ITEMS, 0, 0),
        SystemRefusal::Task { test, task } => of_task(test, task),
        SystemRefusal::Item { test, item } => of_item(test, item),
        SystemRefusal::Total => say(statuses::LIMIT, kinds::TOTAL, 0, 0),
        SystemRefusal::Share(task) => say(statuses::FORMAT, kinds::SHARE, u64::from(task), 0),
        SystemRefusal::NoMemory => no_memory(),
    }
}

// An item that any number of tasks may read, and that fails a test.
fn of_shared_item(test: SharedItemTest, item: u32) -> Answer
    ensures { result ≡ of_shared (shared.Item test item) }
{
    let at = u64::from(item);
    match test {
        SharedItemTest::Producer => say(statuses::FORMAT, kinds::ENDS, at, 0),
        SharedItemTest::Readers => say(statuses::FORMAT, kinds::READERS, at, 0),
        SharedItemTest::Apart => say(statuses::FORMAT, kinds::APART, at, 0),
        SharedItemTest::Rising => say(statuses::FORMAT, kinds::RISING, at, 0),
        SharedItemTest::Size => say(statuses::LIMIT, kinds::ITEM_SIZE, at, 0),
    }
}

fn of_shared(refusal: SharedRefusal) -> Answer
    ensures { result ≡ of_shared refusal }
{
    match refusal {
        SharedRefusal::ManyTasks => say(statuses::LIMIT, kinds::MANY_TASKS, 0, 0),
        SharedRefusal::ManyItems => say(statuses::LIMIT, kinds::MANY_ITEMS, 0, 0),
        SharedRefusal::ManyUses => say(statuses::LIMIT, kinds::MANY_USES, 0, 0),
        SharedRefusal::Counts => say(statuses::USAGE, kinds::COUNTS, 0, 0),
        SharedRefusal::Task { test, task } => of_task(test, task),
        SharedRefusal::Item { test, item } => of_shared_item(test, item),
        SharedRefusal::Total => say(statuses::LIMIT, kinds::TOTAL, 0, 0),
        SharedRefusal::Cycle(task) => say(statuses::FORMAT, kinds::CYCLE, u64::from(task), 0),
        SharedRefusal::Share(task) => say(statuses::FORMAT, kinds::SHARE, u64::from(task), 0),
        SharedRefusal::NoMemory => no_memory(),
    }
}

fn of_order(fault: OrderFault) -> Answer
    ensures { result ≡ of_order fault }
{
    let kind = match fault.kind {
        OrderKind::Unknown => kinds::UNKNOWN,
        OrderKind::Repeated => kinds::REPEATED,
        OrderKind::TooEarly => kinds::TOO_EARLY,
        OrderKind::Missing => kinds::MISSING,
    };
    say(statuses::NO, kind, fault.place, 0)
}

fn of_replay(refusal: ReplayRefusal) -> Answer
    ensures { result ≡ of_replay refusal }
{
    match refusal {
        ReplayRefusal::Order(fault) => of_order(fault),
        ReplayRefusal::NoMemory => no_memory(),
    }
}

fn of_core(refusal: CoreRefusal) -> Answer
    ensures { result ≡ of_core refusal }
{
    match refusal {
        CoreRefusal::Order(fault) => of_order(fault),
        CoreRefusal::BoundBelow { peak, .. } => say(statuses::BOUND, kinds::BOUND_BELOW, 0, peak),
        CoreRefusal::NoMemory => no_memory(),
    }
}

fn of_spill(refusal: SpillRefusal) -> Answer
    ensures { result ≡ of_spill refusal }
{
    match refusal {
        SpillRefusal::Order(fault) => of_order(fault),
        SpillRefusal::WorkingSet { step, need, .. } => say(
            statuses::WORKING_SET,
            kinds::WORKING_SET,
            step,
            need,
        ),
        SpillRefusal::NoMemory => no_memory(),
    }
}

fn of_plan(fault: PlanFault) -> Answer
    ensures { result ≡ of_plan fault }
{
    match fault {
        PlanFault::LongOrder => say(statuses::LIMIT, kinds::LONG_ORDER, 0, 0),
        PlanFault::GreatPeak => say(statuses::LIMIT, kinds::GREAT_PEAK, 0, 0),
        PlanFault::ManyClaims => say(statuses::LIMIT, kinds::MANY_CLAIMS, 0, 0),
        PlanFault::Claim(claim) => say(statuses::FORMAT, kinds::CLAIM, claim, 0),
    }
}

fn of_objection(objection: Objection) -> Answer
    ensures { result ≡ of_objection objection }
{
    match objection {
        Objection::Order(fault) => of_order(fault),
        Objection::Peak { replayed, .. } => say(statuses::NO, kinds::OTHER_PEAK, 0, replayed),
        Objection::Root { last } => say(statuses::NO, kinds::NO_ROOT_CLAIM, u64::from(last), 0),
        Objection::Claim { position, .. } => say(
            statuses::NO,
            kinds::WRONG_CLAIM,
            u64::from(position),
            0,
        ),
    }
}

fn of_columns(refusal: ColumnsRefusal) -> Answer
    ensures { result ≡ of_columns refusal }
{
    match refusal {
        ColumnsRefusal::Base => say(statuses::USAGE, kinds::BASE, 0, 0),
        ColumnsRefusal::NoColumn => say(statuses::FORMAT, kinds::NO_COLUMN, 0, 0),
        ColumnsRefusal::ManyColumns => say(statuses::LIMIT, kinds::MANY_COLUMNS, 0, 0),
        ColumnsRefusal::ManyEntries => say(statuses::LIMIT, kinds::MANY_ENTRIES, 0, 0),
        ColumnsRefusal::Start(start) => say(statuses::FORMAT, kinds::START, u64::from(start), 0),
        ColumnsRefusal::Entries(told) => say(statuses::USAGE, kinds::ENTRIES, 0, u64::from(told)),
        ColumnsRefusal::Row(entry) => say(statuses::FORMAT, kinds::ROW, u64::from(entry), 0),
        ColumnsRefusal::NoMemory => no_memory(),
    }
}

fn of_perm(refusal: PermRefusal) -> Answer
    ensures { result ≡ of_perm refusal }
{
    match refusal {
        PermRefusal::Places => say(statuses::USAGE, kinds::PLACES, 0, 0),
        PermRefusal::Unknown(place) => say(
            statuses::FORMAT,
            kinds::NO_SUCH_COLUMN,
            u64::from(place),
            0,
        ),
        PermRefusal::Repeated(place) => say(
            statuses::FORMAT,
            kinds::COLUMN_REPEATED,
            u64::from(place),
            0,
        ),
        PermRefusal::NoMemory => no_memory(),
    }
}

fn of_degree(refusal: MindegRefusal) -> Answer
    ensures { result ≡ of_degree refusal }
{
    match refusal {
        MindegRefusal::Limit => say(statuses::LIMIT, kinds::DEGREE, 0, 0),
        MindegRefusal::NoMemory => no_memory(),
    }
}

// An order of fronts.
fn of_front_order(refusal: PermRefusal) -> Answer
    ensures { result ≡ of_front_order refusal }
{
    match refusal {
        PermRefusal::Places => say(statuses::USAGE, kinds::PLACES, 0, 0),
        PermRefusal::Unknown(place) => say(statuses::NO, kinds::UNKNOWN, u64::from(place), 0),
        PermRefusal::Repeated(place) => say(statuses::NO, kinds::REPEATED, u64::from(place), 0),
        PermRefusal::NoMemory => no_memory(),
    }
}

fn of_fronts(refusal: FrontsRefusal) -> Answer
    ensures { result ≡ of_fronts refusal }
{
    match refusal {
        FrontsRefusal::ManyColumns => say(statuses::LIMIT, kinds::MANY_COLUMNS, 0, 0),
        FrontsRefusal::Lengths => say(statuses::USAGE, kinds::COLUMN_FRONTS, 0, 0),
        FrontsRefusal::ManyFronts => say(statuses::LIMIT, kinds::LONG_ORDER, 0, 0),
        FrontsRefusal::Columns(refusal) => of_perm(refusal),
        FrontsRefusal::Fronts(refusal) => of_front_order(refusal),
        FrontsRefusal::Front(column) => say(
            statuses::FORMAT,
            kinds::NO_SUCH_FRONT,
            u64::from(column),
            0,
        ),
        FrontsRefusal::NoMemory => no_memory(),
    }
}

fn answer_of(refusal: Refusal) -> Answer
    ensures { result ≡ answer_to refusal }
{
    match refusal {
        Refusal::Room { needed } => say(statuses::USAGE, kinds::ROOM, 0, needed),
        Refusal::ClaimRoom { needed } => say(statuses::USAGE, kinds::CLAIM_ROOM, 0, needed),
        Refusal::NodeRoom { needed } => say(statuses::USAGE, kinds::NODE_ROOM, 0, needed),
        Refusal::Shape => say(statuses::USAGE, kinds::SHAPE, 0, 0),
        Refusal::Workers => say(statuses::USAGE, kinds::WORKERS, 0, 0),
        Refusal::Nodes(refusal) => of_nodes(refusal),
        Refusal::System(refusal) => of_system(refusal),
        Refusal::Shared(refusal) => of_shared(refusal),
        Refusal::Replay(refusal) => of_replay(refusal),
        Refusal::Core(refusal) => of_core(refusal),
        Refusal::Spill(refusal) => of_spill(refusal),
        Refusal::Columns(refusal) => of_columns(refusal),
        Refusal::Perm(refusal) => of_perm(refusal),
        Refusal::Degree(refusal) => of_degree(refusal),
        Refusal::Fronts(refusal) => of_fronts(refusal),
        Refusal::Plan(fault) => of_plan(fault),
        Refusal::Objection(objection) => of_objection(objection),
        Refusal::NoMemory => no_memory(),
    }
}

/// The status of a refusal, whose fault is written.
pub fn refuse(refusal: Refusal, fault: &mut Fault) -> u32
    ensures status { result ≡ (answer_to refusal).status }
    ensures fault { fault.new ≡ (answer_to refusal).fault }
{
    let answer = answer_of(refusal);
    *fault = answer.fault;
    answer.status
}
