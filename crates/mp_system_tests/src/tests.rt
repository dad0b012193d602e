ghost use Rattle.std.specs.Prelude.{◌≡◌, IfOk};
ghost use Rattle.mp_system.specs.Samples as samples;

use mp_system::{
    Item, NoMemory, OrderFault, OrderKind, Replay, ReplayRefusal, System, Task, replay,
};
use std::alloc::Global;
use std::rt::HostRuntime;
use std::test::Fail;

fn task(extra: u64, share: u64) -> Task
    ensures { result ≡ samples.task extra share }
{
    Task {
        extra,
        share,
        time: 1,
    }
}

fn item(size: u64, from: Option<u32>, to: Option<u32>) -> Item
    ensures { result ≡ samples.item size from to }
{
    Item { size, from, to }
}

// A tree of five nodes: 5 has the children 2 and 4, which have the children 1 and 3.
fn tree(alloc: Global) -> Result<System, NoMemory>
    ensures { IfOk result (λ system. system ≡ samples.tree) }
{
    let tasks = vec![in alloc; task(9, 0), task(0, 0), task(9, 0), task(0, 0), task(0, 0)]?;
    let items = vec![in alloc;
        item(1, Some(1), Some(2)),
        item(5, Some(2), Some(5)),
        item(1, Some(3), Some(4)),
        item(5, Some(4), Some(5)),
        item(0, Some(5), None),
    ]?;
    Ok(System::new(tasks, items))
}

// A node with one child, whose block of size 4 it takes over into its own memory.
fn shared(alloc: Global) -> Result<System, NoMemory>
    ensures { IfOk result (λ system. system ≡ samples.shared) }
{
    let tasks = vec![in alloc; task(0, 0), task(2, 4)]?;
    let items = vec![in alloc; item(4, Some(1), Some(2)), item(3, Some(2), None)]?;
    Ok(System::new(tasks, items))
}

// A task that takes up a block of size 7 and leaves one of size 3 to the next; another block of size 2 stays throughout.
fn stocked(alloc: Global) -> Result<System, NoMemory>
    ensures { IfOk result (λ system. system ≡ samples.stocked) }
{
    let tasks = vec![in alloc; task(1, 0), task(0, 0)]?;
    let items = vec![in alloc;
        item(7, None, Some(1)),
        item(3, Some(1), Some(2)),
        item(2, None, None),
    ]?;
    Ok(System::new(tasks, items))
}

fn fault(place: u64, kind: OrderKind) -> Result<u64, ReplayRefusal> {
    Err(ReplayRefusal::Order(OrderFault { place, kind }))
}

#[test]
fn peaks_and_first_faults(rt: HostRuntime) -> Result<(), Fail> {
    let alloc = rt.alloc();
    let (tree, shared, stocked) = (tree(alloc)?, shared(alloc)?, stocked(alloc)?);
    let rows: [(&System, &[u32], Result<u64, ReplayRefusal>); 10] = [
        (&tree, &[1, 3, 2, 4, 5], Ok(11)),
        (&tree, &[1, 2, 3, 4, 5], Ok(15)),
        (&tree, &[1, 1], fault(2, OrderKind::Repeated)),
        (&tree, &[9], fault(1, OrderKind::Unknown)),
        (&tree, &[0], fault(1, OrderKind::Unknown)),
        (&tree, &[1, 2, 3, 4], fault(5, OrderKind::Missing)),
        (&tree, &[2, 1, 3, 4, 5], fault(1, OrderKind::TooEarly)),
        (&shared, &[1, 2], Ok(5)),
        (&stocked, &[1, 2], Ok(13)),
        (&stocked, &[2, 1], fault(1, OrderKind::TooEarly)),
    ];
    for (system, order, answer) in rows {
        assert_eq!(rt; replay(alloc, system, order), answer);
    }
    Ok(())
}

// A task, the memory while it runs or why it does not, and the memory after that.
const STEPS: &[(u32, Result<u64, OrderKind>, u64)] = &[
    (1, Ok(10), 1),
    (1, Err(OrderKind::Repeated), 1),
    (3, Ok(11), 2),
    (5, Err(OrderKind::TooEarly), 2),
    (6, Err(OrderKind::Unknown), 2),
    (2, Ok(7), 6),
    (4, Ok(11), 10),
    (5, Ok(10), 0),
];

#[test]
fn memory_step_by_step(rt: HostRuntime) -> Result<(), Fail> {
    let system = tree(rt.alloc())?;
    assert_eq!(rt; system.tasks().len(), 5);
    assert_eq!(rt; system.items().len(), 5);
    let mut replay = Replay::new(rt.alloc(), &system)?;
    assert_eq!(rt; replay.memory(), 0);
    for (task, answer, memory) in STEPS {
        assert_eq!(rt; replay.step(&system, *task), *answer);
        assert_eq!(rt; replay.memory(), *memory);
    }
    Ok(())
}

#[test]
fn items_that_are_there_at_the_start(rt: HostRuntime) -> Result<(), Fail> {
    let system = stocked(rt.alloc())?;
    assert_eq!(rt; Replay::new(rt.alloc(), &system)?.memory(), 9);
    Ok(())
}

#[test]
fn items_that_no_task_produces(rt: HostRuntime) -> Result<(), Fail> {
    let system = stocked(rt.alloc())?;
    let mut replay = Replay::new(rt.alloc(), &system)?;
    assert_eq!(rt; (replay.step(&system, 1), replay.memory()), (Ok(13), 5));
    assert_eq!(rt; (replay.step(&system, 2), replay.memory()), (Ok(5), 2));
    Ok(())
}

// A kind of fault, its word, and a fault of it at place 3 in words.
const WORDS: &[(OrderKind, &str, &str)] = &[
    (OrderKind::Unknown, "unknown", "unknown at place 3"),
    (OrderKind::Repeated, "repeated", "repeated at place 3"),
    (OrderKind::TooEarly, "too-early", "too-early at place 3"),
    (OrderKind::Missing, "missing", "missing at place 3"),
];

#[test]
fn words_of_kinds(rt: HostRuntime) -> Result<(), Fail> {
    for (kind, word, _) in WORDS {
        assert_eq!(rt; kind.word(), *word);
        assert_eq!(rt; format!(in rt.alloc(); "{kind}")?.as_str(), *word);
    }
    Ok(())
}

#[test]
fn words_of_faults(rt: HostRuntime) -> Result<(), Fail> {
    for (kind, _, text) in WORDS {
        let kind = *kind;
        let fault = OrderFault { place: 3, kind };
        assert_eq!(rt; format!(in rt.alloc(); "{fault}")?.as_str(), *text);
    }
    Ok(())
}

#[test]
fn words_of_refusals(rt: HostRuntime) -> Result<(), Fail> {
    for (kind, _, text) in WORDS {
        let kind = *kind;
        let refusal = ReplayRefusal::Order(OrderFault { place: 3, kind });
        assert_eq!(rt; format!(in rt.alloc(); "{refusal}")?.as_str(), *text);
    }
    Ok(())
}

#[test]
fn words_of_want_of_memory(rt: HostRuntime) -> Result<(), Fail> {
    let refusal = ReplayRefusal::NoMemory;
    assert_eq!(rt; format!(in rt.alloc(); "{refusal}")?.as_str(), "no memory");
    Ok(())
}
