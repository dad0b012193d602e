ghost use Rattle.sp_terms.specs.Builder.{IsPosition};

use super::{BRANCHES, read};
use limits::{LimitName, MOST_SIZE, MOST_TIME};
use mp_system::{Item, System, Task};
use sp_terms::{
    Position, PushRefusal, TermBuilder, TermList, Values, hill, system_of, values, values_at,
};
use std::alloc::Global;
use std::process::Abort;
use std::test::Fail;

fn task(extra: u64, share: u64) -> Position
    ensures { IsPosition result }
{
    Position::Task {
        extra,
        share,
        time: 1,
    }
}

const FIRST_TASK: Position = Position::Task {
    extra: 0,
    share: 0,
    time: 1,
};

const SECOND_TASK: Position = Position::Task {
    extra: 6,
    share: 0,
    time: 1,
};

// The positions of the two branches.
const POSITIONS: &[(u32, Position)] = &[
    (1, Position::Hold(4)),
    (2, Position::Hold(1)),
    (3, FIRST_TASK),
    (4, Position::Hold(3)),
    (5, SECOND_TASK),
    (6, Position::Hold(4)),
    (7, Position::Hold(1)),
    (8, FIRST_TASK),
    (9, Position::Hold(3)),
    (10, SECOND_TASK),
    (11, Position::Par(2)),
];

fn position_at(terms: &TermList, place: u32) -> Option<Position> {
    if 1 <= place && place <= terms.len() {
        Some(terms.at(place))
    } else {
        None
    }
}

#[test]
fn positions_of_a_file(rt: HostRuntime) -> Result<(), Fail> {
    let terms = read(rt.alloc(), BRANCHES)?;
    assert_eq!(rt; terms.len(), 11);
    for (place, position) in POSITIONS {
        assert_eq!(rt; position_at(&terms, *place), Some(*position));
    }
    Ok(())
}

fn row_of(values: &Values) -> (u64, u64, u64, u32) {
    (values.initial, values.fin, values.least, values.width)
}

#[test]
fn values_of_a_half_and_the_whole(rt: HostRuntime) -> Result<(), Fail> {
    let alloc = rt.alloc();
    let terms = read(alloc, BRANCHES)?;
    assert_eq!(rt; terms.len(), 11);
    let all = values(alloc, &terms)?;
    for (values, row) in all.iter().zip([
        (4, 4, 4, 1),
        (1, 1, 1, 1),
        (4, 1, 1, 3),
        (3, 3, 3, 1),
        (4, 3, 1, 5),
    ]) {
        assert_eq!(rt; row_of(values), row);
    }
    assert_eq!(rt; row_of(&values_at(&terms, &all, 11)), (8, 6, 2, 11));
    Ok(())
}

fn system_of_branches(alloc: Global) -> Result<System, Fail> {
    Ok(system_of(alloc, &read(alloc, BRANCHES)?)?)
}

#[test]
fn items_of_the_system(rt: HostRuntime) -> Result<(), Fail> {
    let system = system_of_branches(rt.alloc())?;
    let items = [
        (4, None, Some(1)),
        (1, Some(1), Some(2)),
        (3, Some(2), None),
        (4, None, Some(3)),
        (1, Some(3), Some(4)),
        (3, Some(4), None),
    ]
    .map(|(size, from, to)| Item { size, from, to });
    assert_eq!(rt; system.items(), items.as_slice());
    Ok(())
}

#[test]
fn tasks_of_the_system(rt: HostRuntime) -> Result<(), Fail> {
    let system = system_of_branches(rt.alloc())?;
    let tasks = [0, 6, 0, 6].map(|extra| Task {
        extra,
        share: 0,
        time: 1,
    });
    assert_eq!(rt; system.tasks(), tasks.as_slice());
    Ok(())
}

// Takes data of 4 and 3, and refuses what has too few parts before.
fn check_parts(rt: &impl Abort, builder: &mut TermBuilder) {
    assert_eq!(rt; builder.push(task(0, 0)), Err(PushRefusal::Short));
    assert_eq!(rt; builder.push(Position::Hold(4)), Ok(()));
    assert_eq!(rt; builder.push(Position::Par(2)), Err(PushRefusal::Short));
    assert_eq!(rt; builder.push(Position::Hold(3)), Ok(()));
}

// .. and then sizes and times past the limits.
fn check_limits(rt: &impl Abort, builder: &mut TermBuilder) {
    let size = Err(PushRefusal::Limit(LimitName::Size));
    assert_eq!(rt; builder.push(Position::Hold(MOST_SIZE + 1)), size);
    assert_eq!(rt; builder.push(task(MOST_SIZE + 1, 9)), size);
    let slow = Position::Task {
        extra: 0,
        share: 9,
        time: MOST_TIME + 1,
    };
    let time = Err(PushRefusal::Limit(LimitName::Time));
    assert_eq!(rt; builder.push(slow), time);
}

// .. and shares that are greater than the 4, or than the extra and the 3.
fn check_shares(rt: &impl Abort, builder: &mut TermBuilder) {
    assert_eq!(rt; builder.push(task(2, 5)), Err(PushRefusal::Share));
    assert_eq!(rt; builder.push(task(0, 4)), Err(PushRefusal::Share));
}

// The builder, which holds two terms.
fn handed_back(builder: TermBuilder) -> Result<TermBuilder, Fail> {
    match builder.finish() {
        Ok(_) => Err(Fail::new("these positions make one term")),
        Err(back) => Ok(back),
    }
}

// How many positions the one term has.
fn length_of(builder: TermBuilder) -> Option<u32> {
    builder.finish().ok().map(|terms| terms.len())
}

#[test]
fn a_builder_takes_or_refuses(rt: HostRuntime) -> Result<(), Fail> {
    let mut builder = TermBuilder::new(rt.alloc());
    check_parts(&rt, &mut builder);
    check_limits(&rt, &mut builder);
    check_shares(&rt, &mut builder);
    let mut back = handed_back(builder)?;
    assert_eq!(rt; back.push(task(2, 4)), Ok(()));
    assert_eq!(rt; length_of(back), Some(3));
    Ok(())
}

fn fill(builder: &mut TermBuilder, times: u32, size: u64) -> Result<(), Fail> {
    for _ in 0..times {
        builder.push(Position::Hold(size))?;
    }
    Ok(())
}

// So many data items of one size reach a limit, which the next one passes.
const FULL: &[(u32, u64, u64, LimitName)] = &[
    (1_048_576, MOST_SIZE, 1, LimitName::Total),
    (4_000_001, 0, 0, LimitName::Positions),
];

#[test]
fn a_builder_keeps_to_positions_and_the_total(rt: HostRuntime) -> Result<(), Fail> {
    for (times, size, next, name) in FULL {
        let refused = Err(PushRefusal::Limit(*name));
        let mut builder = TermBuilder::new(rt.alloc());
        fill(&mut builder, *times, *size)?;
        assert_eq!(rt; builder.push(Position::Hold(*next)), refused);
        assert_eq!(rt; builder.push(task(*next, 0)), refused);
    }
    Ok(())
}

// A task and a data item, so many times.
fn add_tasks(builder: &mut TermBuilder, times: u32) -> Result<(), Fail> {
    for _ in 0..times {
        builder.push(task(0, 0))?;
        fill(builder, 1, 0)?;
    }
    Ok(())
}

// A million tasks, which leave two terms.
fn full_of_tasks(alloc: Global) -> Result<TermBuilder, Fail> {
    let mut builder = TermBuilder::new(alloc);
    fill(&mut builder, 2, 0)?;
    add_tasks(&mut builder, 1_000_000)?;
    Ok(builder)
}

#[test]
fn a_builder_keeps_to_a_million_tasks(rt: HostRuntime) -> Result<(), Fail> {
    let mut builder = full_of_tasks(rt.alloc())?;
    let refused = Err(PushRefusal::Limit(LimitName::Tasks));
    assert_eq!(rt; builder.push(task(0, 0)), refused);
    assert_eq!(rt; builder.push(Position::Par(2)), Ok(()));
    assert_eq!(rt; length_of(builder), Some(2_000_003));
    Ok(())
}

const WORDS: &[(PushRefusal, &str)] = &[
    (PushRefusal::Short, "stack-short"),
    (PushRefusal::Limit(LimitName::Total), "limit total"),
    (PushRefusal::Share, "share"),
    (PushRefusal::NoMemory, "no memory"),
];

#[test]
fn refusals_have_their_words(rt: HostRuntime) -> Result<(), Fail> {
    for (refusal, words) in WORDS {
        let text = format!(in rt.alloc(); "{refusal}")?;
        assert_eq!(rt; text.as_str(), *words);
    }
    Ok(())
}

#[test]
fn hill_of_the_second_task_of_a_half(rt: HostRuntime) -> Result<(), Fail> {
    let first = Values {
        initial: 4,
        fin: 1,
        least: 1,
        width: 3,
    };
    let second = Values {
        initial: 3,
        fin: 3,
        least: 3,
        width: 1,
    };
    // the share, and the hill: 1 that is left, 6 beside it and 3 that are produced, without the share
    for (share, memory) in [(0, 10), (1, 9)] {
        let task = Task {
            extra: 6,
            share,
            time: 1,
        };
        assert_eq!(rt; hill(&first, &task, &second), memory);
    }
    Ok(())
}
