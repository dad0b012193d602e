//! Worked examples, by hand, and random sides against a plain merge.

ghost use Rattle.std.specs.Prelude.{◌≡◌, ℕ, ◌+◌, ◌*◌, ◌≤◌, ◌<◌, IfOk};
ghost use Rattle.std.specs.Bool.{OnTrue};
ghost use Rattle.limits.specs.Limits.{most_total};
ghost use Rattle.side_laws.specs.Segments.{net_sum};
ghost use Rattle.hill_valley.specs.Ropes.{Extends};
ghost use Rattle.hill_valley.specs.Side.{profile, HaveRopes};
ghost use Rattle.segment_merge.specs.Merging.{AllHaveRopes, net_sum_all, segment_count, longest};

use hill_valley::{Ropes, Side, laws as run_laws};
use rand_core::utils::NextWord;
use rand_pcg::Pcg32;
use segment_merge::{NoMemory, merge};
use std::alloc::Global;
use std::marker::Brand;
use std::sync::ledger::{Blank, Ledger};
use std::test::Fail;
use step_count::Steps;

// A segment with its tasks.
#[derive(PartialEq, Debug, Drop)]
struct Row {
    up: u64,
    net: u64,
    tasks: Vec<u32>,
}

// A segment of one task: its `up`, its `net`, and the task.
type One = (u64, u64, u32);

// The side of these segments. Those that are too large are left out, which the comparison shows.
fn side_of(alloc: Global, ropes: &mut Ropes, ones: &[One]) -> Result<Side, NoMemory>
    ensures ropes { IfOk result (λ side. HaveRopes ropes.new side) }
    ensures net { IfOk result (λ side. net_sum (profile side) ≤ 2000) }
    ensures kept { Extends ropes.old ropes.new }
{
    run_laws::runs();
    let mut side = Side::new(alloc);
    let mut sum = 0;
    for &(up, net, task) in ones {
        if up <= 1000 && net <= 1000 && sum <= 1000 {
            let tasks = ropes.one(task);
            side.append(ropes, up, net, tasks)?;
            sum += net;
        }
    }
    Ok(side)
}

// A side for each list, where there are at most a thousand lists.
fn sides_of(alloc: Global, ropes: &mut Ropes, lists: &[Vec<One>]) -> Result<Vec<Side>, NoMemory>
    ensures ropes { IfOk result (λ sides. AllHaveRopes ropes.new sides.items) }
    ensures net { IfOk result (λ sides. net_sum_all sides.items ≤ most_total) }
{
    run_laws::runs();
    let mut sides = Vec::new(alloc);
    if lists.len() <= 1000 {
        for list in lists {
            let side = side_of(alloc, ropes, list)?;
            sides.push(side)?;
        }
    }
    Ok(sides)
}

// The segments of a side, in order.
fn rows_of(alloc: Global, ropes: &Ropes, mut side: Side) -> Result<Vec<Row>, NoMemory>
    requires { HaveRopes ropes.now side }
{
    let mut rows = Vec::new(alloc);
    while let Some(seg) = side.take_first() {
        let tasks = ropes.list(alloc, seg.tasks)?;
        rows.push(Row {
            up: seg.up,
            net: seg.net,
            tasks,
        })?;
    }
    Ok(rows)
}

// The rows of the merged side.
fn merged_rows<L: Ledger>(
    alloc: Global,
    blank: Blank,
    lists: &[Vec<One>],
) -> Result<Vec<Row>, NoMemory>
    requires name { blank.name ≡ L.name }
    requires parts { blank.parts ≡ L.parts }
    requires some { 0 < blank.parts }
{
    let mut steps = Steps::<L>::new(blank);
    let mut ropes = Ropes::new(alloc);
    let sides = sides_of(alloc, &mut ropes, lists)?;
    let side = merge(alloc, sides, &mut ropes, &mut steps)?;
    rows_of(alloc, &ropes, side)
}

// Three sides, with three, two and one segments.
fn are_three_two_one(sides: &[Side]) -> bool
    ensures { OnTrue result ((longest sides.now ≡ 3) × (segment_count sides.now ≡ 6)) }
{
    sides.len() == 3 && sides[0].len() == 3 && sides[1].len() == 2 && sides[2].len() == 1
}

// That a count is at most three is told to whoever proves it.
fn at_most_three<L: Ledger>(_steps: &Steps<L>)
    requires { _steps.now ≤ 3 }
{}

// Merges sides of three, two and one segments in at most three steps. False where they are others.
fn takes_three_steps<L: Ledger>(
    alloc: Global,
    blank: Blank,
    lists: &[Vec<One>],
) -> Result<bool, NoMemory>
    requires name { blank.name ≡ L.name }
    requires parts { blank.parts ≡ L.parts }
    requires some { 0 < blank.parts }
{
    let mut steps = Steps::<L>::new(blank);
    let mut ropes = Ropes::new(alloc);
    let sides = sides_of(alloc, &mut ropes, lists)?;
    if !are_three_two_one(&sides) {
        return Ok(false);
    }
    merge(alloc, sides, &mut ropes, &mut steps)?;
    at_most_three(&steps);
    Ok(true)
}

// Three sides with three, two and one segments.
fn three_two_one(alloc: Global) -> Result<Vec<Vec<One>>, NoMemory> {
    let mut lists = Vec::new(alloc);
    lists.push(vec![in alloc; (2, 1, 1), (5, 2, 2), (9, 4, 3)]?)?;
    lists.push(vec![in alloc; (1, 0, 4), (5, 3, 5)]?)?;
    lists.push(vec![in alloc; (9, 6, 6)]?)?;
    Ok(lists)
}

const MERGED: &[(u64, u64, &[u32])] = &[
    (1, 0, &[4]),
    (2, 1, &[1]),
    (5, 5, &[2, 5]),
    (9, 10, &[3, 6]),
];

#[test]
fn sides_are_merged_in_rising_order(rt: HostRuntime) -> Result<(), Fail> {
    let alloc = rt.alloc();
    let lists = three_two_one(alloc)?;
    let rows = merged_rows::<Brand>(alloc, Blank::new(1), &lists)?;
    assert_eq!(rt; rows.len(), MERGED.len());
    for (row, (up, net, tasks)) in rows.iter().zip(MERGED) {
        assert_eq!(rt; (row.up, row.net), (*up, *net));
        assert_eq!(rt; row.tasks.as_slice(), *tasks);
    }
    let none = Vec::new(alloc);
    assert!(rt; merged_rows::<Brand>(alloc, Blank::new(1), &none)?.is_empty());
    Ok(())
}

// That the steps are at most three is proved of `takes_three_steps`.
#[test]
fn three_two_and_one_segments_take_three_steps(rt: HostRuntime) -> Result<(), Fail> {
    let lists = three_two_one(rt.alloc())?;
    assert!(rt; takes_three_steps::<Brand>(rt.alloc(), Blank::new(1), &lists)?);
    Ok(())
}

// The segments of this `up` of all lists, in the order of the lists.
fn row_at(alloc: Global, up: u64, lists: &[Vec<One>]) -> Result<Row, NoMemory> {
    let mut net = 0u64;
    let mut tasks = Vec::new(alloc);
    for list in lists {
        for one in list {
            if one.0 == up {
                net = net.saturating_add(one.1);
                tasks.push(one.2)?;
            }
        }
    }
    Ok(Row { up, net, tasks })
}

// The segments of each `up` below 20 in turn.
fn plain_rows(alloc: Global, lists: &[Vec<One>]) -> Result<Vec<Row>, NoMemory> {
    let mut rows = Vec::new(alloc);
    for up in 0..20 {
        let row = row_at(alloc, up, lists)?;
        if !row.tasks.is_empty() {
            rows.push(row)?;
        }
    }
    Ok(rows)
}

// A number below `below`.
fn next(dice: &mut Pcg32, below: u64) -> u64 {
    u64::from(dice.next_word()) % below.max(1)
}

// At most five lists of at most six segments, whose `up` values rise below 19.
fn random_lists(alloc: Global, dice: &mut Pcg32) -> Result<Vec<Vec<One>>, NoMemory> {
    let mut lists = Vec::new(alloc);
    let mut task = 0u32;
    for _ in 0..next(dice, 6) {
        let mut list = Vec::new(alloc);
        let mut up = 0u64;
        for _ in 0..next(dice, 7) {
            up = up.saturating_add(next(dice, 3)).saturating_add(1);
            list.push((up, next(dice, 4), task))?;
            task = task.saturating_add(1);
        }
        lists.push(list)?;
    }
    Ok(lists)
}

#[test]
fn random_sides_are_merged_as_plainly(rt: HostRuntime) -> Result<(), Fail> {
    let alloc = rt.alloc();
    let mut dice = Pcg32::new(1, 11);
    for _ in 0..100 {
        let lists = random_lists(alloc, &mut dice)?;
        let rows = merged_rows::<Brand>(alloc, Blank::new(1), &lists)?;
        assert_eq!(rt; rows.as_slice(), plain_rows(alloc, &lists)?.as_slice());
    }
    Ok(())
}
