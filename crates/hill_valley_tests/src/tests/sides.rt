//! Sides, by hand and against plain ones.

use crate::tests::plain::{self, PlainSeg, PlainSide};
use crate::tests::roped::{One, RopedSide};
use hill_valley::NoMemory;
use rand_core::utils::NextWord;
use rand_pcg::Pcg32;
use std::alloc::Global;
use std::process::Abort;
use std::test::Fail;

// A segment in words: `up`, `net` and the tasks.
fn text_of(alloc: Global, seg: &PlainSeg) -> Result<String, NoMemory> {
    format!(in alloc; "{} {} {:?} ", seg.up, seg.net, seg.tasks)
}

// The first six segments, which are taken out.
fn segments_of(alloc: Global, mut side: RopedSide) -> Result<String, Fail> {
    let mut text = String::new(alloc);
    for _ in 0..6 {
        if let Some(seg) = side.take_first(alloc)? {
            text.push_str(text_of(alloc, &seg)?.as_str())?;
        }
    }
    Ok(text)
}

#[test]
fn a_new_side_has_no_segment(rt: HostRuntime) -> Result<(), Fail> {
    let alloc = rt.alloc();
    let mut side = RopedSide::new(alloc);
    assert_eq!(rt; side.len(), 0);
    let first = side.take_first(alloc)?;
    assert!(rt; first.is_none());
    Ok(())
}

// The first three make one segment.
const APPENDED: &[One] = &[(5, 2, 1), (3, 1, 2), (5, 0, 3), (9, 4, 4)];

// Two segments.
fn two_segments(alloc: Global) -> Result<RopedSide, NoMemory> {
    let mut side = RopedSide::new(alloc);
    for (up, net, task) in APPENDED {
        side.append(*up, *net, *task)?;
    }
    Ok(side)
}

// Bounds, and the lowest level within each: from level 10 over 15 down to 7, and over 16 down to 3.
const LOWEST: &[(i64, u64)] = &[(-1, 10), (9, 10), (14, 10), (15, 7), (16, 3), (100, 3)];

#[test]
fn a_side_of_two_segments(rt: HostRuntime) -> Result<(), Fail> {
    let alloc = rt.alloc();
    let side = two_segments(alloc)?;
    assert_eq!(rt; side.len(), 2);
    assert_eq!(rt; side.top(3), 16);
    for (bound, level) in LOWEST {
        assert_eq!(rt; side.lowest(3, *bound), *level);
    }
    Ok(())
}

#[test]
fn the_steps_of_two_segments(rt: HostRuntime) -> Result<(), Fail> {
    let alloc = rt.alloc();
    let steps = two_segments(alloc)?.steps(alloc, 3)?;
    assert_eq!(rt; steps.as_slice(), [(15, 7), (16, 3)].as_slice());
    Ok(())
}

#[test]
fn the_tasks_of_two_segments(rt: HostRuntime) -> Result<(), Fail> {
    let alloc = rt.alloc();
    let tasks = two_segments(alloc)?.tasks(alloc)?;
    assert_eq!(rt; tasks.as_slice(), [1, 2, 3, 4].as_slice());
    let segments = segments_of(alloc, two_segments(alloc)?)?;
    assert_eq!(rt; segments.as_str(), "5 3 [1, 2, 3] 9 4 [4] ");
    Ok(())
}

// Three segments, put in out of order.
fn three_segments(alloc: Global) -> Result<RopedSide, Fail> {
    let mut side = RopedSide::new(alloc);
    side.insert(9, 4, 4, true)?;
    side.insert(5, 3, 1, true)?;
    side.insert(7, 1, 5, false)?;
    Ok(side)
}

#[test]
fn a_side_of_three_segments(rt: HostRuntime) -> Result<(), Fail> {
    let alloc = rt.alloc();
    let side = three_segments(alloc)?;
    assert_eq!(rt; side.len(), 3);
    // from level 10 over 15 down to 7, over 14 down to 6, and over 15 down to 2
    assert_eq!(rt; side.top(2), 15);
    let steps = side.steps(alloc, 2)?;
    assert_eq!(rt; steps.as_slice(), [(15, 2)].as_slice());
    assert_eq!(rt; side.lowest(2, 14), 10);
    assert_eq!(rt; side.lowest(2, 15), 2);
    Ok(())
}

// Levels, and how many of the first segments start at or above each: they start at 10, 7 and 6.
const ABOVE: &[(u64, usize)] = &[(6, 3), (7, 2), (8, 1), (10, 1), (11, 0)];

#[test]
fn the_first_segments_are_those_above_a_level(rt: HostRuntime) -> Result<(), Fail> {
    let alloc = rt.alloc();
    let side = three_segments(alloc)?;
    let all = side.numbers(alloc, 2, 0)?;
    assert_eq!(rt; all.as_slice(), [(5, 3), (7, 1), (9, 4)].as_slice());
    for (stop, many) in ABOVE {
        let numbers = side.numbers(alloc, 2, *stop)?;
        assert_eq!(rt; numbers.len(), *many);
    }
    Ok(())
}

#[test]
fn segments_are_put_in_at_their_places(rt: HostRuntime) -> Result<(), Fail> {
    let alloc = rt.alloc();
    let mut side = three_segments(alloc)?;
    side.insert(7, 1, 6, true)?;
    side.insert(7, 2, 8, false)?;
    let segments = segments_of(alloc, side)?;
    assert_eq!(rt; segments.as_str(), "5 3 [1] 7 4 [6, 5, 8] 9 4 [4] ");
    Ok(())
}

// Puts a segment of one task in both sides.
fn put(
    alloc: Global,
    (up, net, task): One,
    before: bool,
    side: &mut RopedSide,
    plain: &mut PlainSide,
) -> Result<(), NoMemory> {
    side.insert(up, net, task, before)?;
    plain::insert(plain, plain::one(alloc, up, net, task)?, before)
}

// Appends a segment of one task to both sides.
fn append(
    alloc: Global,
    (up, net, task): One,
    side: &mut RopedSide,
    plain: &mut PlainSide,
) -> Result<(), NoMemory> {
    side.append(up, net, task)?;
    plain::append(plain, plain::one(alloc, up, net, task)?)
}

// Three segments inside a long side and one at each end, and whether each goes before its equals.
const PUT_IN: &[(One, bool)] = &[
    ((601, 1, 601), true),
    ((600, 2, 7), true),
    ((602, 2, 8), false),
    ((1, 1, 1), true),
    ((1201, 1, 1201), false),
];

// A segment at each even `up` to 1,200, of the task of the same number, and then those that are put in.
fn long_sides(alloc: Global) -> Result<(RopedSide, PlainSide), NoMemory> {
    let mut side = RopedSide::new(alloc);
    let mut plain = PlainSide::new(alloc);
    for half in 1..601u32 {
        append(
            alloc,
            (u64::from(half) * 2, 1, half * 2),
            &mut side,
            &mut plain,
        )?;
    }
    for (one, before) in PUT_IN {
        put(alloc, *one, *before, &mut side, &mut plain)?;
    }
    Ok((side, plain))
}

// The segments of the one side are those of the plain one.
fn take_all(
    rt: &impl Abort,
    alloc: Global,
    mut side: RopedSide,
    plain: PlainSide,
) -> Result<(), Fail> {
    for seg in plain {
        let first = side.take_first(alloc)?;
        assert_eq!(rt; first, Some(seg));
    }
    let last = side.take_first(alloc)?;
    assert!(rt; last.is_none());
    Ok(())
}

#[test]
fn a_long_side_takes_in_segments_anywhere(rt: HostRuntime) -> Result<(), Fail> {
    let alloc = rt.alloc();
    let (side, plain) = long_sides(alloc)?;
    // 600 segments, one between two of them, and one at each end
    assert_eq!(rt; side.len(), 603);
    take_all(&rt, alloc, side, plain)
}

#[test]
fn the_levels_of_a_long_side(rt: HostRuntime) -> Result<(), Fail> {
    let alloc = rt.alloc();
    let (mut side, _plain) = long_sides(alloc)?;
    // from level 607, of which the last segment starts one above the end
    assert_eq!(rt; side.top(0), 1202);
    assert_eq!(rt; side.lowest(0, 608), 605);
    let tasks = side.tasks(alloc)?;
    assert_eq!(rt; tasks.len(), 605);
    Ok(())
}

// A segment for each `up` from `first` on, two apart, of the task 2000 more.
fn ones_from(alloc: Global, first: u32, count: u32) -> Result<Vec<One>, NoMemory> {
    let mut ones = Vec::new(alloc);
    for i in 0..count {
        let up = first.saturating_add(i.saturating_mul(2));
        ones.push((u64::from(up), 1, up.saturating_add(2000)))?;
    }
    Ok(ones)
}

// A long side, with a segment merged into each of its first ten.
fn merged_with_few(alloc: Global) -> Result<RopedSide, NoMemory> {
    let few = ones_from(alloc, 2, 10)?;
    let (side, _plain) = long_sides(alloc)?;
    side.merge(alloc, &few, true)
}

// .. and with 300 more, of which the last joins the segment at 601.
fn merged_with_many(alloc: Global) -> Result<RopedSide, NoMemory> {
    let many = ones_from(alloc, 3, 300)?;
    merged_with_few(alloc)?.merge(alloc, &many, false)
}

#[test]
fn a_long_side_is_merged_with_few_segments(rt: HostRuntime) -> Result<(), Fail> {
    let side = merged_with_few(rt.alloc())?;
    assert_eq!(rt; side.len(), 603);
    Ok(())
}

#[test]
fn a_long_side_is_merged_with_many_segments(rt: HostRuntime) -> Result<(), Fail> {
    let alloc = rt.alloc();
    let mut side = merged_with_many(alloc)?;
    assert_eq!(rt; side.len(), 902);
    let tasks = side.tasks(alloc)?;
    assert_eq!(rt; tasks.len(), 915);
    Ok(())
}

#[test]
fn the_first_segments_of_a_merged_side(rt: HostRuntime) -> Result<(), Fail> {
    let alloc = rt.alloc();
    let segments = segments_of(alloc, merged_with_many(alloc)?)?;
    assert_eq!(rt;
        segments.as_str(),
        "1 1 [1] 2 2 [2002, 2] 3 1 [2003] 4 2 [2004, 4] 5 1 [2005] 6 2 [2006, 6] "
    );
    Ok(())
}

// A number below `below`.
fn next(dice: &mut Pcg32, below: u64) -> u64 {
    u64::from(dice.next_word()) % below.max(1)
}

// Both sides say the same under each limit, and the steps are where the plain one gets lower.
fn compare(
    rt: &impl Abort,
    alloc: Global,
    more: u64,
    side: &RopedSide,
    plain: &PlainSide,
) -> Result<(), Fail> {
    let level = side.level(more);
    assert_eq!(rt; side.len(), plain.len() as u64);
    assert_eq!(rt; side.top(more), plain::run(plain, level, u64::MAX).1);
    let mut steps = Vec::new(alloc);
    let mut at = level;
    for limit in 0..100u64 {
        let (low, _) = plain::run(plain, level, limit);
        assert_eq!(rt; side.lowest(more, limit as i64 - 1), low);
        if level < limit && low < at {
            steps.push((limit - 1, low))?;
            at = low;
        }
    }
    let made = side.steps(alloc, more)?;
    assert_eq!(rt; made.as_slice(), steps.as_slice());
    Ok(())
}

// One change of both sides.
fn change(
    rt: &impl Abort,
    alloc: Global,
    dice: &mut Pcg32,
    task: u32,
    side: &mut RopedSide,
    plain: &mut PlainSide,
) -> Result<(), Fail> {
    let (up, net) = (next(dice, 12), next(dice, 4));
    let run = plain::one(alloc, up, net, task)?;
    let kind = next(dice, 6);
    if kind == 0 {
        let first = side.take_first(alloc)?;
        assert_eq!(rt; first, plain.pop_front());
    } else if kind < 3 {
        side.insert(up, net, task, kind == 1)?;
        plain::insert(plain, run, kind == 1)?;
    } else {
        side.append(up, net, task)?;
        plain::append(plain, run)?;
    }
    Ok(())
}

// Twenty changes of a new side, and what is left of it taken out.
fn compare_one(rt: &impl Abort, alloc: Global, dice: &mut Pcg32) -> Result<(), Fail> {
    let mut side = RopedSide::new(alloc);
    let mut plain = PlainSide::new(alloc);
    for task in 0..20 {
        change(rt, alloc, dice, task, &mut side, &mut plain)?;
        compare(rt, alloc, next(dice, 5), &side, &plain)?;
    }
    for _ in 0..20 {
        let first = side.take_first(alloc)?;
        assert_eq!(rt; first, plain.pop_front());
    }
    Ok(())
}

#[test]
fn random_sides_are_as_the_plain_ones(rt: HostRuntime) -> Result<(), Fail> {
    let alloc = rt.alloc();
    let mut dice = Pcg32::new(1, 11);
    for _ in 0..30 {
        compare_one(&rt, alloc, &mut dice)?;
    }
    Ok(())
}

// Less than `below` segments, whose `up` values never fall.
fn random_ones(alloc: Global, dice: &mut Pcg32, below: u64) -> Result<Vec<One>, NoMemory> {
    let mut ones = Vec::new(alloc);
    let mut up = 0u64;
    let mut task = 0u32;
    for _ in 0..next(dice, below) {
        up = up.saturating_add(next(dice, 4));
        ones.push((up, next(dice, 4), task))?;
        task = task.saturating_add(1);
    }
    Ok(ones)
}

// Appends the segments to both sides.
fn append_all(
    alloc: Global,
    ones: &[One],
    side: &mut RopedSide,
    plain: &mut PlainSide,
) -> Result<(), NoMemory> {
    for one in ones {
        append(alloc, *one, side, plain)?;
    }
    Ok(())
}

// Puts the segments that are appended to one plain side into another, one after another.
fn merge_plainly(
    alloc: Global,
    ones: &[One],
    plain: &mut PlainSide,
    before: bool,
) -> Result<(), NoMemory> {
    let mut other = PlainSide::new(alloc);
    for &(up, net, task) in ones {
        plain::append(&mut other, plain::one(alloc, up, net, task)?)?;
    }
    for seg in other {
        plain::insert(plain, seg, before)?;
    }
    Ok(())
}

// Sides of few segments merged into sides of more.
fn compare_merged(
    rt: &impl Abort,
    alloc: Global,
    dice: &mut Pcg32,
    before: bool,
) -> Result<(), Fail> {
    let mut side = RopedSide::new(alloc);
    let mut plain = PlainSide::new(alloc);
    let own = random_ones(alloc, dice, 30)?;
    append_all(alloc, &own, &mut side, &mut plain)?;
    let ones = random_ones(alloc, dice, 10)?;
    let side = side.merge(alloc, &ones, before)?;
    merge_plainly(alloc, &ones, &mut plain, before)?;
    compare(rt, alloc, next(dice, 5), &side, &plain)?;
    take_all(rt, alloc, side, plain)
}

#[test]
fn random_sides_are_merged_as_the_plain_ones(rt: HostRuntime) -> Result<(), Fail> {
    let alloc = rt.alloc();
    let mut dice = Pcg32::new(1, 11);
    for i in 0..100u32 {
        compare_merged(&rt, alloc, &mut dice, i % 2 == 0)?;
    }
    Ok(())
}
