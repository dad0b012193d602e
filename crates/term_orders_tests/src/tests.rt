//! The two orders of a term.

ghost use Rattle.std.specs.Prelude.{◌≤◌};

use sp_terms::{Position, TermBuilder, TermList};
use std::alloc::Global;
use std::process::Abort;
use std::rt::HostRuntime;
use std::test::Fail;
use term_orders::{Side, TermOrders, term_order, term_orders};

fn hold(builder: &mut TermBuilder, size: u64) -> Result<(), Fail> {
    Ok(builder.push(Position::Hold(size)).ok().ok_or("an item")?)
}

fn task(builder: &mut TermBuilder) -> Result<(), Fail> {
    let task = Position::Task {
        extra: 0,
        share: 0,
        time: 1,
    };
    Ok(builder.push(task).ok().ok_or("a task")?)
}

fn par(builder: &mut TermBuilder, parts: u32) -> Result<(), Fail>
    requires { 2 ≤ parts }
{
    Ok(builder.push(Position::Par(parts)).ok().ok_or("parts")?)
}

// A task between two data items.
fn one_task(builder: &mut TermBuilder) -> Result<(), Fail> {
    hold(builder, 0)?;
    hold(builder, 1)?;
    task(builder)
}

// Tasks 1 and 2 and an item side by side, between task 3 and task 4.
fn fork(alloc: Global) -> Result<TermList, Fail> {
    let mut builder = TermBuilder::new(alloc);
    hold(&mut builder, 0)?;
    hold(&mut builder, 5)?;
    one_task(&mut builder)?;
    one_task(&mut builder)?;
    par(&mut builder, 3)?;
    task(&mut builder)?;
    hold(&mut builder, 2)?;
    task(&mut builder)?;
    Ok(builder.finish().ok().ok_or("one term")?)
}

#[test]
fn a_join_comes_last_and_the_branches_either_way(rt: HostRuntime) -> Result<(), Fail> {
    let terms = fork(rt.alloc())?;
    let TermOrders { first, second } = term_orders(rt.alloc(), &terms)?;
    assert_eq!(rt; first.as_slice(), [3, 1, 2, 4].as_slice());
    assert_eq!(rt; second.as_slice(), [3, 2, 1, 4].as_slice());
    let turned = term_order(rt.alloc(), &terms, Side::LastPart)?;
    assert_eq!(rt; turned.as_slice(), [3, 2, 1, 4].as_slice());
    Ok(())
}

#[test]
fn a_data_item_has_no_tasks(rt: HostRuntime) -> Result<(), Fail> {
    let mut builder = TermBuilder::new(rt.alloc());
    hold(&mut builder, 4)?;
    let terms = builder.finish().ok().ok_or("one term")?;
    let order = term_order(rt.alloc(), &terms, Side::FirstPart)?;
    assert!(rt; order.is_empty());
    Ok(())
}
