//! Random workflows.

ghost use Rattle.std.specs.Prelude.{◌≡◌, ◌≤◌, ◌++◌, ◌∷◌, [], None, IfOk, OnOk};
ghost use Rattle.limits.specs.Limits.{most_tasks};
ghost use Rattle.sp_terms.specs.Builder.{IsPosition, refusal_of};
ghost use Rattle.mp_gen.specs.RandomWorkflow.{height_of, with_hold, with_data, with_task, with_par, with_one, closed, workflow_of};
ghost use Rattle.mp_gen.specs.Room.{HasRoomFor};

use crate::NoMemory;
use crate::dice::{dice_of, draw};
use rand_pcg::Pcg32;
use sp_terms::{Position, PushRefusal, TermBuilder, TermList};
use std::alloc::{AllocError, Global};

// Takes a position that fits what stands before it: nothing but want of memory keeps it out.
fn put(builder: &mut TermBuilder, position: Position) -> Result<(), NoMemory>
    requires asked { IsPosition position }
    requires fits { refusal_of builder.old position ≡ None }
    ensures { OnOk result (builder.new ≡ builder.old ++ position ∷ []) }
{
    match builder.push(position) {
        Ok(()) => Ok(()),
        Err(PushRefusal::NoMemory) => Err(AllocError),
        Err(_) => unreachable!(),
    }
}

#[tactic(auto, unfolding(crate::specs::RandomWorkflow::with_hold))]
fn put_hold(builder: &mut TermBuilder, dice: &mut Pcg32) -> Result<(), NoMemory>
    requires { HasRoomFor builder.old 1 0 1000 }
    ensures { OnOk result ((builder.new, dice.new) ≡ with_hold builder.old dice.old) }
{
    let size = 1 + u64::from(draw(dice, 1000));
    put(builder, Position::Hold(size))
}

// Two data items; none, where at least two terms stand and the word is even.
#[tactic(auto, unfolding(crate::specs::RandomWorkflow::with_data))]
fn put_data(builder: &mut TermBuilder, dice: &mut Pcg32) -> Result<(), NoMemory>
    requires { HasRoomFor builder.old 2 0 2000 }
    ensures { OnOk result ((builder.new, dice.new) ≡ with_data builder.old dice.old) }
{
    let is_even = draw(dice, 2) == 0;
    if 2 <= builder.height() && is_even {
        return Ok(());
    }
    put_hold(builder, dice)?;
    put_hold(builder, dice)
}

#[tactic(auto, unfolding(crate::specs::RandomWorkflow::with_task))]
fn put_task(builder: &mut TermBuilder, dice: &mut Pcg32) -> Result<(), NoMemory>
    requires room { HasRoomFor builder.old 1 1 1000 }
    requires two { 2 ≤ height_of builder.old }
    ensures { OnOk result ((builder.new, dice.new) ≡ with_task builder.old dice.old) }
{
    let extra = u64::from(draw(dice, 1000));
    let time = 1 + u64::from(draw(dice, 16));
    let task = Position::Task {
        extra,
        share: 0,
        time,
    };
    put(builder, task)
}

// The last two terms side by side, where at least two stand and the word is a multiple of 3.
#[tactic(auto, unfolding(crate::specs::RandomWorkflow::with_par))]
fn put_par(builder: &mut TermBuilder, dice: &mut Pcg32) -> Result<(), NoMemory>
    requires { HasRoomFor builder.old 1 0 0 }
    ensures { OnOk result ((builder.new, dice.new) ≡ with_par builder.old dice.old) }
{
    let is_third = draw(dice, 3) == 0;
    if 2 <= builder.height() && is_third {
        put(builder, Position::Par(2))?;
    }
    Ok(())
}

// The positions of one task more.
#[tactic(auto, unfolding(crate::specs::RandomWorkflow::with_one))]
fn put_one(builder: &mut TermBuilder, dice: &mut Pcg32) -> Result<(), NoMemory>
    requires { HasRoomFor builder.old 4 1 3000 }
    ensures { OnOk result ((builder.new, dice.new) ≡ with_one builder.old dice.old) }
{
    put_data(builder, dice)?;
    put_task(builder, dice)?;
    put_par(builder, dice)
}

// All terms that stand side by side, where there are at least two.
#[tactic(auto, unfolding(crate::specs::RandomWorkflow::closed))]
fn close(builder: &mut TermBuilder) -> Result<(), NoMemory>
    requires { HasRoomFor builder.old 1 0 0 }
    ensures { OnOk result (builder.new ≡ closed builder.old) }
{
    let height = builder.height();
    if 2 <= height {
        put(builder, Position::Par(height as u32))?;
    }
    Ok(())
}

/// The random workflow of a seed, of n tasks. Data sizes are 1 to 1000, extras 0 to 999, times 1 to 16, and no task has a share.
/// Linear.
pub fn gen_workflow(alloc: Global, seed: u64, n: u32) -> Result<TermList, NoMemory>
    requires some { 1 ≤ n }
    requires few { n ≤ most_tasks }
    ensures { IfOk result (λ terms. terms ≡ workflow_of seed n) }
{
    let mut dice = dice_of(seed);
    let mut builder = TermBuilder::new(alloc);
    for _i in 0..n {
        put_one(&mut builder, &mut dice)?;
    }
    close(&mut builder)?;
    match builder.finish() {
        Ok(terms) => Ok(terms),
        Err(_) => unreachable!(),
    }
}
