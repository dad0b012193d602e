//! The plan of a term: one pass over its positions, with a stack of parts.

ghost use Rattle.std.specs.Prelude.{◌≡◌, ℕ, ◌+◌, ◌*◌, ◌^◌, ◌<◌, ◌≤◌, length, IfOk, OnOk};
ghost use Rattle.std.specs.List.{range_with_len};
ghost use Rattle.mp_system.specs.Memory.{peak_of};
ghost use Rattle.mp_system.specs.Traversal.{IsTraversal, IsLeast};
ghost use Rattle.sp_terms.specs.SystemOfTerm.{task_count, system_of_term};
ghost use Rattle.sp_terms.specs.Values.{term_of};
ghost use Rattle.hill_valley.specs.Ropes.{Extends};
ghost use Rattle.cut_laws.specs.Cuts.{order_of};
ghost use Rattle.cut_laws.specs.Names.{numbered};
ghost use Rattle.cut_laws.specs.Standing.{StandsFor};
ghost use Rattle.cut_laws.specs.TermCuts.{cut_of_term};
ghost use Rattle.sp_cuts.specs.Notes.{noted_in, nothing_noted, AreNotesOf};
ghost use Rattle.sp_cuts.specs.Parts.{cut_of, IsPart};
ghost use Rattle.sp_cuts.specs.Stacks.{IsPartOf, SeriesReady, SeriesDone, SeriesSteps, ParReady, ParDone, ParSteps, PositionReady};
ghost use Rattle.sp_cuts.specs.Stacks.{PositionDone, PositionSteps};

use crate::NoMemory;
use crate::beside::put_beside;
use crate::composing::{parallel_part, put_behind, with_peak};
use crate::notes::Notes;
use crate::noting::note_position;
use crate::parts::{Part, hill_between, hold};
use hill_valley::Ropes;
use mp_system::Task;
use segment_merge::laws;
use sp_terms::{Position, TermList, laws as term_laws};
use std::alloc::Global;
use std::sync::ledger::Ledger;
use step_count::Steps;

/// A traversal of least peak, with the part of the whole term that it was read off.
#[derive(Drop)]
pub struct Planned {
    /// The tasks by their numbers, in the order in which they run.
    pub order: Vec<u32>,
    /// The greatest memory of the order, from 0 to 2^60.
    pub peak: u64,
    /// Two sides that lead down to one state of the term.
    pub part: Part,
    /// The ropes of the part.
    pub ropes: Ropes,
    /// What was used up to make it, position by position: what the claims of the plan are made of.
    pub notes: Notes,
}

/// The plan of a term: down the front of its part, and up the back. One pass over the positions, with a stack of parts. Each
/// segment that is moved from one side into another, in a series or side by side, is a step; one that is joined to another segment is
/// gone for good, and is none. Of s tasks, fewer than 2^d, it takes at most s * d steps. Where memory is wanting, what was counted stays.
pub fn plan_terms<L: Ledger>(
    alloc: Global,
    terms: &TermList,
    steps: &mut Steps<L>,
) -> Result<Planned, NoMemory>
    ensures cut { IfOk result (λ p. cut_of p.ropes p.part ≡ cut_of_term (term_of terms.now) (numbered 1 (term_of terms.now))) }
    ensures order { IfOk result (λ p. p.order.items ≡ order_of (cut_of p.ropes p.part)) }
    ensures peak { IfOk result (λ p. p.peak ≡ p.part.peak) }
    // the part stands for the whole term, whose tasks are named by their numbers
    ensures stands { IfOk result
        (λ p. StandsFor (term_of terms.now) (range_with_len 1 (task_count (term_of terms.now))) (cut_of p.ropes p.part)) }
    // the order is a traversal of the term's system with this peak
    ensures traversal { IfOk result (λ p. IsTraversal (system_of_term (term_of terms.now)) p.order.items
        × (peak_of (system_of_term (term_of terms.now)) p.order.items ≡ p.peak)) }
    // and none has a lower one
    ensures least { IfOk result (λ p. IsLeast (system_of_term (term_of terms.now)) p.peak) }
    ensures part { IfOk result (λ p. IsPart p.ropes p.part) }
    // what was noted of all positions
    ensures notes { IfOk result (λ p. AreNotesOf terms.now (length terms.now) (noted_in p.notes)) }
    ensures steps { (d : ℕ) → task_count (term_of terms.now) < 2 ^ d → steps.new ≤ steps.old + task_count (term_of terms.now) * d }
{
    laws::all();
    cut_laws::laws::stands_law();
    cut_laws::laws::number_law();
    term_laws::terms_law();
    terms.keeps();
    let mut ropes = Ropes::new(alloc);
    let mut notes = Notes::new(alloc);
    let rough = part_of(alloc, terms, &mut ropes, &mut notes, steps)?;
    let part = with_peak(rough, &ropes);
    let down = part.front.tasks(&mut ropes)?;
    let back = part.back.tasks(&mut ropes)?;
    let up = ropes.flip(back);
    let way = ropes.join(down, up)?;
    let order = ropes.list(alloc, way)?;
    Ok(Planned {
        order,
        peak: part.peak,
        part,
        ropes,
        notes,
    })
}

// The part of the term, whose peak is a bound, and the notes of all positions.
fn part_of<L: Ledger>(
    alloc: Global,
    terms: &TermList,
    ropes: &mut Ropes,
    notes: &mut Notes,
    steps: &mut Steps<L>,
) -> Result<Part, NoMemory>
    requires nothing { noted_in notes.old ≡ nothing_noted }
    ensures part { IfOk result (λ p. IsPartOf ropes.new 1 (term_of terms.now) p) }
    ensures kept { Extends ropes.old ropes.new }
    ensures notes { OnOk result (AreNotesOf terms.now (length terms.now) (noted_in notes.new)) }
    ensures steps { (d : ℕ) → task_count (term_of terms.now) < 2 ^ d → steps.new ≤ steps.old + task_count (term_of terms.now) * d }
{
    laws::all();
    let mut stack = Vec::new(alloc);
    let mut next = 1;
    for done in 0..terms.len() {
        let position = terms.at(done + 1);
        note_position(position, &stack, notes)?;
        next = push_position(alloc, position, next, &mut stack, ropes, steps)?;
    }
    match stack.pop() {
        Some(part) => Ok(part),
        None => unreachable!(),
    }
}

// One position of the term. The number of the next task is given back.
pub(crate) fn push_position<L: Ledger>(
    alloc: Global,
    position: Position,
    next: u32,
    stack: &mut Vec<Part>,
    ropes: &mut Ropes,
    steps: &mut Steps<L>,
) -> Result<u32, NoMemory>
    requires ready { PositionReady ropes.old stack.old.items position next }
    ensures done { IfOk result (λ n. PositionDone ropes.old ropes.new stack.old.items stack.new.items position next n) }
    ensures kept { Extends ropes.old ropes.new }
    ensures steps { PositionSteps ropes.old stack.old.items position steps.old steps.new }
{
    laws::all();
    match position {
        Position::Hold(size) => {
            stack.push(hold(alloc, size))?;
            Ok(next)
        }
        Position::Task { extra, share, time } => {
            push_series(stack, next, Task { extra, share, time }, ropes, steps)?;
            Ok(next + 1)
        }
        Position::Par(many) => {
            push_par(alloc, stack, many, ropes, steps)?;
            Ok(next)
        }
    }
}

// Joins the two parts on top of the stack by a task with this number.
fn push_series<L: Ledger>(
    stack: &mut Vec<Part>,
    number: u32,
    task: Task,
    ropes: &mut Ropes,
    steps: &mut Steps<L>,
) -> Result<(), NoMemory>
    requires ready { SeriesReady ropes.old stack.old.items task }
    ensures done { OnOk result (SeriesDone ropes.old ropes.new stack.old.items stack.new.items number task) }
    ensures kept { Extends ropes.old ropes.new }
    ensures steps { SeriesSteps ropes.old stack.old.items task steps.old steps.new }
{
    laws::all();
    let Some(b) = stack.pop() else { unreachable!() };
    let Some(a) = stack.last_mut() else {
        unreachable!()
    };
    let hill = hill_between(a, &task, &b);
    put_behind(a, number, hill, b, ropes, steps)?;
    Ok(())
}

// Sets the parts on top of the stack side by side.
fn push_par<L: Ledger>(
    alloc: Global,
    stack: &mut Vec<Part>,
    many: u32,
    ropes: &mut Ropes,
    steps: &mut Steps<L>,
) -> Result<(), NoMemory>
    requires ready { ParReady ropes.old stack.old.items many }
    ensures done { OnOk result (ParDone ropes.old ropes.new stack.old.items stack.new.items many) }
    ensures kept { Extends ropes.old ropes.new }
    ensures steps { ParSteps ropes.old stack.old.items many steps.old steps.new }
{
    if many == 2 {
        push_pair(stack, ropes, steps)
    } else {
        push_parts(alloc, stack, many, ropes, steps)
    }
}

// The same for two parts, the first of which stays where it is.
fn push_pair<L: Ledger>(
    stack: &mut Vec<Part>,
    ropes: &mut Ropes,
    steps: &mut Steps<L>,
) -> Result<(), NoMemory>
    requires ready { ParReady ropes.old stack.old.items 2 }
    ensures done { OnOk result (ParDone ropes.old ropes.new stack.old.items stack.new.items 2) }
    ensures kept { Extends ropes.old ropes.new }
    ensures steps { ParSteps ropes.old stack.old.items 2 steps.old steps.new }
{
    laws::all();
    let Some(b) = stack.pop() else { unreachable!() };
    let Some(a) = stack.last_mut() else {
        unreachable!()
    };
    put_beside(a, b, ropes, steps)?;
    Ok(())
}

// The same for any number of them.
fn push_parts<L: Ledger>(
    alloc: Global,
    stack: &mut Vec<Part>,
    many: u32,
    ropes: &mut Ropes,
    steps: &mut Steps<L>,
) -> Result<(), NoMemory>
    requires ready { ParReady ropes.old stack.old.items many }
    ensures done { OnOk result (ParDone ropes.old ropes.new stack.old.items stack.new.items many) }
    ensures kept { Extends ropes.old ropes.new }
    ensures steps { ParSteps ropes.old stack.old.items many steps.old steps.new }
{
    laws::all();
    let at = stack.len() - many as usize;
    let parts = stack.split_off(at)?;
    let part = parallel_part(alloc, parts, ropes, steps)?;
    stack.push(part)?;
    Ok(())
}
