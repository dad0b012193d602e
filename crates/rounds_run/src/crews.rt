//! The fronts of a round, made by as many threads as pay.

ghost use Rattle.std.specs.Prelude.{◌≡◌, ◌<◌, All, length, IfOk};
ghost use Rattle.patterns.specs.Pattern.{is_joined};
ghost use Rattle.ordering.specs.Fill.{renumbered};
ghost use Rattle.rounds_run.specs.Holding.{IsJob, AreHandedBack};

use crate::NoMemory;
use crate::front::{Job, Made, make_front};
use mp_outside::Gate;
use patterns::Pattern;
use permutations::Perm;
use std::alloc::Global;
use std::thread;
use std::thread::Threads;

// So many threads a run starts however little they have to do, so that the fronts of a small matrix are made at the same time. They cost
// a millisecond or two.
const FREE_STARTS: usize = 8;

// More crews than this a round does not have: few machines have more processors to spare.
const MOST_CREWS: usize = 16;

// So many rows are worth a thread. To start one takes 20 to 300 microseconds, by what else the machine does; to make them takes 700.
const ROWS_FOR_A_CREW: u64 = 32_768;

/// What a run may still start however little there is to do.
#[derive(Drop)]
pub struct Starts {
    free: usize,
}

impl Starts {
    /// Nothing is started yet.
    pub fn new() -> Starts {
        Starts { free: FREE_STARTS }
    }

    /// In how many crews the fronts of a round are made, each crew by a thread: every front alone while that costs no more than the starts
    /// that are free; else as many crews as their rows are worth.
    pub fn crews_for(&mut self, jobs: &[Job]) -> usize {
        let others = jobs.len().saturating_sub(1);
        if others <= self.free {
            self.free -= others;
            return jobs.len();
        }
        crews_worth(jobs).min(jobs.len())
    }
}

// As many crews as the rows of these fronts are worth.
fn crews_worth(jobs: &[Job]) -> usize {
    let mut rows: u64 = 0;
    for job in jobs {
        rows = rows.saturating_add(u64::from(job.columns) + u64::from(job.rest));
    }
    (rows / ROWS_FOR_A_CREW).min(MOST_CREWS as u64) as usize
}

// The fronts one after another. Each calls the gate before it is made.
fn make_in_turn<G: Gate>(
    alloc: Global,
    pattern: &Pattern,
    perm: &Perm,
    jobs: &[Job],
    gate: &G,
) -> Result<Vec<Made>, NoMemory>
    requires perm { length perm.now ≡ length pattern.now }
    requires jobs { All (IsJob (renumbered (is_joined pattern.now) perm.now) (length perm.now)) jobs.now }
    ensures { IfOk result (λ made.
        AreHandedBack (renumbered (is_joined pattern.now) perm.now) (length perm.now) jobs.now made.items) }
{
    let mut made = Vec::with_capacity(alloc, jobs.len())?;
    for job in jobs {
        gate.enter(job.place);
        let front = make_front(alloc, pattern, perm, job)?;
        made.push(front)?;
    }
    Ok(made)
}

// The fronts by crews of so many neighbours, each crew by a thread of its own.
fn make_side_by_side<R: Threads + Sync, G: Gate>(
    rt: &R,
    alloc: Global,
    pattern: &Pattern,
    perm: &Perm,
    jobs: &[Job],
    size: usize,
    gate: &G,
) -> Result<Vec<Made>, NoMemory>
    requires perm { length perm.now ≡ length pattern.now }
    requires jobs { All (IsJob (renumbered (is_joined pattern.now) perm.now) (length perm.now)) jobs.now }
    requires size { 0 < size }
    ensures { IfOk result (λ made.
        AreHandedBack (renumbered (is_joined pattern.now) perm.now) (length perm.now) jobs.now made.items) }
{
    let crews = thread::map_chunks(
        rt,
        alloc,
        jobs,
        size,
        &|_start: usize, crew: &[Job]| -> Result<Vec<Made>, NoMemory>
            requires { (length perm.now ≡ length pattern.now)
                × All (IsJob (renumbered (is_joined pattern.now) perm.now) (length perm.now)) crew.now }
            ensures { IfOk result (λ made. AreHandedBack (renumbered (is_joined pattern.entry.now) perm.entry.now)
                (length perm.entry.now) crew.now made.items) }
        { make_in_turn(alloc, pattern, perm, crew, gate) },
    )?;
    let mut made = Vec::with_capacity(alloc, jobs.len())?;
    for crew in crews {
        let mut fronts = crew?;
        made.append(&mut fronts)?;
    }
    Ok(made)
}

/// The fronts of a round by so many crews, each crew by a thread. A single one works in this thread.
pub fn make_round<R: Threads + Sync, G: Gate>(
    rt: &R,
    alloc: Global,
    pattern: &Pattern,
    perm: &Perm,
    jobs: &[Job],
    crews: usize,
    gate: &G,
) -> Result<Vec<Made>, NoMemory>
    requires perm { length perm.now ≡ length pattern.now }
    requires jobs { All (IsJob (renumbered (is_joined pattern.now) perm.now) (length perm.now)) jobs.now }
    ensures { IfOk result (λ made.
        AreHandedBack (renumbered (is_joined pattern.now) perm.now) (length perm.now) jobs.now made.items) }
{
    if crews < 2 {
        return make_in_turn(alloc, pattern, perm, jobs, gate);
    }
    let size = jobs.len().div_ceil(crews).max(1);
    make_side_by_side(rt, alloc, pattern, perm, jobs, size, gate)
}
