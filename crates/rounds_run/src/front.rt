//! The task of a front.

ghost use Rattle.std.specs.Prelude.{◌≡◌, ◌≤◌, ℕ, drop, length, IfOk};
ghost use Rattle.patterns.specs.Pattern.{has, is_joined, neighbours_of};
ghost use Rattle.permutations.specs.Perm.{IsVertex, vertex_at};
ghost use Rattle.ordering.specs.Fill.{renumbered};
ghost use Rattle.rounds_run.specs.Gathering.{is_gathered};
ghost use Rattle.rounds_run.specs.Holding.{IsJob, IsHandedBack};

use crate::NoMemory;
use crate::gathering::{add_later, add_lists};
use crate::number_lists::Inbox;
use elim_tree::laws::{no_earlier_row, path_theorem, renumbered_pattern, structure_by_children};
use patterns::Pattern;
use permutations::Perm;
use permutations::laws::places_are_inverse;
use row_table::NumberList;
use std::alloc::Global;

/// What the task of a front is given.
#[derive(Drop)]
pub struct Job {
    /// Which of its round it is, from 0.
    pub place: u32,
    /// The first column of the supernode.
    pub first: u32,
    /// How many columns the supernode has.
    pub columns: u32,
    /// How many rows the front has past these.
    pub rest: u32,
    /// What its children left to it.
    pub children: Inbox,
}

/// What the task of a front hands back.
#[derive(Drop)]
pub struct Made {
    /// The rows of the front.
    pub rows: NumberList,
    /// Those past its columns, for the parent.
    pub rest: NumberList,
}

// The column, its later neighbours, and what the lists have; a row that several have stands there as often.
fn gather(
    alloc: Global,
    pattern: &Pattern,
    perm: &Perm,
    first: u32,
    lists: &[NumberList],
) -> Result<Vec<u32>, NoMemory>
    requires perm { length perm.now ≡ length pattern.now }
    requires first { IsVertex (length perm.now) first }
    ensures { IfOk result (λ rows. (x : ℕ) → has rows.items x
        ≡ is_gathered perm.now (neighbours_of pattern.now (vertex_at perm.now first)) lists.now first x) }
{
    pattern.keeps();
    perm.keeps();
    let neighbours = pattern.neighbours(perm.at(first));
    let mut rows: Vec<u32> = Vec::new(alloc);
    rows.push(first)?;
    add_later(perm, first, neighbours, &mut rows)?;
    add_lists(lists, &mut rows)?;
    Ok(rows)
}

// The rows past so many.
fn rest_of(alloc: Global, rows: &[u32], columns: u32) -> Result<Vec<u32>, NoMemory>
    requires { columns ≤ length rows.now }
    ensures { IfOk result (λ rest. rest.items ≡ drop columns rows.now) }
{
    Vec::from_slice(alloc, &rows[columns as usize..])
}

/// The rows of a front: its first column, the later neighbours of that, and the rows that its children left to it, each once. Near linear
/// in what these hold: they are sorted.
pub fn make_front(
    alloc: Global,
    pattern: &Pattern,
    perm: &Perm,
    job: &Job,
) -> Result<Made, NoMemory>
    requires perm { length perm.now ≡ length pattern.now }
    requires job { IsJob (renumbered (is_joined pattern.now) perm.now) (length perm.now) job.now }
    ensures { IfOk result
        (IsHandedBack (renumbered (is_joined pattern.now) perm.now) (length perm.now) job.now.first job.now.columns) }
{
    structure_by_children();
    path_theorem();
    no_earlier_row();
    renumbered_pattern();
    places_are_inverse();
    pattern.keeps();
    perm.keeps();
    let mut rows = gather(alloc, pattern, perm, job.first, job.children.as_slice())?;
    rows.sort_unstable();
    rows.dedup();
    let rest = rest_of(alloc, &rows, job.columns)?;
    Ok(Made {
        rows: NumberList::new(rows),
        rest: NumberList::new(rest),
    })
}
