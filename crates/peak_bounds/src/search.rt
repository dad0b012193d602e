//! What is reached over links, from some tasks on.

ghost use Rattle.std.specs.Prelude.{◌≡◌, ◌+◌, ◌<◌, ◌≤◌, ◌&&◌, ◌||◌, not, true, ℕ, All, IfOk, OnOk, length, take};
ghost use Rattle.mp_system.specs.Memory.{stands_in};
ghost use Rattle.mp_system.specs.Replay.{is_marked};
ghost use Rattle.graphs.specs.Graph.{IsAmong};
ghost use Rattle.peak_bounds.specs.Judging.{AreLinks, AreReached, leads, unmarked};

use crate::NoMemory;
use row_table::RowTable;

// Marks what the links at these places lead to, and puts what was not marked at the end of the work.
fn spread_from(
    places: &[u32],
    far: &[u32],
    marks: &mut [bool],
    work: &mut Vec<u32>,
) -> Result<(), NoMemory>
    requires places { All (λ k. k < length far.now) places.now }
    requires far { All (λ v. v ≤ length marks.old) far.now }
    requires tasks { All (IsAmong (length marks.old)) work.old.items }
    ensures tasks { OnOk result (All (IsAmong (length marks.old)) work.new.items) }
    ensures begins { OnOk result (take (length work.old.items) work.new.items ≡ work.old.items) }
    ensures marks { OnOk result ((v : ℕ) → 1 ≤ v → is_marked marks.new v ≡ (is_marked marks.old v || leads far.now places.now v)) }
    ensures work { OnOk result ((v : ℕ) → 1 ≤ v →
        stands_in work.new.items v ≡ (stands_in work.old.items v || (not (is_marked marks.old v) && leads far.now places.now v))) }
    ensures left { OnOk result (unmarked marks.new + length work.new.items ≡ unmarked marks.old + length work.old.items) }
{
    for place in places {
        let task = far[*place as usize];
        if task != 0 && !marks[task as usize - 1] {
            marks[task as usize - 1] = true;
            work.push(task)?;
        }
    }
    Ok(())
}

/// Marks what is reached from the tasks of the work. The links stand in rows by the tasks that they lead from. Linear in the tasks and
/// links.
pub fn spread(
    near: &[u32],
    far: &[u32],
    rows: &RowTable,
    marks: &mut [bool],
    work: &mut Vec<u32>,
) -> Result<(), NoMemory>
    requires links { AreLinks (length marks.old) near.now far.now rows.now }
    requires tasks { All (IsAmong (length marks.old)) work.old.items }
    requires listed { (v : ℕ) → is_marked marks.old v ≡ true → stands_in work.old.items v ≡ true }
    ensures { OnOk result (AreReached near.now far.now marks.old work.old.items marks.new) }
{
    let _ = near;
    let mut next = 0;
    while next < work.len() {
        spread_from(rows.row(work[next]), far, marks, work)?;
        next += 1;
    }
    Ok(())
}
