//! Marks of the tasks that are done, and what they tell of items.

ghost use Rattle.std.specs.Prelude.{◌≡◌, ◌<◌, true, length};
ghost use Rattle.std.specs.List.{list_all, list_any};
ghost use Rattle.mp_system.specs.Memory.{is_done_or};
ghost use Rattle.mp_system.specs.Replay.{is_marked};
ghost use Rattle.shared_systems.specs.Shared.{shared_item_at};
ghost use Rattle.shared_systems.specs.SharedMemory.{is_held};
ghost use Rattle.state_search.specs.Views.{is_gone};

use shared_systems::SharedItems;

/// Whether a task is marked.
pub fn is_marked(marks: &[bool], task: u32) -> bool
    ensures { result ≡ is_marked marks.now task }
{
    task != 0 && marks.get(task as usize - 1).copied().unwrap_or(false)
}

/// Whether any task is marked.
pub fn is_any_marked(marks: &[bool]) -> bool
    ensures { result ≡ list_any (λ mark. mark) marks.now }
{
    marks.iter().any(|mark| *mark)
}

// Whether all these tasks are done.
fn are_done(marks: &[bool], tasks: &[u32]) -> bool
    ensures { result ≡ list_all (is_marked marks.now) tasks.now }
{
    tasks.iter().all(|task| is_marked(marks, *task))
}

/// Whether one of these tasks is done.
pub fn is_any_done(marks: &[bool], tasks: &[u32]) -> bool
    ensures { result ≡ list_any (is_marked marks.now) tasks.now }
{
    tasks.iter().any(|task| is_marked(marks, *task))
}

// Whether what this task makes is made; without a task it is there from the start.
fn is_made(marks: &[bool], producer: Option<u32>) -> bool
    ensures { result ≡ is_done_or true (is_marked marks.now) producer }
{
    match producer {
        None => true,
        Some(task) => is_marked(marks, task),
    }
}

/// Whether the item at a place is held.
pub fn is_held(items: &SharedItems, i: usize, marks: &[bool]) -> bool
    requires { i < length items.now }
    ensures { result ≡ is_held (is_marked marks.now) (shared_item_at items.now i) }
{
    let readers = items.readers(i);
    let made = is_made(marks, items.producer(i));
    made && (readers.is_empty() || !are_done(marks, readers))
}

/// Whether the item at a place is made, and all its readers are done.
pub fn is_gone(items: &SharedItems, i: usize, marks: &[bool]) -> bool
    requires { i < length items.now }
    ensures { result ≡ is_gone marks.now (shared_item_at items.now i) }
{
    let readers = items.readers(i);
    let made = is_made(marks, items.producer(i));
    made && (!readers.is_empty() && are_done(marks, readers))
}
