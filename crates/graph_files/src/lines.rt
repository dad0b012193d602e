//! The lines that only a graph file has: their tests in the order of the format's table.

ghost use Rattle.std.specs.Prelude.{◌≡◌, ◌≤◌, ◌+◌, IfOk};
ghost use Rattle.limits.specs.Limits.{most_tasks, most_total};
ghost use Rattle.mp_text.specs.Ahead.{row};
ghost use Rattle.mp_text.specs.Reading.{Gives, tested};
ghost use Rattle.graph_files.specs.GraphFile.{task_count_tests, tasks_stated, arc_count_tests, arcs_stated, task_tests, task_on_row};
ghost use Rattle.graph_files.specs.GraphFile.{arc_tests, arc_of};

use crate::fields::{arc_on_line, task_on_line};
use crate::kind::GraphKind;
use file_frame::count_on;
use graphs::Arc;
use limits::{LimitName, MOST_ARCS, MOST_SIZE, MOST_TASKS, MOST_TIME, MOST_TOTAL};
use mp_system::Task;
use mp_text::{Line, Refusal, fault};

/// `tasks N`: the number of tasks.
pub fn task_count_on(line: Line<'_>) -> Result<u64, Refusal<GraphKind>>
    ensures judged { let r = row line.entry.number line.entry.text.now in
        Gives (tested (task_count_tests r) (tasks_stated r)) result }
    ensures few { IfOk result (λ n. n ≤ most_tasks) }
{
    count_on(
        line,
        b"tasks",
        GraphKind::Section,
        GraphKind::Number,
        MOST_TASKS,
        LimitName::Tasks,
    )
}

/// `arcs M`: the number of arcs.
pub fn arc_count_on(line: Line<'_>) -> Result<u64, Refusal<GraphKind>>
    ensures { let r = row line.entry.number line.entry.text.now in
        Gives (tested (arc_count_tests r) (arcs_stated r)) result }
{
    count_on(
        line,
        b"arcs",
        GraphKind::Section,
        GraphKind::Number,
        MOST_ARCS,
        LimitName::Arcs,
    )
}

/// A task line, after task lines whose extras sum to the total.
pub fn task_on(total: u64, line: Line<'_>) -> Result<Task, Refusal<GraphKind>>
    requires { total ≤ most_total }
    ensures judged { let r = row line.entry.number line.entry.text.now in
        Gives (tested (task_tests total r) (task_on_row r)) result }
    ensures sizes { IfOk result (λ task. total + task.extra ≤ most_total) }
{
    let task = task_on_line(line.text).ok_or(fault(line.number, GraphKind::Number))?;
    if task.time == 0 {
        return Err(fault(line.number, GraphKind::Number));
    }
    if task.extra > MOST_SIZE {
        return Err(Refusal::Limit(LimitName::Size));
    }
    if task.time > MOST_TIME {
        return Err(Refusal::Limit(LimitName::Time));
    }
    if total + task.extra > MOST_TOTAL {
        return Err(Refusal::Limit(LimitName::Total));
    }
    Ok(task)
}

/// An arc line of a graph of so many tasks, after lines whose extras and sizes sum to the total.
pub fn arc_on(count: u64, total: u64, line: Line<'_>) -> Result<Arc, Refusal<GraphKind>>
    requires few { count ≤ most_tasks }
    requires small { total ≤ most_total }
    ensures judged { let r = row line.entry.number line.entry.text.now in
        Gives (tested (arc_tests count total r) (arc_of r)) result }
    ensures sizes { IfOk result (λ arc. total + arc.size ≤ most_total) }
{
    let fields = arc_on_line(line.text).ok_or(fault(line.number, GraphKind::Number))?;
    let within = fields.from <= count && fields.to <= count;
    if !within || (fields.from == fields.to && fields.from != 0) {
        return Err(fault(line.number, GraphKind::Arc));
    }
    if fields.size > MOST_SIZE {
        return Err(Refusal::Limit(LimitName::Size));
    }
    if total + fields.size > MOST_TOTAL {
        return Err(Refusal::Limit(LimitName::Total));
    }
    Ok(Arc {
        from: fields.from as u32,
        to: fields.to as u32,
        size: fields.size,
    })
}
