//! Printing of systems as graph files of version 2, line by line.

ghost use Rattle.std.specs.Prelude.{◌≡◌, ◌∷◌, ◌<◌, ◌++◌, map, length, take, decimal, IsTrue, OnOk, OnErr};
ghost use Rattle.mp_text.specs.Report.{is_line_start, line_text, text_of_lines};
ghost use Rattle.shared_systems.specs.Shared.{SharedItem, shared_item_at};
ghost use Rattle.shared_graph_files.specs.SharedGraphText.{task_line, item_line, graph_text_2};

use crate::NoMemory;
use file_frame::{Version, print_end, print_header, print_section};
use mp_system::Task;
use mp_text::laws::{printed_line, printed_lines};
use mp_text::{Report, Token};
use shared_systems::{SharedItems, SharedSystem};

fn print_task(task: &Task, report: &mut Report) -> Result<(), NoMemory>
    requires { IsTrue (is_line_start report.old) }
    ensures ok { OnOk result (report.new ≡ report.old ++ line_text (task_line task.now)) }
    ensures start { OnOk result (IsTrue (is_line_start report.new)) }
    ensures err { OnErr result (report.new ≡ report.old) }
{
    let extra = Token::Number(task.extra);
    let share = Token::Number(task.share);
    report.line(&[extra, share, Token::Number(task.time)])
}

fn print_tasks(tasks: &[Task], report: &mut Report) -> Result<(), NoMemory>
    requires { IsTrue (is_line_start report.old) }
    ensures ok { OnOk result (report.new ≡ report.old ++ text_of_lines (map task_line tasks.now)) }
    ensures start { OnOk result (IsTrue (is_line_start report.new)) }
    ensures err { OnErr result (take (length report.old) report.new ≡ report.old) }
{
    printed_lines();
    for task in tasks {
        print_task(task, report)?;
    }
    Ok(())
}

// Numbers on one line: an item's size and producer, and then its readers.
fn print_numbers(size: u64, from: u32, readers: &[u32], report: &mut Report) -> Result<(), NoMemory>
    requires { IsTrue (is_line_start report.old) }
    ensures ok { OnOk result (report.new ≡ report.old ++ line_text (map decimal (size ∷ from ∷ readers.now))) }
    ensures start { OnOk result (IsTrue (is_line_start report.new)) }
    ensures err { OnErr result (take (length report.old) report.new ≡ report.old) }
{
    printed_line();
    report.num(size)?;
    report.num(u64::from(from))?;
    for reader in readers {
        report.num(u64::from(*reader))?;
    }
    report.end_line()
}

fn print_item(items: &SharedItems, i: usize, report: &mut Report) -> Result<(), NoMemory>
    requires place { i < length items.now }
    requires start { IsTrue (is_line_start report.old) }
    ensures ok { OnOk result (report.new ≡ report.old ++ line_text (item_line (shared_item_at items.now i))) }
    ensures start { OnOk result (IsTrue (is_line_start report.new)) }
    ensures err { OnErr result (take (length report.old) report.new ≡ report.old) }
{
    let from = items.producer(i).unwrap_or(0);
    print_numbers(items.size(i), from, items.readers(i), report)
}

fn print_items(items: &SharedItems, report: &mut Report) -> Result<(), NoMemory>
    requires { IsTrue (is_line_start report.old) }
    ensures ok { OnOk result (report.new ≡ report.old ++ text_of_lines (map item_line items.now)) }
    ensures start { OnOk result (IsTrue (is_line_start report.new)) }
    ensures err { OnErr result (take (length report.old) report.new ≡ report.old) }
{
    printed_lines();
    for i in 0..items.len() {
        print_item(items, i, report)?;
    }
    Ok(())
}

fn print_lines(tasks: &[Task], items: &SharedItems, report: &mut Report) -> Result<(), NoMemory>
    requires { IsTrue (is_line_start report.old) }
    ensures ok { OnOk result (report.new ≡ report.old ++ graph_text_2 (record { tasks = tasks.now; items = items.now })) }
    ensures err { OnErr result (take (length report.old) report.new ≡ report.old) }
{
    print_header("graph", Version::Two, report)?;
    print_section("tasks", tasks.len() as u64, report)?;
    print_tasks(tasks, report)?;
    print_section("items", items.len() as u64, report)?;
    print_items(items, report)?;
    print_end(report)
}

/// Appends the lines of a graph file of version 2. Linear in the tasks, the items and the readers of all items.
pub fn print_shared_graph(system: &SharedSystem, report: &mut Report) -> Result<(), NoMemory>
    requires { IsTrue (is_line_start report.old) }
    ensures ok { OnOk result (report.new ≡ report.old ++ graph_text_2 system.now) }
    ensures err { OnErr result (report.new ≡ report.old) }
{
    let start = report.len();
    let printed = print_lines(system.tasks(), system.items(), report);
    if printed.is_err() {
        report.cut(start);
    }
    printed
}
