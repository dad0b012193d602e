//! One function for each line of a tree file: its tests in the order of the format's table.

ghost use Rattle.std.specs.Prelude.{◌≡◌, ◌≤◌, ◌+◌, false, Some, None, IfOk, IfErr};
ghost use Rattle.limits.specs.Limits.{most_tasks, most_total};
ghost use Rattle.mp_text.specs.Ahead.{row};
ghost use Rattle.mp_text.specs.Reading.{Gives, tested};
ghost use Rattle.tree_files.specs.Reader.{refusal_without_fields};
ghost use Rattle.tree_files.specs.TreeFile.{node_count_tests, node_count, fields_stated, node_tests, node_of};
ghost use Rattle.file_frame.specs.Frame.{is_end};

use crate::fields::{NodeFields, fields_on};
use crate::kind::TreeKind;
use file_frame::{Version, is_word, number_on};
use limits::{LimitName, MOST_SIZE, MOST_TASKS, MOST_TIME, MOST_TOTAL};
use mp_text::{Line, Refusal, fault};
use trees::Node;

/// Line 2: the number of nodes.
pub fn node_count_on(line: Line<'_>) -> Result<u64, Refusal<TreeKind>>
    ensures judged { let r = row line.entry.number line.entry.text.now in Gives (tested (node_count_tests r) (node_count r)) result }
    ensures few { IfOk result (λ n. n ≤ most_tasks) }
{
    let count = number_on(line, b"nodes", TreeKind::Header, TreeKind::Number)?;
    if count == 0 {
        return Err(fault(line.number, TreeKind::Count));
    }
    if count > MOST_TASKS {
        return Err(Refusal::Limit(LimitName::Tasks));
    }
    Ok(count)
}

// The fields of a node line. A line that has none is the end, or its words are not as many numbers.
fn node_fields(version: Version, line: Line<'_>) -> Result<NodeFields, Refusal<TreeKind>>
    ensures read { let r = row line.entry.number line.entry.text.now in
        IfOk result (λ f. (fields_stated version r ≡ Some f) × (is_end r ≡ false)) }
    ensures refused { let r = row line.entry.number line.entry.text.now in
        IfErr result (λ e. (fields_stated version r ≡ None) × (e ≡ refusal_without_fields r)) }
{
    if let Some(fields) = fields_on(version, line.text) {
        return Ok(fields);
    }
    if is_word(line.text, b"end") {
        return Err(fault(line.number, TreeKind::Count));
    }
    Err(fault(line.number, TreeKind::Number))
}

/// A node line, after node lines whose sizes sum to the total.
pub fn node_on(
    version: Version,
    count: u64,
    total: u64,
    line: Line<'_>,
) -> Result<Node, Refusal<TreeKind>>
    requires few { count ≤ most_tasks }
    requires small { total ≤ most_total }
    ensures judged { let r = row line.entry.number line.entry.text.now in
        Gives (tested (node_tests version count total r) (node_of version r)) result }
    ensures sizes { IfOk result (λ n. total + (n.out + n.extra) ≤ most_total) }
{
    let fields = node_fields(version, line)?;
    if fields.time == 0 {
        return Err(fault(line.number, TreeKind::Number));
    }
    if fields.parent > count {
        return Err(fault(line.number, TreeKind::Parent));
    }
    if fields.out > MOST_SIZE || fields.extra > MOST_SIZE {
        return Err(Refusal::Limit(LimitName::Size));
    }
    if fields.time > MOST_TIME {
        return Err(Refusal::Limit(LimitName::Time));
    }
    if total + fields.out + fields.extra > MOST_TOTAL {
        return Err(Refusal::Limit(LimitName::Total));
    }
    Ok(Node {
        parent: fields.parent as u32,
        out: fields.out,
        extra: fields.extra,
        share: fields.share,
        time: fields.time,
    })
}
