//! The lines of items: their tests in the order of the format's table.

ghost use Rattle.std.specs.Prelude.{◌≡◌, ◌≤◌, ◌+◌, IfOk, OnOk, OnErr, MatchOption, None};
ghost use Rattle.std.specs.List.{sum_by};
ghost use Rattle.limits.specs.Limits.{most_tasks, most_total, most_uses};
ghost use Rattle.mp_text.specs.Ahead.{row};
ghost use Rattle.mp_text.specs.Text.{tokens_of, numbers_of};
ghost use Rattle.mp_text.specs.Reading.{Gives, Steps, tested};
ghost use Rattle.shared_graph_files.specs.SharedGraphFile.{item_count_tests, items_stated, item_of_numbers, item_tests, item_on_row};
ghost use Rattle.shared_graph_files.specs.Reader.{AreTaken, IsTaken, is_next, uses_so_far, with_item_on};

use crate::NoMemory;
use file_frame::count_on;
use graph_files::GraphKind;
use limits::{LimitName, MOST_POSITIONS, MOST_SIZE, MOST_TOTAL, MOST_USES};
use mp_text::{Line, Refusal, Tokens, fault, number, tokens};
use shared_systems::GrowingItems;

/// `items M`: the number of items.
pub fn item_count_on(line: Line<'_>) -> Result<u64, Refusal<GraphKind>>
    ensures { let r = row line.entry.number line.entry.text.now in
        Gives (tested (item_count_tests r) (items_stated r)) result }
{
    count_on(
        line,
        b"items",
        GraphKind::Section,
        GraphKind::Number,
        MOST_POSITIONS,
        LimitName::Positions,
    )
}

// Whether a reader is a task other than the producer, and greater than the one before it.
fn is_next(count: u64, from: u64, last: u64, reader: u64) -> bool
    ensures { result ≡ is_next count from last reader }
{
    last < reader && reader <= count && reader != from
}

// Takes the readers of an item of a system of so many tasks; whether all are fit. None where a word is no number.
fn take_readers(
    mut words: Tokens<'_>,
    count: u64,
    from: u64,
    items: &mut GrowingItems,
) -> Result<Option<bool>, NoMemory>
    requires { count ≤ most_tasks }
    ensures { IfOk result (λ taken.
        MatchOption taken (numbers_of words.entry ≡ None) (AreTaken count from words.entry items.old items.new)) }
{
    let mut last = 0;
    let mut fit = true;
    while let Some(word) = words.next() {
        let Some(reader) = number(word) else {
            return Ok(None);
        };
        fit = fit && is_next(count, from, last, reader);
        if fit {
            items.push_reader(reader as u32)?;
        }
        last = reader;
    }
    Ok(Some(fit))
}

// What an item line says before its readers, and whether producer and readers are fit.
#[derive(Clone, Copy)]
struct ItemFields {
    size: u64,
    from: u64,
    fit: bool,
}

// Takes the words of an item line of a system of so many tasks; its readers wait where they are fit. None where the words are no item.
fn take_item(
    count: u64,
    text: &[u8],
    items: &mut GrowingItems,
) -> Result<Option<ItemFields>, NoMemory>
    requires { count ≤ most_tasks }
    ensures { IfOk result (λ taken.
        MatchOption taken
        (item_of_numbers (numbers_of (tokens_of text.now)) ≡ None)
        (λ f. IsTaken count (tokens_of text.now) items.old items.new f.size f.from f.fit)) }
{
    let mut words = tokens(text);
    let Some(size) = words.next_number() else {
        return Ok(None);
    };
    let Some(from) = words.next_number() else {
        return Ok(None);
    };
    match take_readers(words, count, from, items)? {
        Some(fit) => Ok(Some(ItemFields {
            size,
            from,
            fit: from <= count && fit,
        })),
        None => Ok(None),
    }
}

/// An item line of a system of so many tasks, after lines whose extras and sizes sum to the total: puts the item behind those so far, and
/// gives its size.
pub fn item_on(
    count: u64,
    total: u64,
    line: Line<'_>,
    items: &mut GrowingItems,
) -> Result<u64, Refusal<GraphKind>>
    requires few { count ≤ most_tasks }
    requires small { total ≤ most_total }
    ensures judged { let r = row line.entry.number line.entry.text.now in
        Steps (tested (item_tests count total (uses_so_far items.old) r) (with_item_on items.old (item_on_row r))) result items.new }
    ensures size { IfOk result (λ size.
        (size ≡ (item_on_row (row line.entry.number line.entry.text.now)).size) × (total + size ≤ most_total)) }
{
    let fields = take_item(count, line.text, items)?.ok_or(fault(line.number, GraphKind::Number))?;
    if !fields.fit {
        return Err(fault(line.number, GraphKind::Item));
    }
    if fields.size > MOST_SIZE {
        return Err(Refusal::Limit(LimitName::Size));
    }
    if total + fields.size > MOST_TOTAL {
        return Err(Refusal::Limit(LimitName::Total));
    }
    if items.uses() as u64 > MOST_USES {
        return Err(Refusal::Limit(LimitName::Uses));
    }
    items.push_item(fields.size, fields.from as u32)?;
    Ok(fields.size)
}
