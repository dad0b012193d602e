//! `spill` of a task graph: what goes to disk in the gaps between the uses of its items.

ghost use Rattle.std.specs.Prelude.{◌≡◌, ◌+◌, ◌<◌, ◌++◌, ◌^◌, OnOk, IfOk, IsTrue, length, map};
ghost use Rattle.mp_text.specs.Report.{is_line_start, line_text, text_of_lines};
ghost use Rattle.shared_systems.specs.Shared.{shared_item_at};
ghost use Rattle.spill_plan.specs.Gaps.{gaps_of, gaps_of_item};
ghost use Rattle.reports.specs.SpilledGaps.{IsGapAnswer, gap_answer, gap_line, gap_names, name_of_gap, spilled_gaps};
ghost use Rattle.judging.specs.Pages.{answer_of};

use crate::commands::spill::{spilled_count, working_set_page};
use judging::{Page, PageKind, order_page, print_count, print_end};
use mp_text::Report;
use mp_text::Token::Number;
use mp_text::laws::printed_lines;
use shared_systems::{SharedItems, SharedSystem};
use spill_plan::{Spill, SpillRefusal, spill_gaps};
use std::alloc::{AllocError, Global};

/// A gap in which an item waits for a reader: the item's number, from 1, and the reader, or 0 where no task reads it.
#[derive(Clone, Copy)]
pub struct GapName {
    pub item: u32,
    pub reader: u32,
}

// The gaps of an item.
fn push_names(items: &SharedItems, i: usize, names: &mut Vec<GapName>) -> Result<(), AllocError>
    requires { (i < length items.now) × (i + 1 < 2 ^ 32) }
    ensures { OnOk result (names.new.items ≡ names.old.items ++ map (name_of_gap (i + 1)) (gaps_of_item (shared_item_at items.now i))) }
{
    let item = i as u32 + 1;
    let readers = items.readers(i);
    if readers.is_empty() {
        names.push(GapName { item, reader: 0 })?;
        return Ok(());
    }
    for reader in readers {
        let reader = *reader;
        names.push(GapName { item, reader })?;
    }
    Ok(())
}

// The gaps of all items.
fn names_of(alloc: Global, system: &SharedSystem) -> Result<Vec<GapName>, AllocError>
    ensures { IfOk result (λ names. names.items ≡ gap_names 1 system.now.items) }
{
    let items = system.items();
    let mut names = Vec::new(alloc);
    for i in 0..items.len() {
        push_names(items, i, &mut names)?;
    }
    Ok(names)
}

// `ITEM READER AMOUNT`
fn print_gap(gap: GapName, amount: u64, report: &mut Report) -> Result<(), AllocError>
    requires { IsTrue (is_line_start report.old) }
    ensures start { OnOk result (IsTrue (is_line_start report.new)) }
    ensures text { OnOk result (report.new ≡ report.old ++ line_text (gap_line (gap, amount))) }
{
    let item = Number(u64::from(gap.item));
    let reader = Number(u64::from(gap.reader));
    report.line(&[item, reader, Number(amount)])
}

// A line for each gap in which some is spilled.
fn print_gaps(names: &[GapName], amounts: &[u64], report: &mut Report) -> Result<(), AllocError>
    requires start { IsTrue (is_line_start report.old) }
    requires len { length amounts.now ≡ length names.now }
    ensures start { OnOk result (IsTrue (is_line_start report.new)) }
    ensures text { OnOk result (report.new ≡ report.old ++ text_of_lines (map gap_line (spilled_gaps names.now amounts.now))) }
{
    printed_lines();
    for (place, amount) in amounts.iter().enumerate() {
        if *amount > 0 {
            print_gap(names[place], *amount, report)?;
        }
    }
    Ok(())
}

// `volume V`, `gaps K`, the gaps, `end`
fn gaps_page(alloc: Global, system: &SharedSystem, spill: &Spill) -> Result<Page, AllocError>
    requires { length spill.now.amounts.items ≡ length (gaps_of system.now) }
    ensures { IfOk result (λ page. answer_of page ≡ gap_answer system.now spill.now.volume spill.now.amounts.items) }
{
    printed_lines();
    let names = names_of(alloc, system)?;
    let mut report = Report::new(alloc);
    print_count("volume", spill.volume, &mut report)?;
    print_count("gaps", spilled_count(&spill.amounts), &mut report)?;
    print_gaps(&names, &spill.amounts, &mut report)?;
    print_end(&mut report)?;
    let kind = PageKind::Done;
    Ok(Page { kind, report })
}

/// What goes to disk, or why the order cannot run within the bound.
pub fn gap_page(
    alloc: Global,
    system: &SharedSystem,
    order: &[u32],
    bound: u64,
) -> Result<Page, AllocError>
    ensures { IfOk result (λ page. IsGapAnswer system.now order.now bound (answer_of page)) }
{
    match spill_gaps(alloc, system, order, bound) {
        Ok(spill) => gaps_page(alloc, system, &spill),
        Err(SpillRefusal::Order(fault)) => order_page(alloc, fault),
        Err(SpillRefusal::WorkingSet { step, need, bound }) => {
            working_set_page(alloc, step, need, bound)
        }
        Err(SpillRefusal::NoMemory) => Err(AllocError),
    }
}
