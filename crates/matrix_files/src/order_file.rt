ghost use Rattle.std.specs.Prelude.{◌≡◌, MatchResult};
ghost use Rattle.mp_text.specs.Ahead.{row};
ghost use Rattle.mp_text.specs.Reading.{Steps, steps_of_all};
ghost use Rattle.matrix_files.specs.OrderKinds.{order_file_word};
ghost use Rattle.matrix_files.specs.OrderFile.{order_format, ReadsOrder, IsOrderFileRefusal};
ghost use Rattle.matrix_files.specs.OrderReader.{OrderState, no_order, number_step, listed_step, numbers_step, start_step, list_step};
ghost use Rattle.matrix_files.specs.OrderReader.{order_step, order_end, took_order};

use crate::order_lines::{count_on, is_end, is_report, peak_on};
use crate::stage::OrderStage;
use limits::{LimitName, MOST_TASKS};
use mp_text::{Kind, Layout, Line, Reader, Refusal, fault, number, read_with, tokens};
use std::alloc::Global;
use std::fmt::{self, Display, Formatter, Write};
use std::marker::Model;

/// What is wrong with an order file.
#[derive(Clone, Copy, Debug, PartialEq, Eq)]
pub enum OrderFileKind {
    /// A token is no number, or one of 2^32 or more.
    Number = 1,
    /// A report does not begin with `peak P` and `order N`.
    Header,
    /// A report has more or fewer numbers than it states before its `end`, or a line after that.
    Count,
    /// A report ends before its `end`.
    NoEnd,
}

impl Kind for OrderFileKind {
    ghost word_of = { order_file_word };

    fn word(self) -> &'static str {
        match self {
            OrderFileKind::Number => "number",
            OrderFileKind::Header => "header",
            OrderFileKind::Count => "count",
            OrderFileKind::NoEnd => "no-end",
        }
    }
}

impl Display for OrderFileKind {
    fn fmt<W: Write>(&self, f: &mut Formatter<W>) -> fmt::Result {
        f.write_str(self.word())
    }
}

/// What the lines of an order file stated so far.
#[derive(Drop)]
struct OrderReader {
    stage: OrderStage,
    count: u64,
    numbers: Vec<u32>,
}

impl Model for OrderReader {
    ghost Value = { OrderState };

    ghost view = { λ s. record { stage = s.stage; count = s.count; numbers = s.numbers.items } };
}

impl OrderReader {
    // A reader of which nothing was read.
    fn new(alloc: Global) -> OrderReader
        ensures { result ≡ no_order }
    {
        OrderReader {
            stage: OrderStage::Start,
            count: 0,
            numbers: Vec::new(alloc),
        }
    }

    // Takes one token more of numbers alone.
    #[tactic(auto, unfolding(crate::specs::OrderReader::number_step))]
    fn take(&mut self, line: u64, token: &[u8]) -> Result<(), Refusal<OrderFileKind>>
        ensures { Steps (number_step line self.old token.now) result self.new }
    {
        let value = number(token).ok_or(fault(line, OrderFileKind::Number))?;
        if value > u64::from(u32::MAX) {
            return Err(fault(line, OrderFileKind::Number));
        }
        if self.numbers.len() as u64 >= MOST_TASKS {
            return Err(Refusal::Limit(LimitName::Tasks));
        }
        self.numbers.push(value as u32)?;
        Ok(())
    }

    // Takes one token more of those that a report lists.
    #[tactic(auto, unfolding(crate::specs::OrderReader::listed_step))]
    fn take_listed(&mut self, line: u64, token: &[u8]) -> Result<(), Refusal<OrderFileKind>>
        ensures { Steps (listed_step line self.old token.now) result self.new }
    {
        if self.numbers.len() as u64 >= self.count {
            return Err(fault(line, OrderFileKind::Count));
        }
        let value = number(token).ok_or(fault(line, OrderFileKind::Number))?;
        if value > u64::from(u32::MAX) {
            return Err(fault(line, OrderFileKind::Number));
        }
        self.numbers.push(value as u32)?;
        Ok(())
    }

    // Takes a line of numbers alone.
    fn numbers_line(&mut self, line: Line<'_>) -> Result<(), Refusal<OrderFileKind>>
        ensures { Steps (numbers_step self.old (row line.entry.number line.entry.text.now)) result self.new }
    {
        for token in tokens(line.text) {
            self.take(line.number, token)?;
        }
        Ok(())
    }

    // Takes a line of numbers of a report.
    fn listed_line(&mut self, line: Line<'_>) -> Result<(), Refusal<OrderFileKind>>
        ensures { let r = row line.entry.number line.entry.text.now in
            Steps (steps_of_all (listed_step r.number) self.old r.tokens) result self.new }
    {
        for token in tokens(line.text) {
            self.take_listed(line.number, token)?;
        }
        Ok(())
    }

    // Takes the first line.
    fn start_line(&mut self, line: Line<'_>) -> Result<(), Refusal<OrderFileKind>>
        ensures { Steps (start_step self.old (row line.entry.number line.entry.text.now)) result self.new }
    {
        if is_report(line) {
            peak_on(line)?;
            self.stage = OrderStage::Count;
            return Ok(());
        }
        self.stage = OrderStage::Plain;
        self.numbers_line(line)
    }

    // Takes a line after `order N`.
    fn list_line(&mut self, line: Line<'_>) -> Result<(), Refusal<OrderFileKind>>
        ensures { Steps (list_step self.old (row line.entry.number line.entry.text.now)) result self.new }
    {
        if !is_end(line) {
            return self.listed_line(line);
        }
        if self.numbers.len() as u64 != self.count {
            return Err(fault(line.number, OrderFileKind::Count));
        }
        self.stage = OrderStage::Ended;
        Ok(())
    }

    // Takes a line.
    #[tactic(auto, unfolding(crate::specs::OrderReader::order_step))]
    fn take_line(&mut self, line: Line<'_>) -> Result<(), Refusal<OrderFileKind>>
        ensures { Steps (order_step self.old (row line.entry.number line.entry.text.now)) result self.new }
    {
        match self.stage {
            OrderStage::Start => self.start_line(line),
            OrderStage::Plain => self.numbers_line(line),
            OrderStage::Count => {
                self.count = count_on(line)?;
                self.stage = OrderStage::Listed;
                Ok(())
            }
            OrderStage::Listed => self.list_line(line),
            OrderStage::Ended => Err(fault(line.number, OrderFileKind::Count)),
        }
    }

    // Takes the end of the file.
    #[tactic(auto, unfolding(crate::specs::OrderReader::order_end))]
    fn take_end(&mut self, past: u64) -> Result<(), Refusal<OrderFileKind>>
        ensures { Steps (order_end self.old past) result self.new }
    {
        match self.stage {
            OrderStage::Count | OrderStage::Listed => Err(fault(past, OrderFileKind::NoEnd)),
            _ => Ok(()),
        }
    }
}

impl Reader for OrderReader {
    type Kind = OrderFileKind;

    ghost format = { λ _. order_format };

    ghost took = { took_order };

    fn line(&mut self, line: Line<'_>) -> Result<(), Refusal<OrderFileKind>> {
        self.take_line(line)
    }

    fn end(&mut self, past: u64) -> Result<(), Refusal<OrderFileKind>> {
        self.take_end(past)
    }
}

/// The task numbers of an order file, or of a report that states an order as `post` prints it, or why it is refused. Whether they are a
/// traversal is judged by the replay.
pub fn read_order(alloc: Global, bytes: &[u8]) -> Result<Vec<u32>, Refusal<OrderFileKind>>
    ensures { MatchResult result (λ numbers. ReadsOrder bytes.now numbers.items) (IsOrderFileRefusal bytes.now) }
{
    let reader = read_with(bytes, Layout::Commented, OrderReader::new(alloc))?;
    Ok(reader.numbers)
}
