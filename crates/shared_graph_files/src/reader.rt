ghost use Rattle.std.specs.Prelude.{◌≡◌};
ghost use Rattle.mp_text.specs.Ahead.{row};

use crate::header::second_header_on;
use crate::lines::{item_count_on, item_on};
use crate::stage::Stage;
use file_frame::end_on;
use graph_files::{GraphKind, task_count_on, task_on};
use mp_system::Task;
use mp_text::{Line, Reader, Refusal, fault};
use shared_systems::GrowingItems;
use std::alloc::Global;
use std::marker::Model;

/// What the lines of a graph file of version 2 stated so far.
#[derive(Drop)]
pub struct ItemsReader {
    stage: Stage,
    count: u64,
    item_count: u64,
    pub tasks: Vec<Task>,
    pub items: GrowingItems,
    total: u64,
}

impl Model for ItemsReader {
    ghost use Rattle.shared_graph_files.specs.Reader.{ReaderState};

    ghost Value = { ReaderState };

    ghost view = { λ s. record {
      stage = s.stage;
      count = s.count;
      item_count = s.item_count;
      tasks = s.tasks.items;
      items = s.items;
      total = s.total;
    } };

    ghost use Rattle.shared_graph_files.specs.Reader.{IsReaderState};

    ghost invariant = { λ s.
        IsReaderState (record {
          stage = s.stage;
          count = s.count;
          item_count = s.item_count;
          tasks = s.tasks.items;
          items = s.items;
          total = s.total;
        }) };
}

impl ItemsReader {
    ghost use Rattle.std.specs.Prelude.{length, nat_lt};
    ghost use Rattle.shared_graph_files.specs.Reader.{tasks_step, items_step, with_task, with_item_line, uses_so_far, start, second_step, second_end};
    ghost use Rattle.graph_files.specs.GraphFile.{task_tests};
    ghost use Rattle.shared_graph_files.specs.SharedGraphFile.{item_tests};
    ghost use Rattle.mp_text.specs.Reading.{Steps, tested};

    /// A reader of which nothing was read.
    pub fn new(alloc: Global) -> ItemsReader
        ensures { result ≡ start }
    {
        ItemsReader {
            stage: Stage::Header,
            count: 0,
            item_count: 0,
            tasks: Vec::new(alloc),
            items: GrowingItems::new(alloc),
            total: 0,
        }
    }

    // Takes a task line.
    fn task_line(&mut self, line: Line<'_>) -> Result<(), Refusal<GraphKind>>
        ensures { let r = row line.entry.number line.entry.text.now in
            Steps (tested (task_tests self.old.total r) (with_task self.old r)) result self.new }
    {
        let task = task_on(self.total, line)?;
        self.tasks.push(task)?;
        self.total += task.extra;
        Ok(())
    }

    // Takes an item line.
    fn item_line(&mut self, line: Line<'_>) -> Result<(), Refusal<GraphKind>>
        ensures { let r = row line.entry.number line.entry.text.now in
            Steps (tested (item_tests self.old.count self.old.total (uses_so_far self.old.items) r) (with_item_line self.old r))
            result self.new }
    {
        let size = item_on(self.count, self.total, line, &mut self.items)?;
        self.total += size;
        Ok(())
    }

    // Whether a task is still to come.
    fn lacks_tasks(&self) -> bool
        ensures { result ≡ nat_lt (length self.now.tasks) self.now.count }
    {
        (self.tasks.len() as u64) < self.count
    }

    // Whether an item is still to come.
    fn lacks_items(&self) -> bool
        ensures { result ≡ nat_lt (length self.now.items.items) self.now.item_count }
    {
        (self.items.len() as u64) < self.item_count
    }

    // Takes a line where tasks are read, or the number of items after the last.
    fn tasks_line(&mut self, line: Line<'_>) -> Result<(), Refusal<GraphKind>>
        requires { self.old.stage ≡ Stage.Tasks }
        ensures { Steps (tasks_step self.old (row line.entry.number line.entry.text.now)) result self.new }
    {
        if self.lacks_tasks() {
            return self.task_line(line);
        }
        self.item_count = item_count_on(line)?;
        self.stage = Stage::Items;
        Ok(())
    }

    // Takes a line where items are read, or the end after the last.
    fn items_line(&mut self, line: Line<'_>) -> Result<(), Refusal<GraphKind>>
        requires { self.old.stage ≡ Stage.Items }
        ensures { Steps (items_step self.old (row line.entry.number line.entry.text.now)) result self.new }
    {
        if self.lacks_items() {
            return self.item_line(line);
        }
        end_on(line, GraphKind::Section)?;
        self.stage = Stage::Ended;
        Ok(())
    }

    // Takes a line.
    #[tactic(auto, unfolding(crate::specs::Reader::second_step))]
    fn take_line(&mut self, line: Line<'_>) -> Result<(), Refusal<GraphKind>>
        ensures { Steps (second_step self.old (row line.entry.number line.entry.text.now)) result self.new }
    {
        match self.stage {
            Stage::Header => {
                second_header_on(line)?;
                self.stage = Stage::TaskCount;
                Ok(())
            }
            Stage::TaskCount => {
                self.count = task_count_on(line)?;
                self.stage = Stage::Tasks;
                Ok(())
            }
            Stage::Tasks => self.tasks_line(line),
            Stage::Items => self.items_line(line),
            Stage::Ended => Err(fault(line.number, GraphKind::Section)),
        }
    }

    // Takes the end of the file.
    #[tactic(auto, unfolding(crate::specs::Reader::second_end))]
    fn take_end(&mut self, past: u64) -> Result<(), Refusal<GraphKind>>
        ensures { Steps (second_end self.old past) result self.new }
    {
        match self.stage {
            Stage::Ended => Ok(()),
            _ => Err(fault(past, GraphKind::NoEnd)),
        }
    }
}

impl Reader for ItemsReader {
    type Kind = GraphKind;

    ghost use Rattle.shared_graph_files.specs.Reader.{took};
    ghost use Rattle.shared_graph_files.specs.SharedGraphFile.{second_format};

    ghost format = { λ _. second_format };

    ghost took = { took };

    fn line(&mut self, line: Line<'_>) -> Result<(), Refusal<GraphKind>> {
        self.take_line(line)
    }

    fn end(&mut self, past: u64) -> Result<(), Refusal<GraphKind>> {
        self.take_end(past)
    }
}
