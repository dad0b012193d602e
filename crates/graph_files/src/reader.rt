ghost use Rattle.std.specs.Prelude.{◌≡◌};
ghost use Rattle.mp_text.specs.Ahead.{row};

use crate::kind::GraphKind;
use crate::lines::{arc_count_on, arc_on, task_count_on, task_on};
use crate::stage::Stage;
use file_frame::{Version, end_on, header_on};
use graphs::Arc;
use mp_system::Task;
use mp_text::{Line, Reader, Refusal, fault};
use std::alloc::Global;
use std::marker::Model;

/// What the lines of a graph file stated so far.
#[derive(Drop)]
pub struct GraphReader {
    stage: Stage,
    count: u64,
    arc_count: u64,
    pub tasks: Vec<Task>,
    /// The numbers of the lines that state the tasks.
    pub lines: Vec<u64>,
    pub arcs: Vec<Arc>,
    total: u64,
}

impl Model for GraphReader {
    ghost use Rattle.graph_files.specs.Reader.{ReaderState};

    ghost Value = { ReaderState };

    ghost view = { λ s. record {
      stage = s.stage;
      count = s.count;
      arc_count = s.arc_count;
      tasks = s.tasks.items;
      lines = s.lines.items;
      arcs = s.arcs.items;
      total = s.total;
    } };

    ghost use Rattle.graph_files.specs.Reader.{IsReaderState};

    ghost invariant = { λ s.
        IsReaderState (record {
          stage = s.stage;
          count = s.count;
          arc_count = s.arc_count;
          tasks = s.tasks.items;
          lines = s.lines.items;
          arcs = s.arcs.items;
          total = s.total;
        }) };
}

impl GraphReader {
    ghost use Rattle.std.specs.Prelude.{length, nat_lt};
    ghost use Rattle.graph_files.specs.Reader.{tasks_step, arcs_step, with_task, with_arc, start, graph_step, graph_end};
    ghost use Rattle.graph_files.specs.GraphFile.{task_tests, arc_tests};
    ghost use Rattle.mp_text.specs.Reading.{Steps, tested};

    /// A reader of which nothing was read.
    pub fn new(alloc: Global) -> GraphReader
        ensures { result ≡ start }
    {
        GraphReader {
            stage: Stage::Header,
            count: 0,
            arc_count: 0,
            tasks: Vec::new(alloc),
            lines: Vec::new(alloc),
            arcs: Vec::new(alloc),
            total: 0,
        }
    }

    // Takes a task line.
    fn task_line(&mut self, line: Line<'_>) -> Result<(), Refusal<GraphKind>>
        ensures { let r = row line.entry.number line.entry.text.now in
            Steps (tested (task_tests self.old.total r) (with_task self.old r)) result self.new }
    {
        let task = task_on(self.total, line)?;
        self.lines.push(line.number)?;
        self.tasks.push(task)?;
        self.total += task.extra;
        Ok(())
    }

    // Takes an arc line.
    fn arc_line(&mut self, line: Line<'_>) -> Result<(), Refusal<GraphKind>>
        ensures { let r = row line.entry.number line.entry.text.now in
            Steps (tested (arc_tests self.old.count self.old.total r) (with_arc self.old r)) result self.new }
    {
        let arc = arc_on(self.count, self.total, line)?;
        self.arcs.push(arc)?;
        self.total += arc.size;
        Ok(())
    }

    // Whether a task is still to come.
    fn lacks_tasks(&self) -> bool
        ensures { result ≡ nat_lt (length self.now.tasks) self.now.count }
    {
        (self.tasks.len() as u64) < self.count
    }

    // Whether an arc is still to come.
    fn lacks_arcs(&self) -> bool
        ensures { result ≡ nat_lt (length self.now.arcs) self.now.arc_count }
    {
        (self.arcs.len() as u64) < self.arc_count
    }

    // Takes a line where tasks are read, or the number of arcs after the last.
    fn tasks_line(&mut self, line: Line<'_>) -> Result<(), Refusal<GraphKind>>
        requires { self.old.stage ≡ Stage.Tasks }
        ensures { Steps (tasks_step self.old (row line.entry.number line.entry.text.now)) result self.new }
    {
        if self.lacks_tasks() {
            return self.task_line(line);
        }
        self.arc_count = arc_count_on(line)?;
        self.stage = Stage::Arcs;
        Ok(())
    }

    // Takes a line where arcs are read, or the end after the last.
    fn arcs_line(&mut self, line: Line<'_>) -> Result<(), Refusal<GraphKind>>
        requires { self.old.stage ≡ Stage.Arcs }
        ensures { Steps (arcs_step self.old (row line.entry.number line.entry.text.now)) result self.new }
    {
        if self.lacks_arcs() {
            return self.arc_line(line);
        }
        end_on(line, GraphKind::Section)?;
        self.stage = Stage::Ended;
        Ok(())
    }

    // Takes a line.
    #[tactic(auto, unfolding(crate::specs::Reader::graph_step))]
    fn take_line(&mut self, line: Line<'_>) -> Result<(), Refusal<GraphKind>>
        ensures { Steps (graph_step self.old (row line.entry.number line.entry.text.now)) result self.new }
    {
        match self.stage {
            Stage::Header => {
                header_on(line, b"graph", Version::One, GraphKind::Header)?;
                self.stage = Stage::TaskCount;
                Ok(())
            }
            Stage::TaskCount => {
                self.count = task_count_on(line)?;
                self.stage = Stage::Tasks;
                Ok(())
            }
            Stage::Tasks => self.tasks_line(line),
            Stage::Arcs => self.arcs_line(line),
            Stage::Ended => Err(fault(line.number, GraphKind::Section)),
        }
    }

    // Takes the end of the file.
    #[tactic(auto, unfolding(crate::specs::Reader::graph_end))]
    fn take_end(&mut self, past: u64) -> Result<(), Refusal<GraphKind>>
        ensures { Steps (graph_end self.old past) result self.new }
    {
        match self.stage {
            Stage::Ended => Ok(()),
            _ => Err(fault(past, GraphKind::NoEnd)),
        }
    }
}

impl Reader for GraphReader {
    type Kind = GraphKind;

    ghost use Rattle.graph_files.specs.Reader.{took};
    ghost use Rattle.graph_files.specs.GraphFile.{graph_format};

    ghost format = { λ _. graph_format };

    ghost took = { took };

    fn line(&mut self, line: Line<'_>) -> Result<(), Refusal<GraphKind>> {
        self.take_line(line)
    }

    fn end(&mut self, past: u64) -> Result<(), Refusal<GraphKind>> {
        self.take_end(past)
    }
}
