ghost use Rattle.std.specs.Prelude.{◌≡◌};
ghost use Rattle.mp_text.specs.Ahead.{row};

use crate::kind::TreeKind;
use crate::lines::{node_count_on, node_on};
use crate::stage::Stage;
use file_frame::{Version, end_on, header_on};
use mp_text::{Line, Reader, Refusal, fault};
use std::alloc::Global;
use std::marker::Model;
use trees::Node;

/// What the lines of a tree file stated so far.
#[derive(Drop)]
pub struct TreeReader {
    stage: Stage,
    version: Version,
    count: u64,
    pub nodes: Vec<Node>,
    total: u64,
}

impl Model for TreeReader {
    ghost use Rattle.tree_files.specs.Reader.{ReaderState};

    ghost Value = { ReaderState };

    ghost view = { λ s. record {
      stage = s.stage;
      version = s.version;
      count = s.count;
      nodes = s.nodes.items;
      total = s.total;
    } };

    ghost use Rattle.tree_files.specs.Reader.{IsReaderState};

    ghost invariant = { λ s.
        IsReaderState (record {
          stage = s.stage;
          version = s.version;
          count = s.count;
          nodes = s.nodes.items;
          total = s.total;
        }) };
}

impl TreeReader {
    ghost use Rattle.std.specs.Prelude.{length, nat_lt};
    ghost use Rattle.tree_files.specs.Reader.{body_step, with_node, start, tree_step, tree_end};
    ghost use Rattle.tree_files.specs.TreeFile.{node_tests};
    ghost use Rattle.mp_text.specs.Reading.{Steps, tested};

    /// A reader of which nothing was read.
    pub fn new(alloc: Global) -> TreeReader
        ensures { result ≡ start }
    {
        TreeReader {
            stage: Stage::Header,
            version: Version::One,
            count: 0,
            nodes: Vec::new(alloc),
            total: 0,
        }
    }

    // Takes a node line.
    fn node_line(&mut self, line: Line<'_>) -> Result<(), Refusal<TreeKind>>
        ensures { let r = row line.entry.number line.entry.text.now in
            Steps (tested (node_tests self.old.version self.old.count self.old.total r) (with_node self.old r)) result self.new }
    {
        let node = node_on(self.version, self.count, self.total, line)?;
        self.nodes.push(node)?;
        self.total += node.out + node.extra;
        Ok(())
    }

    // Whether a node is still to come.
    fn lacks_nodes(&self) -> bool
        ensures { result ≡ nat_lt (length self.now.nodes) self.now.count }
    {
        (self.nodes.len() as u64) < self.count
    }

    // Takes a line after the second.
    fn body_line(&mut self, line: Line<'_>) -> Result<(), Refusal<TreeKind>>
        requires { self.old.stage ≡ Stage.Nodes }
        ensures { Steps (body_step self.old (row line.entry.number line.entry.text.now)) result self.new }
    {
        if self.lacks_nodes() {
            return self.node_line(line);
        }
        end_on(line, TreeKind::Count)?;
        self.stage = Stage::Ended;
        Ok(())
    }

    // Takes a line.
    #[tactic(auto, unfolding(crate::specs::Reader::tree_step))]
    fn take_line(&mut self, line: Line<'_>) -> Result<(), Refusal<TreeKind>>
        ensures { Steps (tree_step self.old (row line.entry.number line.entry.text.now)) result self.new }
    {
        match self.stage {
            Stage::Header => {
                self.version = header_on(line, b"tree", Version::Two, TreeKind::Header)?;
                self.stage = Stage::Count;
                Ok(())
            }
            Stage::Count => {
                self.count = node_count_on(line)?;
                self.stage = Stage::Nodes;
                Ok(())
            }
            Stage::Nodes => self.body_line(line),
            Stage::Ended => Err(fault(line.number, TreeKind::Count)),
        }
    }

    // Takes the end of the file.
    #[tactic(auto, unfolding(crate::specs::Reader::tree_end))]
    fn take_end(&mut self, past: u64) -> Result<(), Refusal<TreeKind>>
        ensures { Steps (tree_end self.old past) result self.new }
    {
        match self.stage {
            Stage::Ended => Ok(()),
            _ => Err(fault(past, TreeKind::NoEnd)),
        }
    }
}

impl Reader for TreeReader {
    type Kind = TreeKind;

    ghost use Rattle.tree_files.specs.Reader.{took};
    ghost use Rattle.tree_files.specs.TreeFile.{tree_format};

    ghost format = { λ _. tree_format };

    ghost took = { took };

    fn line(&mut self, line: Line<'_>) -> Result<(), Refusal<TreeKind>> {
        self.take_line(line)
    }

    fn end(&mut self, past: u64) -> Result<(), Refusal<TreeKind>> {
        self.take_end(past)
    }
}
