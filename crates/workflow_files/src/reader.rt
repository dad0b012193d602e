ghost use Rattle.std.specs.Prelude.{◌≡◌, MatchResult};
ghost use Rattle.mp_text.specs.Ahead.{row};
ghost use Rattle.workflow_files.specs.Reader.{refusal_at};
ghost use Rattle.workflow_files.specs.WorkflowFile.{ReadsWorkflow, IsWorkflowRefusal};

use crate::kind::WorkflowKind;
use crate::lines::{begins_end, last_on, position_on, task_count_on};
use crate::stage::Stage;
use crate::word::{Word, next_word};
use file_frame::{Version, header_on};
use mp_text::{Layout, Line, Reader, Refusal, Tokens, fault, read_with, tokens};
use sp_terms::{Position, PushRefusal, TermBuilder, TermList};
use std::alloc::Global;
use std::marker::Model;

// What the lines of a workflow file stated so far.
#[derive(Drop)]
struct WorkflowReader {
    stage: Stage,
    version: Version,
    count: u64,
    builder: TermBuilder,
}

impl Model for WorkflowReader {
    ghost use Rattle.workflow_files.specs.Reader.{ReaderState};

    ghost Value = { ReaderState };

    ghost view = { λ s. record { stage = s.stage; version = s.version; count = s.count; positions = s.builder } };
}

// The refusal of a line whose position is not taken.
fn refusal_at(line: u64, refusal: PushRefusal) -> Refusal<WorkflowKind>
    ensures { result ≡ refusal_at line refusal }
{
    match refusal {
        PushRefusal::Short => fault(line, WorkflowKind::StackShort),
        PushRefusal::Limit(name) => Refusal::Limit(name),
        PushRefusal::Share => fault(line, WorkflowKind::Share),
        PushRefusal::NoMemory => Refusal::NoMemory,
    }
}

impl WorkflowReader {
    ghost use Rattle.sp_terms.specs.Builder.{IsPosition};
    ghost use Rattle.workflow_files.specs.Reader.{pushed, position_step, end_step, body_step, start, workflow_step, workflow_end};
    ghost use Rattle.mp_text.specs.Text.{numbers_of};
    ghost use Rattle.mp_text.specs.Reading.{Steps};

    // A reader of which nothing was read.
    fn new(alloc: Global) -> WorkflowReader
        ensures { result ≡ start }
    {
        WorkflowReader {
            stage: Stage::Header,
            version: Version::One,
            count: 0,
            builder: TermBuilder::new(alloc),
        }
    }

    // Takes the position of a line.
    fn push(&mut self, line: u64, position: Position) -> Result<(), Refusal<WorkflowKind>>
        requires { IsPosition position }
        ensures { Steps (pushed self.old line position) result self.new }
    {
        match self.builder.push(position) {
            Ok(()) => Ok(()),
            Err(refusal) => Err(refusal_at(line, refusal)),
        }
    }

    // Takes a position line: the word that it begins with, and the tokens after it.
    fn position_line(
        &mut self,
        line: u64,
        word: Word,
        words: Tokens<'_>,
    ) -> Result<(), Refusal<WorkflowKind>>
        ensures { Steps (position_step self.old line word (numbers_of words.entry)) result self.new }
    {
        let height = self.builder.height();
        let tasks = self.builder.tasks();
        let position = position_on(self.version, self.count, height, tasks, line, word, words)?;
        self.push(line, position)
    }

    // Takes a line that begins with no word of a position: it must be the end.
    fn end_line(&mut self, line: Line<'_>) -> Result<(), Refusal<WorkflowKind>>
        ensures { Steps (end_step self.old (row line.entry.number line.entry.text.now)) result self.new }
    {
        if !begins_end(line) {
            return Err(fault(line.number, WorkflowKind::Word));
        }
        last_on(
            self.count,
            self.builder.height(),
            self.builder.tasks(),
            line,
        )?;
        self.stage = Stage::Ended;
        Ok(())
    }

    // Takes a line after the second, where positions are read.
    fn body_line(&mut self, line: Line<'_>) -> Result<(), Refusal<WorkflowKind>>
        ensures { Steps (body_step self.old (row line.entry.number line.entry.text.now)) result self.new }
    {
        let mut words = tokens(line.text);
        match next_word(&mut words) {
            Some(word) => self.position_line(line.number, word, words),
            None => self.end_line(line),
        }
    }

    // Takes a line.
    #[tactic(auto, unfolding(crate::specs::Reader::workflow_step))]
    fn take_line(&mut self, line: Line<'_>) -> Result<(), Refusal<WorkflowKind>>
        ensures { Steps (workflow_step self.old (row line.entry.number line.entry.text.now)) result self.new }
    {
        match self.stage {
            Stage::Header => {
                self.version = header_on(line, b"workflow", Version::Two, WorkflowKind::Header)?;
                self.stage = Stage::Count;
                Ok(())
            }
            Stage::Count => {
                self.count = task_count_on(line)?;
                self.stage = Stage::Positions;
                Ok(())
            }
            Stage::Positions => self.body_line(line),
            Stage::Ended => Err(fault(line.number, WorkflowKind::Word)),
        }
    }

    // Takes the end of the file.
    #[tactic(auto, unfolding(crate::specs::Reader::workflow_end))]
    fn take_end(&mut self, past: u64) -> Result<(), Refusal<WorkflowKind>>
        ensures { Steps (workflow_end self.old past) result self.new }
    {
        match self.stage {
            Stage::Ended => Ok(()),
            _ => Err(fault(past, WorkflowKind::NoEnd)),
        }
    }
}

impl Reader for WorkflowReader {
    type Kind = WorkflowKind;

    ghost use Rattle.workflow_files.specs.Reader.{took};
    ghost use Rattle.workflow_files.specs.WorkflowFile.{workflow_format};

    ghost format = { λ _. workflow_format };

    ghost took = { took };

    fn line(&mut self, line: Line<'_>) -> Result<(), Refusal<WorkflowKind>> {
        self.take_line(line)
    }

    fn end(&mut self, past: u64) -> Result<(), Refusal<WorkflowKind>> {
        self.take_end(past)
    }
}

/// The terms that a workflow file of version 1 or 2 states, or why it is refused: the first test that fails in the first line that
/// fails, or at the end of the text.
pub fn read_workflow(alloc: Global, bytes: &[u8]) -> Result<TermList, Refusal<WorkflowKind>>
    ensures { MatchResult result (λ terms. ReadsWorkflow bytes.now terms) (IsWorkflowRefusal bytes.now) }
{
    let reader = read_with(bytes, Layout::Commented, WorkflowReader::new(alloc))?;
    let WorkflowReader { builder, .. } = reader;
    match builder.finish() {
        Ok(terms) => Ok(terms),
        Err(_) => unreachable!(),
    }
}
