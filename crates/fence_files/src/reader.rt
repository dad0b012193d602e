ghost use Rattle.std.specs.Prelude.{◌≡◌, MatchResult};
ghost use Rattle.mp_text.specs.Ahead.{row};
ghost use Rattle.mp_text.specs.Reading.{Steps};
ghost use Rattle.fence_files.specs.FenceFile.{Stated, nothing, fences_format, workers_stated, certificate_stated, ReadsFences, IsFenceFileRefusal};
ghost use Rattle.fence_files.specs.Reader.{staged_step, fences_step, fences_end, took};

use crate::kind::FenceKind;
use crate::lines::{
    amount_on, amounts_section_on, bound_on, fence_on, fences_header_on, fences_section_on,
    join_on, joins_section_on, room_on, workers_on,
};
use crate::stage::Stage;
use fences::{Fence, FenceCertificate, Workers};
use file_frame::end_on;
use mp_text::{Layout, Line, Reader, Refusal, fault, read_with};
use std::alloc::Global;
use std::marker::Model;

/// What the lines of a fence file stated so far.
#[derive(Drop)]
struct FenceReader {
    stage: Stage,
    count: u64,
    bound: u64,
    workers: u32,
    room: u64,
    joins: Vec<u32>,
    fences: Vec<Fence>,
    amounts: Vec<u64>,
}

impl Model for FenceReader {
    ghost Value = { Stated };

    ghost view = { λ s. record {
      stage = s.stage;
      count = s.count;
      bound = s.bound;
      workers = s.workers;
      room = s.room;
      joins = s.joins.items;
      fences = s.fences.items;
      amounts = s.amounts.items;
    } };
}

// 0 stands for any number of workers.
fn workers_stated(count: u32, room: u64) -> Workers
    ensures { result ≡ workers_stated count room }
{
    if count == 0 {
        Workers::Any
    } else {
        Workers::AtMost { count, room }
    }
}

impl FenceReader {
    // A reader of which nothing was read.
    fn new(alloc: Global) -> FenceReader
        ensures { result ≡ nothing }
    {
        FenceReader {
            stage: Stage::Header,
            count: 0,
            bound: 0,
            workers: 0,
            room: 0,
            joins: Vec::new(alloc),
            fences: Vec::new(alloc),
            amounts: Vec::new(alloc),
        }
    }

    // Takes a line after `joins J`.
    fn joins_line(&mut self, line: Line<'_>) -> Result<(), Refusal<FenceKind>>
        requires { self.old.stage ≡ Stage.Joins }
        ensures { Steps (staged_step Stage.Joins self.old (row line.entry.number line.entry.text.now)) result self.new }
    {
        if (self.joins.len() as u64) < self.count {
            let place = join_on(line)?;
            self.joins.push(place)?;
            return Ok(());
        }
        self.count = fences_section_on(line)?;
        self.stage = Stage::Fences;
        Ok(())
    }

    // Takes a line after `fences K`.
    fn fences_line(&mut self, line: Line<'_>) -> Result<(), Refusal<FenceKind>>
        requires { self.old.stage ≡ Stage.Fences }
        ensures { Steps (staged_step Stage.Fences self.old (row line.entry.number line.entry.text.now)) result self.new }
    {
        if (self.fences.len() as u64) < self.count {
            let fence = fence_on(line)?;
            self.fences.push(fence)?;
            return Ok(());
        }
        self.count = amounts_section_on(line)?;
        self.stage = Stage::Amounts;
        Ok(())
    }

    // Takes a line after `amounts N`.
    fn amounts_line(&mut self, line: Line<'_>) -> Result<(), Refusal<FenceKind>>
        requires { self.old.stage ≡ Stage.Amounts }
        ensures { Steps (staged_step Stage.Amounts self.old (row line.entry.number line.entry.text.now)) result self.new }
    {
        if (self.amounts.len() as u64) < self.count {
            let amount = amount_on(line)?;
            self.amounts.push(amount)?;
            return Ok(());
        }
        end_on(line, FenceKind::NoEnd)?;
        self.stage = Stage::Ended;
        Ok(())
    }

    // Takes `room L`.
    fn room_line(&mut self, line: Line<'_>) -> Result<(), Refusal<FenceKind>>
        ensures { Steps (staged_step Stage.Room self.old (row line.entry.number line.entry.text.now)) result self.new }
    {
        self.room = room_on(self.workers, line)?;
        self.stage = Stage::JoinsSection;
        Ok(())
    }

    // Takes a line.
    #[tactic(auto, unfolding(crate::specs::Reader::fences_step))]
    fn take_line(&mut self, line: Line<'_>) -> Result<(), Refusal<FenceKind>>
        ensures { Steps (fences_step self.old (row line.entry.number line.entry.text.now)) result self.new }
    {
        match self.stage {
            Stage::Header => {
                fences_header_on(line)?;
                self.stage = Stage::Bound;
                Ok(())
            }
            Stage::Bound => {
                self.bound = bound_on(line)?;
                self.stage = Stage::Workers;
                Ok(())
            }
            Stage::Workers => {
                self.workers = workers_on(line)?;
                self.stage = Stage::Room;
                Ok(())
            }
            Stage::Room => self.room_line(line),
            Stage::JoinsSection => {
                self.count = joins_section_on(line)?;
                self.stage = Stage::Joins;
                Ok(())
            }
            Stage::Joins => self.joins_line(line),
            Stage::Fences => self.fences_line(line),
            Stage::Amounts => self.amounts_line(line),
            Stage::Ended => Err(fault(line.number, FenceKind::NoEnd)),
        }
    }

    // Takes the end of the file.
    #[tactic(auto, unfolding(crate::specs::Reader::fences_end))]
    fn take_end(&mut self, past: u64) -> Result<(), Refusal<FenceKind>>
        ensures { Steps (fences_end self.old past) result self.new }
    {
        match self.stage {
            Stage::Ended => Ok(()),
            _ => Err(fault(past, FenceKind::NoEnd)),
        }
    }

    // The certificate that was stated.
    fn into_certificate(self) -> FenceCertificate
        ensures { result ≡ certificate_stated self }
    {
        let FenceReader {
            bound,
            workers,
            room,
            joins,
            fences,
            amounts,
            ..
        } = self;
        FenceCertificate {
            bound,
            workers: workers_stated(workers, room),
            joins,
            fences,
            amounts,
        }
    }
}

impl Reader for FenceReader {
    type Kind = FenceKind;

    ghost format = { λ _. fences_format };

    ghost took = { took };

    fn line(&mut self, line: Line<'_>) -> Result<(), Refusal<FenceKind>> {
        self.take_line(line)
    }

    fn end(&mut self, past: u64) -> Result<(), Refusal<FenceKind>> {
        self.take_end(past)
    }
}

/// The certificate that a fence file states, or why it is refused: the first test that fails in the first line that fails, or that the text
/// ends early. Whether the certificate certifies its bound is not asked. Linear in the bytes.
pub fn read_fences(alloc: Global, text: &[u8]) -> Result<FenceCertificate, Refusal<FenceKind>>
    ensures { MatchResult result (λ certificate. ReadsFences text.now certificate) (IsFenceFileRefusal text.now) }
{
    let reader = read_with(text, Layout::Commented, FenceReader::new(alloc))?;
    Ok(reader.into_certificate())
}
