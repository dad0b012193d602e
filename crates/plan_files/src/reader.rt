ghost use Rattle.std.specs.Prelude.{◌≡◌, ◌≤◌, IfOk, MatchResult};
ghost use Rattle.limits.specs.Limits.{most_positions};
ghost use Rattle.mp_text.specs.Ahead.{row};
ghost use Rattle.mp_text.specs.Reading.{Steps, tested};
ghost use Rattle.plan_files.specs.PlanFile.{Stated, nothing, peak_tests, priority_section_tests, plan_format, ReadsPlan, IsPlanRefusal};
ghost use Rattle.plan_files.specs.Reader.{peak_next, ranks_next, staged_step, plan_step, plan_end, took};

use crate::kind::PlanKind;
use crate::lines::{
    claim_on, claims_section_on, order_on, order_section_on, peak_on, priority_on,
    priority_section_on,
};
use crate::stage::Stage;
use file_frame::{Version, end_on, header_on};
use mp_text::{Layout, Line, Reader, Refusal, fault, read_with};
use permutations::PartialPerm;
use plans::{Claim, NoMemory, Plan};
use std::alloc::Global;
use std::marker::Model;

/// What the lines of a plan file stated so far.
#[derive(Drop)]
pub struct PlanReader {
    alloc: Global,
    stage: Stage,
    version: Version,
    count: u64,
    pub order: Vec<u32>,
    // the tasks of the priority so far, of as many as the order has
    pub ranked: PartialPerm,
    pub peak: u64,
    pub claims: Vec<Claim>,
}

impl Model for PlanReader {
    ghost Value = { Stated };

    ghost view = { λ s. record {
      stage = s.stage;
      version = s.version;
      count = s.count;
      tasks = s.ranked.n;
      order = s.order.items;
      priority = s.ranked.numbers;
      peak = s.peak;
      claims = s.claims.items;
    } };

    ghost invariant = { λ s. s.count ≤ most_positions };
}

impl PlanReader {
    /// A reader of which nothing was read.
    pub fn new(alloc: Global) -> Result<PlanReader, NoMemory>
        ensures { IfOk result (λ reader. reader ≡ nothing) }
    {
        Ok(PlanReader {
            alloc,
            stage: Stage::Header,
            version: Version::One,
            count: 0,
            order: Vec::new(alloc),
            ranked: PartialPerm::new(alloc, 0)?,
            peak: 0,
            claims: Vec::new(alloc),
        })
    }

    // Takes `peak P`.
    fn peak_line(&mut self, line: Line<'_>) -> Result<(), Refusal<PlanKind>>
        ensures { let r = row line.entry.number line.entry.text.now in
            Steps (tested (peak_tests r) (peak_next self.old r)) result self.new }
    {
        self.peak = peak_on(line)?;
        self.stage = Stage::ClaimsSection;
        Ok(())
    }

    // Takes `priority M`.
    fn priority_section(&mut self, line: Line<'_>) -> Result<(), Refusal<PlanKind>>
        ensures { let r = row line.entry.number line.entry.text.now in
            Steps (tested (priority_section_tests self.old.count r) (ranks_next self.old r)) result self.new }
    {
        let count = priority_section_on(self.count, line)?;
        self.ranked = PartialPerm::new(self.alloc, self.count as u32)?;
        self.count = count;
        self.stage = Stage::Priority;
        Ok(())
    }

    // Takes a line after `order N`.
    fn order_line(&mut self, line: Line<'_>) -> Result<(), Refusal<PlanKind>>
        requires { self.old.stage ≡ Stage.Order }
        ensures { Steps (staged_step Stage.Order self.old (row line.entry.number line.entry.text.now)) result self.new }
    {
        if (self.order.len() as u64) < self.count {
            let task = order_on(line)?;
            self.order.push(task)?;
            return Ok(());
        }
        match self.version {
            Version::One => self.peak_line(line),
            Version::Two => self.priority_section(line),
        }
    }

    // Takes a line after `priority M`.
    fn priority_line(&mut self, line: Line<'_>) -> Result<(), Refusal<PlanKind>>
        requires { self.old.stage ≡ Stage.Priority }
        ensures { Steps (staged_step Stage.Priority self.old (row line.entry.number line.entry.text.now)) result self.new }
    {
        if (self.ranked.len() as u64) < self.count {
            let task = priority_on(&self.ranked, line)?;
            self.ranked.push(task)?;
            return Ok(());
        }
        self.peak_line(line)
    }

    // Takes a line after `claims C`.
    fn body_line(&mut self, line: Line<'_>) -> Result<(), Refusal<PlanKind>>
        requires { self.old.stage ≡ Stage.Claims }
        ensures { Steps (staged_step Stage.Claims self.old (row line.entry.number line.entry.text.now)) result self.new }
    {
        if (self.claims.len() as u64) < self.count {
            let claim = claim_on(&self.claims, line)?;
            self.claims.push(claim)?;
            return Ok(());
        }
        end_on(line, PlanKind::NoEnd)?;
        self.stage = Stage::Ended;
        Ok(())
    }

    // Takes a line.
    #[tactic(auto, unfolding(crate::specs::Reader::plan_step))]
    fn take_line(&mut self, line: Line<'_>) -> Result<(), Refusal<PlanKind>>
        ensures { Steps (plan_step self.old (row line.entry.number line.entry.text.now)) result self.new }
    {
        match self.stage {
            Stage::Header => {
                self.version = header_on(line, b"plan", Version::Two, PlanKind::Header)?;
                self.stage = Stage::OrderSection;
                Ok(())
            }
            Stage::OrderSection => {
                self.count = order_section_on(line)?;
                self.stage = Stage::Order;
                Ok(())
            }
            Stage::Order => self.order_line(line),
            Stage::Priority => self.priority_line(line),
            Stage::ClaimsSection => {
                self.count = claims_section_on(line)?;
                self.stage = Stage::Claims;
                Ok(())
            }
            Stage::Claims => self.body_line(line),
            Stage::Ended => Err(fault(line.number, PlanKind::NoEnd)),
        }
    }

    // Takes the end of the file.
    #[tactic(auto, unfolding(crate::specs::Reader::plan_end))]
    fn take_end(&mut self, past: u64) -> Result<(), Refusal<PlanKind>>
        ensures { Steps (plan_end self.old past) result self.new }
    {
        match self.stage {
            Stage::Ended => Ok(()),
            _ => Err(fault(past, PlanKind::NoEnd)),
        }
    }
}

impl Reader for PlanReader {
    type Kind = PlanKind;

    ghost format = { λ _. plan_format };

    ghost took = { took };

    fn line(&mut self, line: Line<'_>) -> Result<(), Refusal<PlanKind>> {
        self.take_line(line)
    }

    fn end(&mut self, past: u64) -> Result<(), Refusal<PlanKind>> {
        self.take_end(past)
    }
}

/// The plan that a file of version 1 or 2 states, or why it is refused: the first test that fails in the first line that fails, or that
/// the text ends early. Linear in the bytes.
pub fn read_plan(alloc: Global, bytes: &[u8]) -> Result<Plan, Refusal<PlanKind>>
    ensures { MatchResult result (λ plan. ReadsPlan bytes.now plan) (IsPlanRefusal bytes.now) }
{
    let reader = read_with(bytes, Layout::Commented, PlanReader::new(alloc)?)?;
    let PlanReader {
        order,
        ranked,
        peak,
        claims,
        ..
    } = reader;
    Ok(Plan::new(order, peak, claims, ranked.into_vertices()))
}
