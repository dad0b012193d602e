ghost use Rattle.std.specs.Prelude.{◌≡◌, ◌≤◌, ◌<◌, [], IfOk, MatchResult};
ghost use Rattle.limits.specs.Limits.{most_positions};
ghost use Rattle.mp_text.specs.Ahead.{row};
ghost use Rattle.mp_text.specs.Reading.{Steps, tested};
ghost use Rattle.file_frame.specs.Frame.{last_tests};
ghost use Rattle.bounded_plans.specs.BoundedPlan.{IsBoundedPlan};
ghost use Rattle.bounded_plan_files.specs.BoundedPlanFile.{Stated, nothing, sort_on, evidence_tests, blocker_tests, tests_after_amounts};
ghost use Rattle.bounded_plan_files.specs.BoundedPlanFile.{blockers_at, with_blocker, bounded_plan_format, plan_stated, ReadsBoundedPlan};
ghost use Rattle.bounded_plan_files.specs.BoundedPlanFile.{IsBoundedPlanRefusal, amount_tests, need_stated};
ghost use Rattle.bounded_plan_files.specs.Reader.{sort_next, with_base_amount, with_own_amount, set_ended, after_amounts, staged_step, plan_step, plan_end, took};

use crate::NoMemory;
use crate::lines::{
    amount_on, base_on, blocker_on, bound_on, first_on, last_on, need_on, states_on,
    third_header_on,
};
use crate::sort::{Sort, sort_named};
use crate::stage::Stage;
use bounded_plans::{BoundEvidence, BoundedPlan, ClaimList};
use file_frame::end_on;
use mp_text::{Layout, Line, Reader, Refusal, fault, read_with};
use peak_bounds::{Amount, Blocker, Event, EventSet, Evidence};
use plan_files::{PlanKind, claim_on, claims_section_on, order_on, order_section_on, peak_on};
use plans::Claim;
use std::alloc::Global;
use std::marker::Model;
use std::mem;

/// What the lines of a plan file of version 3 stated so far.
#[derive(Drop)]
pub struct BoundedPlanReader {
    alloc: Global,
    stage: Stage,
    count: u64,
    left: u64,
    uses: u64,
    pub order: Vec<u32>,
    pub peak: u64,
    pub bound: u64,
    pub sort: Sort,
    // of `need T`, 0 for none, or of the blocker at hand, with its amounts and those before it
    pub task: u32,
    // of `states K`
    pub states: u32,
    pub claims: Vec<Claim>,
    pub base: Vec<Amount>,
    own: Vec<Amount>,
    pub blockers: Vec<Blocker>,
}

impl Model for BoundedPlanReader {
    ghost Value = { Stated };

    ghost view = { λ s. record {
      stage = s.stage;
      count = s.count;
      left = s.left;
      uses = s.uses;
      order = s.order.items;
      peak = s.peak;
      bound = s.bound;
      sort = s.sort;
      task = s.task;
      states = s.states;
      claims = s.claims.items;
      base = s.base.items;
      own = s.own.items;
      blockers = s.blockers.items;
    } };

    ghost invariant = { λ s. s.uses ≤ most_positions };
}

// The need of a task, or what is there before any task has run where the number is 0, which is no task.
fn need_stated(task: u32) -> Evidence
    ensures { result ≡ need_stated task }
{
    if task == 0 {
        Evidence::Start
    } else {
        Evidence::Need(task)
    }
}

impl BoundedPlanReader {
    /// A reader of which nothing was read. It takes no memory.
    pub fn new(alloc: Global) -> BoundedPlanReader
        ensures { result ≡ nothing }
    {
        BoundedPlanReader {
            alloc,
            stage: Stage::Header,
            count: 0,
            left: 0,
            uses: 0,
            order: Vec::new(alloc),
            peak: 0,
            bound: 0,
            sort: Sort::Need,
            task: 0,
            states: 0,
            claims: Vec::new(alloc),
            base: Vec::new(alloc),
            own: Vec::new(alloc),
            blockers: Vec::new(alloc),
        }
    }

    // Takes an order line, or `peak P` after the last.
    fn order_line(&mut self, line: Line<'_>) -> Result<(), Refusal<PlanKind>>
        requires { self.old.stage ≡ Stage.Order }
        ensures { Steps (staged_step Stage.Order self.old (row line.entry.number line.entry.text.now)) result self.new }
    {
        if (self.order.len() as u64) < self.count {
            let task = order_on(line)?;
            self.order.push(task)?;
            return Ok(());
        }
        self.peak = peak_on(line)?;
        self.stage = Stage::Bound;
        Ok(())
    }

    // Takes the line of the evidence.
    fn evidence_line(&mut self, line: Line<'_>) -> Result<(), Refusal<PlanKind>>
        ensures { let r = row line.entry.number line.entry.text.now in
            Steps (tested (evidence_tests r) (sort_next (sort_on r) self.old r)) result self.new }
    {
        let sort = sort_named(line.text).unwrap_or(Sort::Need);
        match sort {
            Sort::Need => {
                self.task = need_on(line)?;
                self.stage = Stage::End;
            }
            Sort::First => {
                self.left = first_on(line)?;
                self.stage = Stage::BaseSection;
            }
            Sort::Last => {
                self.left = last_on(line)?;
                self.stage = Stage::BaseSection;
            }
            Sort::Claims => {
                self.count = claims_section_on(line)?;
                self.claims = Vec::new(self.alloc);
                self.stage = Stage::Claims;
            }
            Sort::States => {
                self.states = states_on(line)?;
                self.stage = Stage::End;
            }
        }
        self.sort = sort;
        Ok(())
    }

    // Takes a claim line, or `end` after the last.
    fn claims_line(&mut self, line: Line<'_>) -> Result<(), Refusal<PlanKind>>
        requires { self.old.stage ≡ Stage.Claims }
        ensures { Steps (staged_step Stage.Claims self.old (row line.entry.number line.entry.text.now)) result self.new }
    {
        if (self.claims.len() as u64) < self.count {
            let claim = claim_on(&self.claims, line)?;
            self.claims.push(claim)?;
            return Ok(());
        }
        end_on(line, PlanKind::NoEnd)?;
        self.stage = Stage::Ended;
        Ok(())
    }

    // Puts the blocker at hand, if there is one, behind those before it.
    fn close_blocker(&mut self) -> Result<(), NoMemory>
        ensures { IfOk result (λ _. self.new ≡ record self.old {
          blockers = blockers_at self.old.stage self.old;
          own = self.new.own;
        }) }
    {
        if self.stage == Stage::Own {
            let own = mem::replace(&mut self.own, Vec::new(self.alloc));
            self.blockers.push(Blocker::new(self.task, own))?;
        }
        Ok(())
    }

    // Takes `blocker T D`.
    fn blocker_line(&mut self, line: Line<'_>) -> Result<(), Refusal<PlanKind>>
        requires { 0 < self.old.left }
        ensures { let r = row line.entry.number line.entry.text.now in
            Steps (tested (blocker_tests self.old.uses r) (with_blocker self.old r [])) result self.new }
    {
        let stated = blocker_on(self.uses, line)?;
        self.close_blocker()?;
        self.own = Vec::new(self.alloc);
        self.task = stated.task;
        self.count = stated.own;
        self.uses += stated.own;
        self.left -= 1;
        self.stage = Stage::Own;
        Ok(())
    }

    // Takes `end` after all amounts.
    fn end_line(&mut self, line: Line<'_>) -> Result<(), Refusal<PlanKind>>
        ensures { Steps (tested (last_tests PlanKind.NoEnd (row line.entry.number line.entry.text.now)) (set_ended self.old)) result self.new }
    {
        end_on(line, PlanKind::NoEnd)?;
        self.close_blocker()?;
        self.own = Vec::new(self.alloc);
        self.stage = Stage::Ended;
        Ok(())
    }

    // Takes the line after all amounts of the base or of a blocker: `blocker T D`, or `end` where none is to come.
    fn line_after_amounts(&mut self, line: Line<'_>) -> Result<(), Refusal<PlanKind>>
        ensures { let r = row line.entry.number line.entry.text.now in
            Steps (tested (tests_after_amounts self.old r) (after_amounts self.old r)) result self.new }
    {
        if self.left == 0 {
            self.end_line(line)
        } else {
            self.blocker_line(line)
        }
    }

    // Takes an amount of the base.
    fn base_amount(&mut self, line: Line<'_>) -> Result<(), Refusal<PlanKind>>
        ensures { let r = row line.entry.number line.entry.text.now in
            Steps (tested (amount_tests self.old.base r) (with_base_amount self.old r)) result self.new }
    {
        let amount = amount_on(&self.base, line)?;
        self.base.push(amount)?;
        Ok(())
    }

    // Takes an amount of the blocker at hand.
    fn own_amount(&mut self, line: Line<'_>) -> Result<(), Refusal<PlanKind>>
        ensures { let r = row line.entry.number line.entry.text.now in
            Steps (tested (amount_tests self.old.own r) (with_own_amount self.old r)) result self.new }
    {
        let amount = amount_on(&self.own, line)?;
        self.own.push(amount)?;
        Ok(())
    }

    // Takes a line after `base K`.
    fn base_line(&mut self, line: Line<'_>) -> Result<(), Refusal<PlanKind>>
        requires { self.old.stage ≡ Stage.Base }
        ensures { Steps (staged_step Stage.Base self.old (row line.entry.number line.entry.text.now)) result self.new }
    {
        if (self.base.len() as u64) < self.count {
            self.base_amount(line)
        } else {
            self.line_after_amounts(line)
        }
    }

    // Takes a line after `blocker T D`.
    fn own_line(&mut self, line: Line<'_>) -> Result<(), Refusal<PlanKind>>
        requires { self.old.stage ≡ Stage.Own }
        ensures { Steps (staged_step Stage.Own self.old (row line.entry.number line.entry.text.now)) result self.new }
    {
        if (self.own.len() as u64) < self.count {
            self.own_amount(line)
        } else {
            self.line_after_amounts(line)
        }
    }

    // Takes `base K`.
    fn base_section(&mut self, line: Line<'_>) -> Result<(), Refusal<PlanKind>>
        ensures { Steps (staged_step Stage.BaseSection self.old (row line.entry.number line.entry.text.now)) result self.new }
    {
        self.count = base_on(line)?;
        self.uses = self.count;
        self.base = Vec::new(self.alloc);
        self.stage = Stage::Base;
        Ok(())
    }

    // Takes `order N`.
    fn order_section(&mut self, line: Line<'_>) -> Result<(), Refusal<PlanKind>>
        ensures { Steps (staged_step Stage.OrderSection self.old (row line.entry.number line.entry.text.now)) result self.new }
    {
        self.count = order_section_on(line)?;
        self.order = Vec::new(self.alloc);
        self.stage = Stage::Order;
        Ok(())
    }

    // Takes a line.
    #[tactic(auto, unfolding(crate::specs::Reader::plan_step))]
    fn take_line(&mut self, line: Line<'_>) -> Result<(), Refusal<PlanKind>>
        ensures { Steps (plan_step self.old (row line.entry.number line.entry.text.now)) result self.new }
    {
        match self.stage {
            Stage::Header => {
                third_header_on(line)?;
                self.stage = Stage::OrderSection;
                Ok(())
            }
            Stage::OrderSection => self.order_section(line),
            Stage::Order => self.order_line(line),
            Stage::Bound => {
                self.bound = bound_on(line)?;
                self.stage = Stage::Evidence;
                Ok(())
            }
            Stage::Evidence => self.evidence_line(line),
            Stage::Claims => self.claims_line(line),
            Stage::BaseSection => self.base_section(line),
            Stage::Base => self.base_line(line),
            Stage::Own => self.own_line(line),
            Stage::End => {
                end_on(line, PlanKind::NoEnd)?;
                self.stage = Stage::Ended;
                Ok(())
            }
            Stage::Ended => Err(fault(line.number, PlanKind::NoEnd)),
        }
    }

    // Takes the end of the file.
    #[tactic(auto, unfolding(crate::specs::Reader::plan_end))]
    fn take_end(&mut self, past: u64) -> Result<(), Refusal<PlanKind>>
        ensures { Steps (plan_end self.old past) result self.new }
    {
        match self.stage {
            Stage::Ended => Ok(()),
            _ => Err(fault(past, PlanKind::NoEnd)),
        }
    }

    // The evidence that was stated, and the order, the peak and the bound.
    fn into_plan(self) -> BoundedPlan
        requires { IsBoundedPlan (plan_stated self) }
        ensures { result ≡ plan_stated self }
    {
        let BoundedPlanReader {
            order,
            peak,
            bound,
            sort,
            task,
            states,
            claims,
            base,
            blockers,
            ..
        } = self;
        let evidence = match sort {
            Sort::Need => BoundEvidence::Sums(need_stated(task)),
            Sort::First => BoundEvidence::Sums(Evidence::Set(EventSet::new(
                Event::First,
                base,
                blockers,
            ))),
            Sort::Last => BoundEvidence::Sums(Evidence::Set(EventSet::new(
                Event::Last,
                base,
                blockers,
            ))),
            Sort::Claims => BoundEvidence::Claims(ClaimList::new(claims)),
            Sort::States => BoundEvidence::States(states),
        };
        BoundedPlan::new(order, peak, bound, evidence)
    }
}

impl Reader for BoundedPlanReader {
    type Kind = PlanKind;

    ghost format = { λ _. bounded_plan_format };

    ghost took = { took };

    fn line(&mut self, line: Line<'_>) -> Result<(), Refusal<PlanKind>> {
        self.take_line(line)
    }

    fn end(&mut self, past: u64) -> Result<(), Refusal<PlanKind>> {
        self.take_end(past)
    }
}

/// The plan that a file of version 3 states, or why it is refused: the first test that fails in the first line that fails, or that the text
/// ends early. Linear in the bytes.
pub fn read_bounded_plan(alloc: Global, bytes: &[u8]) -> Result<BoundedPlan, Refusal<PlanKind>>
    ensures { MatchResult result (λ plan. ReadsBoundedPlan bytes.now plan) (IsBoundedPlanRefusal bytes.now) }
{
    let reader = read_with(bytes, Layout::Commented, BoundedPlanReader::new(alloc))?;
    Ok(reader.into_plan())
}
