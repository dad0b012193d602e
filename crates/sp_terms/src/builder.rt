ghost use Rattle.std.specs.Prelude.{◌≡◌, ◌≤◌, ◌++◌, ◌∷◌, [], None, List, MatchResult, length, false};
ghost use Rattle.limits.specs.Limits.{most_positions, most_size, most_tasks, most_total};
ghost use Rattle.sp_terms.specs.Builder.{IsPosition, refusal_of, IsPushRefusal, is_short, passed_limit, total_limit, IsOneTerm};
ghost use Rattle.sp_terms.specs.Ends.{IsBuilder, over_ends, beside, next_ends, initial_at, fin_at, par_ends, series_ends};
ghost use Rattle.sp_terms.specs.Values.{added_tasks, added_size, stack_of};
ghost use Rattle.sp_terms.specs.declared.position.Position.{Position};
ghost use Rattle.std.specs.List.{sum_by};

use crate::position::Position;
use crate::terms::TermList;
use limits::{LimitName, MOST_POSITIONS, MOST_SIZE, MOST_TASKS, MOST_TIME, MOST_TOTAL};
use std::alloc::{AllocError, Global};
use std::fmt::{self, Display, Formatter, Write};
use std::marker::Model;

/// Why a position is not taken.
#[derive(Clone, Copy, Debug, PartialEq, Eq)]
pub enum PushRefusal {
    /// The stack holds too few terms: less than 2 for a task, less than k for `Par(k)`.
    Short,
    /// A limit would be passed: the first of positions, tasks, size, time and total.
    Limit(LimitName),
    /// The share of a task is greater than what its first part leaves, or than its extra and what its second part starts with.
    Share,
    /// Memory ran out, which says nothing of the position.
    NoMemory,
}

impl From<AllocError> for PushRefusal {
    ghost use Rattle.sp_terms.specs.declared.builder.PushRefusal.TheVariants.{NoMemory};

    ghost from_gives = { λ _ e. e ≡ NoMemory };

    fn from(_e: AllocError) -> PushRefusal {
        PushRefusal::NoMemory
    }
}

impl Display for PushRefusal {
    fn fmt<W: Write>(&self, f: &mut Formatter<W>) -> fmt::Result {
        match self {
            PushRefusal::Short => f.write_str("stack-short"),
            PushRefusal::Limit(name) => write!(f, "limit {name}"),
            PushRefusal::Share => f.write_str("share"),
            PushRefusal::NoMemory => f.write_str("no memory"),
        }
    }
}

// The memory of the first and the last state of a term.
#[derive(Clone, Copy)]
struct Ends {
    initial: u64,
    fin: u64,
}

/// Positions that are taken one by one, each only where it fits what stands before it.
#[derive(Drop)]
pub struct TermBuilder {
    positions: Vec<Position>,
    ends: Vec<Ends>,
    tasks: u64,
    total: u64,
}

impl Model for TermBuilder {
    ghost Value = { List Position };

    ghost view = { λ b. b.positions.items };

    ghost invariant = { λ b. IsBuilder b.positions.items b.ends.items b.tasks b.total };
}

impl TermBuilder {
    /// No positions.
    pub fn new(alloc: Global) -> TermBuilder
        ensures { result ≡ [] }
    {
        TermBuilder {
            positions: Vec::new(alloc),
            ends: Vec::new(alloc),
            tasks: 0,
            total: 0,
        }
    }

    /// The number of terms that the positions leave.
    pub fn height(&self) -> u64
        ensures value { result ≡ length (stack_of self.now) }
        ensures few { result ≤ most_positions }
    {
        self.ends.len() as u64
    }

    /// The number of tasks among the positions.
    pub fn tasks(&self) -> u64
        ensures value { result ≡ sum_by added_tasks self.now }
        ensures few { result ≤ most_tasks }
    {
        self.tasks
    }

    /// Takes a position; a task has a time of at least 1 and a `Par` two parts or more. On a refusal nothing has changed.
    pub fn push(&mut self, p: Position) -> Result<(), PushRefusal>
        requires { IsPosition p }
        ensures { MatchResult result
            (λ _. (refusal_of self.old p ≡ None) × (self.new ≡ self.old ++ p ∷ []))
            (λ e. IsPushRefusal self.old p e × (self.new ≡ self.old)) }
    {
        // so each kind of position has steps of its own, which do not ask for the kind again
        match p {
            Position::Hold(size) => self.push_one(Position::Hold(size)),
            Position::Task { extra, share, time } => {
                self.push_one(Position::Task { extra, share, time })
            }
            Position::Par(parts) => self.push_one(Position::Par(parts)),
        }
    }

    #[inline(always)]
    fn push_one(&mut self, p: Position) -> Result<(), PushRefusal>
        requires { IsPosition p }
        ensures { MatchResult result
            (λ _. (refusal_of self.old p ≡ None) × (self.new ≡ self.old ++ p ∷ []))
            (λ e. IsPushRefusal self.old p e × (self.new ≡ self.old)) }
    {
        if short(self.ends.len(), p) {
            return Err(PushRefusal::Short);
        }
        if let Some(name) = limit(self.positions.len() as u64, self.tasks, self.total, p) {
            return Err(PushRefusal::Limit(name));
        }
        if overshared(&self.ends, p) {
            return Err(PushRefusal::Share);
        }
        append(&mut self.positions, &mut self.ends, p)?;
        self.tasks += tasks_of_position(p);
        self.total += size(p);
        Ok(())
    }

    /// The terms, or the builder back where its positions do not leave one term.
    pub fn finish(self) -> Result<TermList, TermBuilder>
        ensures { MatchResult result (λ terms. IsOneTerm self × (terms ≡ self)) (λ back. (IsOneTerm self → ⊥) × (back ≡ self)) }
    {
        if self.ends.len() == 1 {
            Ok(TermList::new(self.positions))
        } else {
            Err(self)
        }
    }
}

/// How many tasks a position is: 1 for a task, 0 for a data item and for a `Par`.
#[inline(always)]
pub fn tasks_of_position(p: Position) -> u64
    ensures { result ≡ added_tasks p }
{
    match p {
        Position::Task { .. } => 1,
        _ => 0,
    }
}

// What a position adds to the total.
#[inline(always)]
fn size(p: Position) -> u64
    ensures { result ≡ added_size p }
{
    match p {
        Position::Hold(size) => size,
        Position::Task { extra, .. } => extra,
        Position::Par(_) => 0,
    }
}

// Whether there are too few terms for a position.
#[inline(always)]
fn short(height: usize, p: Position) -> bool
    ensures { result ≡ is_short height p }
{
    match p {
        Position::Hold(_) => false,
        Position::Task { .. } => height < 2,
        Position::Par(parts) => height < parts as usize,
    }
}

// Whether a size passes the total.
fn sum_limit(total: u64, size: u64) -> Option<LimitName>
    requires total { total ≤ most_total }
    requires size { size ≤ most_size }
    ensures { result ≡ total_limit total size }
{
    if total + size > MOST_TOTAL {
        Some(LimitName::Total)
    } else {
        None
    }
}

// The first limit that a position passes.
#[inline(always)]
fn limit(count: u64, tasks: u64, total: u64, p: Position) -> Option<LimitName>
    requires { total ≤ most_total }
    ensures { result ≡ passed_limit count tasks total p }
{
    if count >= MOST_POSITIONS {
        return Some(LimitName::Positions);
    }
    match p {
        Position::Hold(size) => {
            if size > MOST_SIZE {
                return Some(LimitName::Size);
            }
            sum_limit(total, size)
        }
        Position::Task { extra, time, .. } => {
            if tasks >= MOST_TASKS {
                return Some(LimitName::Tasks);
            }
            if extra > MOST_SIZE {
                return Some(LimitName::Size);
            }
            if time > MOST_TIME {
                return Some(LimitName::Time);
            }
            sum_limit(total, extra)
        }
        Position::Par(_) => None,
    }
}

// Whether a task's share is more than its parts allow.
#[inline(always)]
fn overshared(ends: &[Ends], p: Position) -> bool
    requires long { is_short (length ends.now) p ≡ false }
    requires total { sum_by initial_at ends.now ≤ most_total }
    requires extra { added_size p ≤ most_size }
    ensures { result ≡ over_ends ends.now p }
{
    match p {
        Position::Task { extra, share, .. } => {
            let last = ends.len() - 1;
            ends[last - 1].fin < share || extra + ends[last].initial < share
        }
        _ => false,
    }
}

// Takes a position whose tests are done.
#[inline(always)]
fn append(
    positions: &mut Vec<Position>,
    ends: &mut Vec<Ends>,
    p: Position,
) -> Result<(), AllocError>
    requires asked { IsPosition p }
    requires long { is_short (length ends.old.items) p ≡ false }
    requires initial { sum_by initial_at ends.old.items ≤ most_total }
    requires fin { sum_by fin_at ends.old.items ≤ most_total }
    ensures positions { MatchResult result
        (λ _. positions.new.items ≡ positions.old.items ++ p ∷ [])
        (λ _. positions.new.items ≡ positions.old.items) }
    ensures ends { MatchResult result (λ _. ends.new.items ≡ next_ends p ends.old.items) (λ _. ends.new.items ≡ ends.old.items) }
{
    match p {
        Position::Hold(size) => {
            ends.push(Ends {
                initial: size,
                fin: size,
            })?;
            if positions.push(p).is_err() {
                ends.pop();
                return Err(AllocError);
            }
        }
        Position::Task { .. } => {
            positions.push(p)?;
            join_two(ends);
        }
        Position::Par(parts) => {
            positions.push(p)?;
            join(ends, parts as usize);
        }
    }
    Ok(())
}

// The last two ends become those of a series.
fn join_two(ends: &mut Vec<Ends>)
    requires { 2 ≤ length ends.old.items }
    ensures { ends.new.items ≡ series_ends ends.old.items }
{
    let last = ends.len() - 1;
    let initial = ends[last - 1].initial;
    let fin = ends[last].fin;
    ends.truncate(last);
    ends[last - 1] = Ends { initial, fin };
}

// The last ends become those of a parallel composition.
fn join(ends: &mut Vec<Ends>, parts: usize)
    requires some { 1 ≤ parts }
    requires long { parts ≤ length ends.old.items }
    requires initial { sum_by initial_at ends.old.items ≤ most_total }
    requires fin { sum_by fin_at ends.old.items ≤ most_total }
    ensures { ends.new.items ≡ par_ends ends.old.items parts }
{
    let base = ends.len() - parts;
    let all = sums(&ends[base..]);
    ends.truncate(base + 1);
    ends[base] = all;
}

// The sums of the ends.
fn sums(ends: &[Ends]) -> Ends
    requires initial { sum_by initial_at ends.now ≤ most_total }
    requires fin { sum_by fin_at ends.now ≤ most_total }
    ensures { result ≡ beside ends.now }
{
    Ends {
        initial: ends.iter().map(|one| one.initial).sum(),
        fin: ends.iter().map(|one| one.fin).sum(),
    }
}
