//! Parts in a row, with a task between them, and parts side by side.

ghost use Rattle.std.specs.Prelude.{◌≡◌, ◌⊎◌, ℕ, ◌+◌, ◌<◌, ◌≤◌, max, List, [], ◌∷◌, ◌++◌, sum_by, IfOk, OnOk};
ghost use Rattle.std.specs.List.{concat};
ghost use Rattle.limits.specs.Limits.{most_total};
ghost use Rattle.sp_terms.specs.Term.{Term, series, par, Parts, Direction, IsAllowed};
ghost use Rattle.side_laws.specs.Levels.{level_sum, AreLevels};
ghost use Rattle.hill_valley.specs.Ropes.{Extends};
ghost use Rattle.cut_laws.specs.Cuts.{series_cut, par_cut, top_of, starts, sides};
ghost use Rattle.cut_laws.specs.Standing.{StandsFor, AllStandFor};
ghost use Rattle.cut_laws.specs.Tops.{LiesInFirst, LiesInSecond, SomeReaches};
ghost use Rattle.sp_cuts.specs.Parts.{cut_of, cuts_of, IsPart, AreParts, hill_between, CanJoin, moves_between, CountsMoves, moves_in};
ghost use Rattle.sp_cuts.specs.Splits.{IsRough, AreRough, AreSplit};

use crate::NoMemory;
use crate::hills::{Over, lead_back, lead_over, way_over};
use crate::parts::{Part, hill_between};
use hill_valley::{Ropes, Side};
use mp_system::Task;
use segment_merge::{laws, merge};
use std::alloc::Global;
use std::sync::ledger::Ledger;
use step_count::Steps;

/// The part of a series: a first part, a task that consumes all that it leaves and produces all that the second part starts
/// with, and the second part. The task goes by this name. The cut is that of the part with the lesser least memory, a tie to the first.
/// Each segment that is moved from one side into another is a step. Near linear in the segments that are joined or moved. Where memory is
/// wanting the ropes may hold more, and what was counted stays.
pub fn series<L: Ledger>(
    a: Part,
    name: u32,
    task: Task,
    b: Part,
    ropes: &mut Ropes,
    steps: &mut Steps<L>,
) -> Result<Part, NoMemory>
    requires a { IsPart ropes.old a }
    requires b { IsPart ropes.old b }
    requires joins { CanJoin a task b }
    ensures cut { IfOk result
        (λ p. cut_of ropes.new p ≡ series_cut (cut_of ropes.old a) name (hill_between a task b) (cut_of ropes.old b)) }
    ensures peak { IfOk result (λ p. p.peak ≡ max a.peak (max (hill_between a task b) b.peak)) }
    // one side is that of a part, and the other leads over all else
    ensures kinds { IfOk result (λ p.
        LiesInFirst (cut_of ropes.old a) (cut_of ropes.old b) (hill_between a task b) (cut_of ropes.new p)
        ⊎ LiesInSecond (cut_of ropes.old a) (cut_of ropes.old b) (hill_between a task b) (cut_of ropes.new p)) }
    // parts that stand for terms make one that stands for the series. The tasks keep their names
    ensures stands { IfOk result (λ p. (ta tb : Term) (na nb : List ℕ) → IsAllowed ta → IsAllowed tb
        → StandsFor ta na (cut_of ropes.old a) → StandsFor tb nb (cut_of ropes.old b)
        → StandsFor (series ta task tb) (na ++ (nb ++ name ∷ [])) (cut_of ropes.new p)) }
    ensures part { IfOk result (λ p. IsPart ropes.new p) }
    ensures kept { Extends ropes.old ropes.new }
    ensures steps { steps.new ≤ steps.old + moves_between a b }
    // and exactly the moved segments are counted
    ensures counted { IfOk result (λ p. CountsMoves a b p steps.old steps.new) }
{
    cut_laws::laws::composition_law();
    laws::all();
    let hill = hill_between(&a, &task, &b);
    let part = series_part(a, name, hill, b, ropes, steps)?;
    Ok(part)
}

/// The same for parts whose `peak` is only a bound, as in a pass that asks for no peak but that of the whole: with the memory while the
/// task runs as the hill, from what the first part leaves and what the second starts with on, and at most 2^60. The `peak` of the part is
/// the greatest of the three.
pub fn series_part<L: Ledger>(
    a: Part,
    name: u32,
    hill: u64,
    b: Part,
    ropes: &mut Ropes,
    steps: &mut Steps<L>,
) -> Result<Part, NoMemory>
    requires a { IsRough ropes.old a }
    requires b { IsRough ropes.old b }
    requires after { a.fin ≤ hill }
    requires before { b.initial ≤ hill }
    requires hill { hill ≤ most_total }
    ensures cut { IfOk result (λ p. cut_of ropes.new p ≡ series_cut (cut_of ropes.old a) name hill (cut_of ropes.old b)) }
    ensures peak { IfOk result (λ p. p.peak ≡ max a.peak (max hill b.peak)) }
    ensures kinds { IfOk result (λ p. LiesInFirst (cut_of ropes.old a) (cut_of ropes.old b) hill (cut_of ropes.new p)
        ⊎ LiesInSecond (cut_of ropes.old a) (cut_of ropes.old b) hill (cut_of ropes.new p)) }
    ensures rough { IfOk result (λ p. IsRough ropes.new p) }
    ensures kept { Extends ropes.old ropes.new }
    ensures steps { steps.new ≤ steps.old + moves_between a b }
    ensures counted { IfOk result (λ p. CountsMoves a b p steps.old steps.new) }
{
    let mut whole = a;
    put_behind(&mut whole, name, hill, b, ropes, steps)?;
    Ok(whole)
}

// The same in place: the first part becomes that of the series.
pub(crate) fn put_behind<L: Ledger>(
    a: &mut Part,
    name: u32,
    hill: u64,
    b: Part,
    ropes: &mut Ropes,
    steps: &mut Steps<L>,
) -> Result<(), NoMemory>
    requires a { IsRough ropes.old a.old }
    requires b { IsRough ropes.old b }
    requires after { a.old.fin ≤ hill }
    requires before { b.initial ≤ hill }
    requires hill { hill ≤ most_total }
    ensures cut { OnOk result (cut_of ropes.new a.new ≡ series_cut (cut_of ropes.old a.old) name hill (cut_of ropes.old b)) }
    ensures peak { OnOk result (a.new.peak ≡ max a.old.peak (max hill b.peak)) }
    ensures kinds { OnOk result (LiesInFirst (cut_of ropes.old a.old) (cut_of ropes.old b) hill (cut_of ropes.new a.new)
        ⊎ LiesInSecond (cut_of ropes.old a.old) (cut_of ropes.old b) hill (cut_of ropes.new a.new)) }
    ensures rough { OnOk result (IsRough ropes.new a.new) }
    ensures kept { Extends ropes.old ropes.new }
    ensures steps { steps.new ≤ steps.old + moves_between a.old b }
    ensures counted { OnOk result (CountsMoves a.old b a.new steps.old steps.new) }
{
    cut_laws::laws::series_law();
    laws::all();
    a.peak = a.peak.max(hill).max(b.peak);
    if a.least <= b.least {
        let high = b.front.top(b.initial).max(hill);
        let tasks = way_over(&b.front, name, ropes)?;
        let over = Over {
            hill: high,
            level: a.fin,
            tasks,
        };
        lead_back(b.back, &mut a.back, b.least, over, ropes, steps)?;
        a.fin = b.fin;
        Ok(())
    } else {
        let high = a.back.top(a.fin).max(hill);
        let tasks = way_over(&a.back, name, ropes)?;
        let over = Over {
            hill: high,
            level: b.initial,
            tasks,
        };
        lead_over(&mut a.front, b.front, a.least, over, ropes, steps)?;
        a.back = b.back;
        a.fin = b.fin;
        a.least = b.least;
        Ok(())
    }
}

/// The part of parts side by side, each cut where it is. Their peaks sum to at most 2^60. Each segment that is moved from one side
/// into another is a step: those of all fronts but the longest, and of all backs but the longest. The peak takes linear time in
/// the segments of the whole. Where memory is wanting the ropes may hold more, and what was counted stays.
pub fn parallel<L: Ledger>(
    alloc: Global,
    parts: Vec<Part>,
    ropes: &mut Ropes,
    steps: &mut Steps<L>,
) -> Result<Part, NoMemory>
    requires parts { AreParts ropes.old parts.items }
    requires peaks { sum_by (λ p. p.peak) parts.items ≤ most_total }
    ensures cut { IfOk result (λ p. cut_of ropes.new p ≡ par_cut (cuts_of ropes.old parts.items)) }
    ensures peak { IfOk result (λ p. p.peak ≤ sum_by (λ p. p.peak) parts.items) }
    // where a side of the whole does not pass below a limit, that of some part does not pass below the limit less the others' levels
    ensures levels { IfOk result (λ p. (d : Direction) (limit : ℕ) (levels : List ℕ) → let cuts = cuts_of ropes.old parts.items in
        AreLevels limit 0 (starts d cuts) (sides d cuts) levels → level_sum (starts d cuts) < limit → limit ≤ top_of d (cut_of ropes.new p)
        → SomeReaches d limit (level_sum levels) cuts levels) }
    // parts that stand for terms make one that stands for them side by side. The tasks keep their names
    ensures stands { IfOk result (λ p. (ts : Parts) (names : List (List ℕ)) → IsAllowed (par ts)
        → AllStandFor ts names (cuts_of ropes.old parts.items) → StandsFor (par ts) (concat names) (cut_of ropes.new p)) }
    ensures part { IfOk result (λ p. IsPart ropes.new p) }
    ensures kept { Extends ropes.old ropes.new }
    ensures steps { steps.new ≤ steps.old + moves_in parts.items }
{
    cut_laws::laws::composition_law();
    cut_laws::laws::par_law();
    laws::all();
    let part = parallel_part(alloc, parts, ropes, steps)?;
    Ok(with_peak(part, ropes))
}

// A part whose peak is a bound, with its peak.
pub(crate) fn with_peak(part: Part, ropes: &Ropes) -> Part
    requires rough { IsRough ropes.now part }
    ensures cut { cut_of ropes.now result ≡ cut_of ropes.now part }
    ensures peak { result.peak ≤ part.peak }
    ensures part { IsPart ropes.now result }
{
    laws::all();
    let peak = part.front.top(part.initial).max(part.back.top(part.fin));
    Part { peak, ..part }
}

/// The same for parts whose `peak` is only a bound. The `peak` of the part is their sum, and takes no time.
pub fn parallel_part<L: Ledger>(
    alloc: Global,
    parts: Vec<Part>,
    ropes: &mut Ropes,
    steps: &mut Steps<L>,
) -> Result<Part, NoMemory>
    requires parts { AreRough ropes.old parts.items }
    requires peaks { sum_by (λ p. p.peak) parts.items ≤ most_total }
    ensures cut { IfOk result (λ p. cut_of ropes.new p ≡ par_cut (cuts_of ropes.old parts.items)) }
    ensures peak { IfOk result (λ p. p.peak ≡ sum_by (λ p. p.peak) parts.items) }
    ensures rough { IfOk result (λ p. IsRough ropes.new p) }
    ensures kept { Extends ropes.old ropes.new }
    ensures steps { steps.new ≤ steps.old + moves_in parts.items }
{
    cut_laws::laws::par_law();
    laws::all();
    let apart = split(alloc, parts)?;
    let front = merge(alloc, apart.fronts, ropes, steps)?;
    let back = merge(alloc, apart.backs, ropes, steps)?;
    Ok(Part {
        front,
        back,
        initial: apart.initial,
        fin: apart.fin,
        least: apart.least,
        peak: apart.peak,
    })
}

// The sides of parts, and the sums of their numbers.
#[derive(Drop)]
struct Apart {
    fronts: Vec<Side>,
    backs: Vec<Side>,
    initial: u64,
    fin: u64,
    least: u64,
    peak: u64,
}

fn split(alloc: Global, parts: Vec<Part>) -> Result<Apart, NoMemory>
    requires initial { sum_by (λ p. p.initial) parts.items ≤ most_total }
    requires fin { sum_by (λ p. p.fin) parts.items ≤ most_total }
    requires least { sum_by (λ p. p.least) parts.items ≤ most_total }
    requires peak { sum_by (λ p. p.peak) parts.items ≤ most_total }
    ensures { IfOk result (λ s. AreSplit parts.items s.fronts.items s.backs.items s.initial s.fin s.least s.peak) }
{
    let mut fronts = Vec::with_capacity(alloc, parts.len())?;
    let mut backs = Vec::with_capacity(alloc, parts.len())?;
    let mut start = 0;
    let mut end = 0;
    let mut least = 0;
    let mut peak = 0;
    for part in parts {
        fronts.push(part.front)?;
        backs.push(part.back)?;
        start += part.initial;
        end += part.fin;
        least += part.least;
        peak += part.peak;
    }
    Ok(Apart {
        fronts,
        backs,
        initial: start,
        fin: end,
        least,
        peak,
    })
}
