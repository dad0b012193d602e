//! Two parts side by side, in place.

ghost use Rattle.std.specs.Prelude.{◌≡◌, ◌+◌, ◌≤◌, min, [], ◌∷◌, length, OnOk};
ghost use Rattle.limits.specs.Limits.{most_total};
ghost use Rattle.side_laws.specs.Segments.{net_sum};
ghost use Rattle.hill_valley.specs.Ropes.{Extends};
ghost use Rattle.hill_valley.specs.Side.{profile, HaveRopes, runs_of};
ghost use Rattle.segment_merge.specs.Merging.{merge_runs};
ghost use Rattle.cut_laws.specs.Cuts.{par_cut};
ghost use Rattle.sp_cuts.specs.Parts.{cut_of, cuts_of, moves_in};
ghost use Rattle.sp_cuts.specs.Splits.{IsRough};

use crate::NoMemory;
use crate::parts::Part;
use hill_valley::{Ropes, Side};
use segment_merge::{laws, move_all};
use std::mem;
use std::sync::ledger::Ledger;
use step_count::Steps;

// Sets a second part beside a first one, which becomes that of both. Two are what most parts side by side are.
pub(crate) fn put_beside<L: Ledger>(
    a: &mut Part,
    b: Part,
    ropes: &mut Ropes,
    steps: &mut Steps<L>,
) -> Result<(), NoMemory>
    requires a { IsRough ropes.old a.old }
    requires b { IsRough ropes.old b }
    requires peaks { a.old.peak + b.peak ≤ most_total }
    ensures cut { OnOk result (cut_of ropes.new a.new ≡ par_cut (cuts_of ropes.old (a.old ∷ b ∷ []))) }
    ensures peak { OnOk result (a.new.peak ≡ a.old.peak + b.peak) }
    ensures rough { OnOk result (IsRough ropes.new a.new) }
    ensures kept { Extends ropes.old ropes.new }
    ensures steps { steps.new ≤ steps.old + moves_in (a.old ∷ b ∷ []) }
{
    cut_laws::laws::par_law();
    laws::all();
    merge_two(&mut a.front, b.front, ropes, steps)?;
    merge_two(&mut a.back, b.back, ropes, steps)?;
    a.initial += b.initial;
    a.fin += b.fin;
    a.least += b.least;
    a.peak += b.peak;
    Ok(())
}

// Puts the segments of two sides together: the shorter side is moved, the later one of two that are alike.
fn merge_two<L: Ledger>(
    earlier: &mut Side,
    later: Side,
    ropes: &mut Ropes,
    steps: &mut Steps<L>,
) -> Result<(), NoMemory>
    requires earlier { HaveRopes ropes.old earlier.old }
    requires later { HaveRopes ropes.old later }
    requires net { net_sum (profile later) + net_sum (profile earlier.old) ≤ most_total }
    ensures segments { OnOk result (
        runs_of ropes.new earlier.new ≡ merge_runs (runs_of ropes.old earlier.old ∷ runs_of ropes.old later ∷ [])) }
    ensures ropes { OnOk result (HaveRopes ropes.new earlier.new) }
    ensures kept { Extends ropes.old ropes.new }
    ensures steps { steps.new ≤ steps.old + min (length earlier.old) (length later) }
{
    laws::all();
    earlier.keeps();
    later.keeps();
    if earlier.len() < later.len() {
        let shorter = mem::replace(earlier, later);
        move_all(shorter, earlier, true, ropes, steps)?;
    } else if 0 < later.len() {
        move_all(later, earlier, false, ropes, steps)?;
    }
    Ok(())
}
