//! Laws over the definitions: each contract is a law, and each body is empty or names the laws that it stands on.
ghost use Rattle.std.specs.Prelude.{◌≡◌, ℕ, ◌≤◌, ◌<◌, max, List, [], ◌∷◌, ◌++◌};
ghost use Rattle.std.specs.List.{AllByRecursion, concat, range_with_len};
ghost use Rattle.mp_system.specs.Memory.{peak_of};
ghost use Rattle.mp_system.specs.Traversal.{IsTraversal};
ghost use Rattle.mp_system.specs.declared.system.Task.{Task};
ghost use Rattle.side_laws.specs.Levels.{level_sum, AllStart, AreLevels};
ghost use Rattle.side_laws.specs.Merging.{AllRising};
ghost use Rattle.sp_terms.specs.SystemOfTerm.{task_count, system_of_term};
ghost use Rattle.sp_terms.specs.Term.{Term, Parts, hold, series, par, Direction, hill_of, IsAllowed};
ghost use Rattle.cut_laws.specs.Below.{LawsBelow};
ghost use Rattle.cut_laws.specs.Cuts.{Cut, hold_cut, series_cut, par_cut, top_of, front_peak, back_peak, order_of, starts, sides};
ghost use Rattle.cut_laws.specs.Names.{Names, names_of, numbered};
ghost use Rattle.cut_laws.specs.Standing.{StandsFor, AllStandFor};
ghost use Rattle.cut_laws.specs.TermCuts.{cut_of_term};
ghost use Rattle.cut_laws.specs.Tops.{MeetsAtLeast, BothRise, LiesInFirst, LiesInSecond, SomeReaches, tops};

/// The cut that is made of a term from its data items up stands for it, under whatever names of its tasks.
pub fn stands_law()
    ensures { (t : Term) (n : Names t) → IsAllowed t → StandsFor t (names_of t n) (cut_of_term t n) }
{
    below();
}

/// A data item has its cut. Cuts that stand for the two parts of a series, or for parts side by side, make one that stands for the
/// whole, under the names of the parts in their order, and that of the series' own task behind them.
pub fn composition_law()
    ensures hold { (size : ℕ) → StandsFor (hold size) [] (hold_cut size) }
    ensures series { (a : Term) (v : Task) (b : Term) (na nb : List ℕ) (x : ℕ) (ca cb : Cut) → IsAllowed (series a v b) →
        StandsFor a na ca → StandsFor b nb cb → StandsFor (series a v b) (na ++ (nb ++ x ∷ [])) (series_cut ca x (hill_of a v b) cb) }
    ensures par { (ts : Parts) (names : List (List ℕ)) (cs : List Cut) → IsAllowed (par ts) →
        AllStandFor ts names cs → StandsFor (par ts) (concat names) (par_cut cs) }
{
    below();
}

/// A series is cut in the part whose least memory is less, in the first where they are the same. One of its sides is that part's, and
/// the other goes over all else.
pub fn series_law()
    ensures meets { (a b : Cut) (task hill : ℕ) → MeetsAtLeast a → MeetsAtLeast b → MeetsAtLeast (series_cut a task hill b) }
    ensures rising { (a b : Cut) (task hill : ℕ) → BothRise a → BothRise b → BothRise (series_cut a task hill b) }
    ensures first { (a b : Cut) (task hill : ℕ) → MeetsAtLeast a → MeetsAtLeast b → a.fin ≤ hill → b.initial ≤ hill →
        a.least ≤ b.least → LiesInFirst a b hill (series_cut a task hill b) }
    ensures second { (a b : Cut) (task hill : ℕ) → MeetsAtLeast a → MeetsAtLeast b → a.fin ≤ hill → b.initial ≤ hill →
        b.least < a.least → LiesInSecond a b hill (series_cut a task hill b) }
{
    below();
}

/// Where a merged side does not pass below a limit, some part does not pass below that limit less the levels at which the others are
/// stuck. Parts side by side need together at most what each of them needs alone.
pub fn par_law()
    ensures meets { (cs : List Cut) → AllByRecursion MeetsAtLeast cs → MeetsAtLeast (par_cut cs) }
    ensures rising { (cs : List Cut) → BothRise (par_cut cs) }
    ensures some { (d : Direction) (limit : ℕ) (cs : List Cut) (levels : List ℕ) → AreLevels limit 0 (starts d cs) (sides d cs) levels →
        limit ≤ top_of d (par_cut cs) → level_sum (starts d cs) < limit → SomeReaches d limit (level_sum levels) cs levels }
    ensures together { (d : Direction) (cs : List Cut) → AllRising (sides d cs) → AllStart (starts d cs) (sides d cs) →
        top_of d (par_cut cs) ≤ tops d cs }
{
    below();
}

/// Tasks named by their numbers have the names 1, 2 and so on. Under these names a cut's own order is a traversal, whose peak is the
/// greater of the peaks of its sides.
pub fn number_law()
    ensures numbers { (t : Term) (base : ℕ) → names_of t (numbered base t) ≡ range_with_len base (task_count t) }
    ensures order { (t : Term) (c : Cut) → StandsFor t (range_with_len 1 (task_count t)) c →
        IsTraversal (system_of_term t) (order_of c) × (peak_of (system_of_term t) (order_of c) ≡ max (front_peak c) (back_peak c)) }
{}

// The laws of the layers below, in one.
pub(crate) fn below()
    ensures { LawsBelow }
{
    segment_merge::laws::all();
    sp_term_laws::laws::state_law();
    sp_term_laws::laws::run_law();
    sp_term_laws::laws::way_law();
    sp_term_laws::laws::value_law();
    claim_rules::laws::rule_law();
}
