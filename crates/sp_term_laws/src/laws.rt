//! Laws over the definitions: each contract is a law, and each body is empty.
ghost use Rattle.std.specs.Prelude.{◌≡◌, ℕ, ◌+◌, ◌≤◌, ◌<◌, max, List, [], ◌++◌, ◌∷◌, reverse, ◌↔◌};
ghost use Rattle.std.proofs.Common.{inl, inr};
ghost use Rattle.mp_system.specs.declared.system.Task.{Task};
ghost use Rattle.mp_system.specs.Memory.{peak_from, peak_of};
ghost use Rattle.mp_system.specs.Traversal.{IsTraversal};
ghost use Rattle.sp_terms.specs.Term.{Term, Parts, part, series, par, Direction, forward, backward, first_memory, initial_of};
ghost use Rattle.sp_terms.specs.Term.{final_of, least_of, hill_of, IsAllowed};
ghost use Rattle.sp_terms.specs.SystemOfTerm.{task_count, task_count_of_parts, system_of_term};
ghost use Rattle.sp_term_laws.specs.Along.{memory_after, memory_while};
ghost use Rattle.sp_term_laws.specs.Interleaved.{AreWithin, EachTraversal};
ghost use Rattle.sp_term_laws.specs.Moves.{State, States, other, memory_of, memory_of_parts, first_state, Step, Reached};
ghost use Rattle.sp_term_laws.specs.Ways.{Run, Way, Ways};
ghost use Rattle.sp_term_laws.specs.Composed.{own_task, in_turn, parts_memory, parts_running};

/// The traversals of a series are a traversal of its first part, then its task, then a traversal of its second part; those of
/// parts side by side are the interleavings of one traversal of each part.
pub fn traversal_law()
    ensures series { (a : Term) (v : Task) (b : Term) → IsAllowed (series a v b) → (order : List ℕ) →
        IsTraversal (system_of_term (series a v b)) order
        ↔ ((p q : List ℕ) × IsTraversal (system_of_term a) p × IsTraversal (system_of_term b) q × (order ≡ in_turn a b p q)) }
    ensures par { (ts : Parts) → IsAllowed (par ts) → (order : List ℕ) →
        IsTraversal (system_of_term (par ts)) order ↔ (AreWithin 1 (task_count_of_parts ts) order × EachTraversal 1 ts order) }
{}

/// The states and the running tasks of a series have the memory that they have in its parts; while its own task runs, the memory is
/// the hill.
pub fn series_law()
    ensures first { (a : Term) (v : Task) (b : Term) (done rest : List ℕ) → IsTraversal (system_of_term a) (done ++ rest) →
        memory_after (system_of_term (series a v b)) done ≡ memory_after (system_of_term a) done }
    ensures first_running { (a : Term) (v : Task) (b : Term) (done rest : List ℕ) (u : ℕ) →
        IsTraversal (system_of_term a) (done ++ u ∷ rest) →
        memory_while (system_of_term (series a v b)) done u ≡ memory_while (system_of_term a) done u }
    ensures own { (a : Term) (v : Task) (b : Term) (p : List ℕ) → IsAllowed a → IsTraversal (system_of_term a) p →
        memory_while (system_of_term (series a v b)) p (own_task a b) ≡ hill_of a v b }
    ensures second { (a : Term) (v : Task) (b : Term) (p done rest : List ℕ) →
        IsTraversal (system_of_term a) p → IsTraversal (system_of_term b) (done ++ rest) →
        memory_after (system_of_term (series a v b)) (in_turn a b p done) ≡ memory_after (system_of_term b) done }
    ensures second_running { (a : Term) (v : Task) (b : Term) (p done rest : List ℕ) (u : ℕ) →
        IsTraversal (system_of_term a) p → IsTraversal (system_of_term b) (done ++ u ∷ rest) →
        memory_while (system_of_term (series a v b)) (in_turn a b p done) (task_count a + u) ≡ memory_while (system_of_term b) done u }
{}

/// A state of parts side by side has the memory of the parts' states, and a running task adds the other parts' states.
pub fn par_law()
    ensures states { (ts : Parts) (done : List ℕ) → memory_after (system_of_term (par ts)) done ≡ parts_memory 1 ts done }
    ensures running { (ts : Parts) (done : List ℕ) (v : ℕ) → 1 ≤ v → v ≤ task_count_of_parts ts →
        memory_while (system_of_term (par ts)) done v ≡ parts_running 1 ts done v }
{}

/// The traversals of a term's system are the ways through its states from the first to the last, and the peak of a traversal is the
/// greatest memory of its way. A traversal that is cut is a way from the first state and one to the last, and the other way round.
pub fn run_law()
    ensures traversal { (t : Term) → IsAllowed t → (order : List ℕ) → IsTraversal (system_of_term t) order →
        Way forward 1 t (first_state forward t) order (peak_of (system_of_term t) order) (first_state backward t) }
    ensures way { (t : Term) → IsAllowed t → (order : List ℕ) (peak : ℕ) →
        Way forward 1 t (first_state forward t) order peak (first_state backward t) →
        IsTraversal (system_of_term t) order × (peak ≡ peak_of (system_of_term t) order) }
    ensures cut { (t : Term) → IsAllowed t → (done rest : List ℕ) → IsTraversal (system_of_term t) (done ++ rest) →
        (s : State t) × (memory_after (system_of_term t) done ≡ memory_of t s)
        × Way forward 1 t (first_state forward t) done (peak_of (system_of_term t) done) s
        × Way forward 1 t s rest (peak_from (system_of_term t) done rest) (first_state backward t) }
    ensures joined { (t : Term) → IsAllowed t → (s : State t) (done rest : List ℕ) (before after : ℕ) →
        Way forward 1 t (first_state forward t) done before s → Way forward 1 t s rest after (first_state backward t) →
        IsTraversal (system_of_term t) (done ++ rest) × (memory_after (system_of_term t) done ≡ memory_of t s)
        × (before ≡ peak_of (system_of_term t) done) × (after ≡ peak_from (system_of_term t) done rest) }
{}

/// Ways in a row are a way, and the way back is one in the other direction. Every state is come to from both ends. What is reached
/// below a limit is what a way below it leads to.
pub fn way_law()
    ensures joined { (d : Direction) (base : ℕ) (t : Term) (s m u : State t) (xs ys : List ℕ) (h k : ℕ) →
        Way d base t s xs h m → Way d base t m ys k u → Way d base t s (xs ++ ys) (max h k) u }
    ensures back { (d : Direction) (base : ℕ) (t : Term) (s u : State t) (xs : List ℕ) (h : ℕ) →
        Way d base t s xs h u → Way (other d) base t u (reverse xs) h s }
    ensures each { (d : Direction) (base : ℕ) (t : Term) (s : State t) →
        (xs : List ℕ) × (h : ℕ) × Way d base t (first_state d t) xs h s }
    ensures reached { (d : Direction) (t : Term) (limit : ℕ) (s : State t) →
        Reached d t limit s ↔ ((xs : List ℕ) × (h : ℕ) × Way d 1 t (first_state d t) xs h s × (h < limit)) }
    ensures step { (d : Direction) (base : ℕ) (t : Term) (s u : State t) (r : ℕ) →
        Step d t s r u ↔ ((v : ℕ) × Run d base t s v r u) }
{}

/// The ways of the parts are ways of the whole.
pub fn part_way_law()
    ensures first { (d : Direction) (base : ℕ) (a : Term) (v : Task) (b : Term) (s u : State a) (xs : List ℕ) (h : ℕ) →
        Way d base a s xs h u → Way d base (series a v b) (inl s) xs h (inl u) }
    ensures second { (d : Direction) (base : ℕ) (a : Term) (v : Task) (b : Term) (s u : State b) (xs : List ℕ) (h : ℕ) →
        Way d (base + task_count a) b s xs h u → Way d base (series a v b) (inr s) xs h (inr u) }
    ensures par { (d : Direction) (base : ℕ) (ts : Parts) (s u : States ts) (xs : List ℕ) (h : ℕ) →
        Ways d base ts s xs h u → Way d base (par ts) s xs h u }
    ensures head { (d : Direction) (base : ℕ) (t : Term) (ts : Parts) (s u : State t) (others : States ts) (xs : List ℕ) (h : ℕ) →
        Way d base t s xs h u → Ways d base (part t ts) (s, others) xs (h + memory_of_parts ts others) (u, others) }
    ensures tail { (d : Direction) (base : ℕ) (t : Term) (ts : Parts) (s : State t) (before after : States ts) (xs : List ℕ) (h : ℕ) →
        Ways d (base + task_count t) ts before xs h after →
        Ways d base (part t ts) (s, before) xs (memory_of t s + h) (s, after) }
    ensures parts_joined { (d : Direction) (base : ℕ) (ts : Parts) (s m u : States ts) (xs ys : List ℕ) (h k : ℕ) →
        Ways d base ts s xs h m → Ways d base ts m ys k u → Ways d base ts s (xs ++ ys) (max h k) u }
{}

/// The states of a term: the first one in each direction has its value, each has at least the least, which one has; a step back is
/// one in the other direction; a running task's memory is at least that of the states before and after it.
pub fn state_law()
    ensures first { (d : Direction) (t : Term) → memory_of t (first_state d t) ≡ first_memory d t }
    ensures least { (t : Term) (s : State t) → least_of t ≤ memory_of t s }
    ensures some { (t : Term) → (s : State t) × (memory_of t s ≡ least_of t) }
    ensures back { (d : Direction) (t : Term) (s u : State t) (r : ℕ) → Step d t s r u → Step (other d) t u r s }
    ensures running { (d : Direction) (t : Term) (s u : State t) (r : ℕ) → IsAllowed t → Step d t s r u →
        (memory_of t s ≤ r) × (memory_of t u ≤ r) }
{}

/// The first state has the initial memory, the last one the final memory, and each at least the least, which one has.
pub fn value_law()
    ensures first { (t : Term) → IsAllowed t → memory_after (system_of_term t) [] ≡ initial_of t }
    ensures last { (t : Term) → IsAllowed t → (order : List ℕ) →
        IsTraversal (system_of_term t) order → memory_after (system_of_term t) order ≡ final_of t }
    ensures each { (t : Term) → IsAllowed t → (done rest : List ℕ) →
        IsTraversal (system_of_term t) (done ++ rest) → least_of t ≤ memory_after (system_of_term t) done }
    ensures some { (t : Term) → IsAllowed t →
        (done rest : List ℕ) × IsTraversal (system_of_term t) (done ++ rest) × (memory_after (system_of_term t) done ≡ least_of t) }
{}
