//! Laws of rounds: what holds of them, without a call.
ghost use Rattle.std.specs.Prelude.{◌≡◌, ◌-◌, ◌≤◌, ℕ, Bool, List, drop};
ghost use Rattle.activation.specs.Machine.{Setting, IsSetting};
ghost use Rattle.activation.specs.Schedule.{HoldsEach};
ghost use Rattle.assembly_tree.specs.Assembly.{AssemblyTree, IsAssembly, IsSuper};
ghost use Rattle.assembly_tree.specs.Supernodes.{AreSupernodes, first_of, last_of};
ghost use Rattle.elim_tree.specs.Paths.{IsWithin};
ghost use Rattle.ordering.specs.Fill.{IsAdjacency, parents_of, counts_of};
ghost use Rattle.rounds_run.specs.FrontRows.{rows_of_front};
ghost use Rattle.rounds_run.specs.RowSystem.{row_peak, row_setting};
ghost use Rattle.rounds_run.specs.Rounds.{AreRounds};

use activation::laws::schedule_law;
use elim_tree::laws::{no_earlier_row, path_theorem, structure_by_children};
use trees::laws::tree_system;

/// A setting has one list of rounds, and one greatest use.
pub fn one_list_of_rounds()
    ensures rounds { (c : Setting) (one two : List (List ℕ)) (used more : ℕ) → IsSetting c → HoldsEach c.system c.order →
        AreRounds c one used → AreRounds c two more → one ≡ two }
    ensures used { (c : Setting) (one two : List (List ℕ)) (used more : ℕ) → IsSetting c → HoldsEach c.system c.order →
        AreRounds c one used → AreRounds c two more → used ≡ more }
{
    schedule_law();
}

/// The fronts of an assembly tree have one list of rounds, and one greatest use, which is within the bound.
pub fn rounds_of_assembly()
    ensures rounds { (assembly : AssemblyTree) (bound workers : ℕ) (one two : List (List ℕ)) (used more : ℕ) → IsAssembly assembly →
        row_peak assembly.supers ≤ bound → 1 ≤ workers → AreRounds (row_setting assembly.supers bound workers) one used →
        AreRounds (row_setting assembly.supers bound workers) two more → one ≡ two }
    ensures used { (assembly : AssemblyTree) (bound workers : ℕ) (one two : List (List ℕ)) (used more : ℕ) → IsAssembly assembly →
        row_peak assembly.supers ≤ bound → 1 ≤ workers → AreRounds (row_setting assembly.supers bound workers) one used →
        AreRounds (row_setting assembly.supers bound workers) two more → used ≡ more }
    ensures within { (c : Setting) (rounds : List (List ℕ)) (used : ℕ) → AreRounds c rounds used → used ≤ c.bound }
{
    tree_system();
    one_list_of_rounds();
}

/// The structure of each column of a supernode is the rows of its front from this column on.
pub fn columns_of_front()
    ensures { (joined : ℕ → ℕ → Bool) (n : ℕ) (assembly : AssemblyTree) (s j : ℕ) → IsAdjacency joined → IsWithin n joined →
        AreSupernodes (parents_of joined n) (counts_of joined n) assembly → IsSuper assembly.supers s →
        first_of assembly.supers s ≤ j → j ≤ last_of assembly.supers s →
        rows_of_front joined n j ≡ drop (j - first_of assembly.supers s) (rows_of_front joined n (first_of assembly.supers s)) }
{
    structure_by_children();
    path_theorem();
    no_earlier_row();
}
