//! Laws over the definitions: each contract is a law, and each body is empty.
ghost use Rattle.std.specs.Prelude.{ℕ, List, map};
ghost use Rattle.mp_system.specs.System.{TaskSystem};
ghost use Rattle.mp_system.specs.Renaming.{IsRenamed, name_in};
ghost use Rattle.sp_terms.specs.Term.{Term, IsAllowed};
ghost use Rattle.sp_terms.specs.SystemOfTerm.{system_of_term};
ghost use Rattle.shared_systems.specs.OneReader.{shared_of};
ghost use Rattle.shared_systems.specs.Paths.{IsRealizer};
ghost use Rattle.term_orders.specs.TermOrders.{order_of};
ghost use Rattle.term_orders.specs.declared.side.Side.TheVariants.{FirstPart, LastPart};

/// The order of a term from left to right, and the one with the parts side by side from right to left, are two traversals of its system
/// that tell which tasks come after which.
pub fn realizer_law()
    ensures { (t : Term) → IsAllowed t → IsRealizer (shared_of (system_of_term t)) (order_of FirstPart 1 t) (order_of LastPart 1 t) }
{}

/// Two traversals that tell which tasks come after which do so under other names.
pub fn naming_law()
    ensures { (names : List ℕ) (own named : TaskSystem) (first second : List ℕ) → IsRenamed names own named →
        IsRealizer (shared_of own) first second →
        IsRealizer (shared_of named) (map (name_in names) first) (map (name_in names) second) }
{}
