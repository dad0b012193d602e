ghost use Rattle.std.specs.Prelude.{◌≡◌, ◌≤◌, ◌-◌, List, length, slice_index_or};
ghost use Rattle.sp_terms.specs.Values.{IsTerms};
ghost use Rattle.sp_terms.specs.declared.position.Position.{Position};

use crate::position::Position;
use std::marker::Model;

/// A list of positions in postfix order that denotes one term by the stack rule, with no more positions, tasks, and sizes in all than the
/// limits, and no size or time greater. The tasks are numbered from 1 in the order of their positions.
#[derive(Drop)]
pub struct TermList {
    positions: Vec<Position>,
}

impl Model for TermList {
    ghost Value = { List Position };

    ghost view = { λ t. t.positions.items };

    ghost invariant = { λ t. IsTerms t.positions.items };
}

impl TermList {
    /// The term of these positions.
    pub fn new(positions: Vec<Position>) -> TermList
        requires { IsTerms positions.items }
        ensures { result ≡ positions.items }
    {
        TermList { positions }
    }

    /// What every value of this type keeps; a proof that needs it calls it. It does nothing.
    pub fn keeps(&self)
        ensures { IsTerms self.now }
    {
        let _ = &self.positions;
    }

    /// The number of positions, at least 1.
    pub fn len(&self) -> u32
        ensures value { result ≡ length self.now }
        ensures terms { IsTerms self.now }
    {
        self.positions.len() as u32
    }

    /// A position, counted from 1.
    pub fn at(&self, position: u32) -> Position
        requires { (1 ≤ position) × (position ≤ length self.now) }
        ensures { (d : Position) → result ≡ slice_index_or self.now (position - 1) d }
    {
        self.positions[position as usize - 1]
    }

    /// All positions.
    pub fn positions(&self) -> &[Position]
        ensures value { result.now ≡ self.now }
        ensures terms { IsTerms self.now }
    {
        &self.positions
    }
}
