ghost use Rattle.std.specs.Prelude.{◌≡◌, ◌-◌, ◌≤◌, ◌<◌, ◌^◌, length, slice_index_or, []};
ghost use Rattle.rounds_run.specs.FrontRows.{list_of_front};
ghost use Rattle.rounds_run.specs.Fronts.{FrontsValue};

use row_table::NumberList;
use std::marker::Model;

/// The rows of all fronts, and the rounds in which they were made. Fronts have the numbers of their supernodes, from 1.
#[derive(Drop)]
pub struct Fronts {
    // by number, from the first on
    rows: Vec<NumberList>,
    rounds: Vec<NumberList>,
    used: u64,
}

impl Model for Fronts {
    ghost Value = { FrontsValue };

    ghost view = { λ f. record { rows = f.rows.items; rounds = f.rounds.items; used = f.used } };

    ghost invariant = { λ f. (length f.rows.items < 2 ^ 32) × (length f.rounds.items < 2 ^ 32) };
}

impl Fronts {
    // The one place where fronts are made.
    pub(crate) fn of(rows: Vec<NumberList>, rounds: Vec<NumberList>, used: u64) -> Fronts
        requires { (length rows.items < 2 ^ 32) × (length rounds.items < 2 ^ 32) }
        ensures { result ≡ record { rows = rows.items; rounds = rounds.items; used = used } }
    {
        Fronts { rows, rounds, used }
    }

    /// How many fronts there are.
    pub fn len(&self) -> u32
        ensures { result ≡ length self.now.rows }
    {
        self.rows.len() as u32
    }

    /// The rows of the front of supernode `s`: columns of the matrix, from 1, in rising order, those of the supernode first.
    pub fn rows(&self, s: u32) -> &[u32]
        requires { (1 ≤ s) × (s ≤ length self.now.rows) }
        ensures { result.now ≡ list_of_front self.now.rows s }
    {
        self.rows[s as usize - 1].as_slice()
    }

    /// How many rounds there were.
    pub fn rounds(&self) -> u32
        ensures { result ≡ length self.now.rounds }
    {
        self.rounds.len() as u32
    }

    /// The fronts of round `r`, from 1, in the order in which they started.
    pub fn round(&self, r: u32) -> &[u32]
        requires { (1 ≤ r) × (r ≤ length self.now.rounds) }
        ensures { result.now ≡ list_of_front self.now.rounds r }
    {
        self.rounds[r as usize - 1].as_slice()
    }

    /// The greatest number of rows that was used at once, of lists that were left to a parent and of fronts that were being made.
    pub fn used(&self) -> u64
        ensures { result ≡ self.now.used }
    {
        self.used
    }
}
