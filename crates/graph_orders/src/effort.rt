//! How much is searched: a count of steps, never a clock.

/// Steps that were taken, and how many may be.
#[derive(Clone, Copy, Drop)]
pub struct Effort {
    taken: u64,
    most: u64,
}

impl Effort {
    /// So many steps may be taken.
    pub fn new(most: u64) -> Effort {
        Effort { taken: 0, most }
    }

    /// So many more are taken.
    #[inline]
    pub fn spend(&mut self, steps: usize) {
        self.taken = self.taken.saturating_add(steps as u64);
    }

    /// An effort of its own, of so many steps at most, and no more than are left.
    pub fn part(&self, most: u64) -> Effort {
        Effort::new(self.left().min(most))
    }

    /// What a search of a part spent counts as well.
    pub fn add(&mut self, part: Effort) {
        self.taken = self.taken.saturating_add(part.taken);
    }

    /// Whether no more may be taken.
    #[inline]
    pub fn is_spent(&self) -> bool {
        self.taken >= self.most
    }

    /// How many may still be taken.
    #[inline]
    pub fn left(&self) -> u64 {
        self.most.saturating_sub(self.taken)
    }
}
