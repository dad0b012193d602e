//! How much is searched: a count of steps, never a clock.

/// Steps that were taken, and how many may be.
#[derive(Clone, Copy, Drop)]
pub struct Effort {
    taken: u64,
    most: u64,
}

impl Effort {
    /// So many steps may be taken.
    pub fn new(most: u64) -> Effort {
        Effort { taken: 0, most }
    }

    /// So many steps may be taken from now on.
    pub fn allow(&mut self, most: u64) {
        self.taken = 0;
        self.most = most;
    }

    /// So many more are taken.
    #[inline]
    pub fn spend(&mut self, steps: u64) {
        self.taken = self.taken.saturating_add(steps);
    }

    /// Whether no more may be taken.
    #[inline]
    pub fn is_spent(&self) -> bool {
        self.taken >= self.most
    }

    /// How many may still be taken.
    #[inline]
    pub fn left(&self) -> u64 {
        self.most.saturating_sub(self.taken)
    }

    /// How many were taken since it was last said how many may be.
    pub fn taken(&self) -> u64 {
        self.taken
    }
}
