ghost use Rattle.std.specs.Prelude.{◌≡◌, ◌≤◌, ◌<◌, ℕ, List, Option, IfOk, OnErr, length, take};
ghost use Rattle.mp_outside.specs.Outside.{Rose, LoadsTold, Appended};

/// A load or a write failed, and the object counted it.
#[derive(Clone, Copy, Debug, PartialEq, Eq)]
pub struct Failed;

/// Files, read by their names.
pub trait Files {
    /// The contents of a name, where the object tells them.
    ghost bytes_of: { Self → List ℕ → Option (List ℕ) };

    /// The faults of a name so far.
    ghost faults_of: { Self → List ℕ → ℕ };

    /// Puts the bytes of a file, from byte `place` on (the first is byte 0), into the front of
    /// `buf`, and answers how many: at most `buf.len()`, and none exactly past the end of the
    /// file, unless `buf` is empty. After `Failed` the buffer may hold anything.
    fn load(&mut self, name: &str, place: u64, buf: &mut [u8]) -> Result<u64, Failed>
        ensures bound { IfOk result (λ n. n ≤ length buf.new) }
        ensures bytes { IfOk result (λ n. LoadsTold (bytes_of self.old name.now) place n buf.new) }

        // a load changes no contents, and only raises counts
        ensures same { (other : List ℕ) → bytes_of self.new other ≡ bytes_of self.old other }
        ensures later { (other : List ℕ) → faults_of self.old other ≤ faults_of self.new other }
        ensures cause { OnErr result (Rose (faults_of self.old name.now) (faults_of self.new name.now)) };
}

/// Where a report goes.
pub trait Sink {
    /// The bytes taken so far, where the object tells them.
    ghost written: { Self → Option (List ℕ) };

    /// The faults so far.
    ghost faults: { Self → ℕ };

    /// Takes bytes from the front of `piece`, and answers how many: at least one of a piece that
    /// is not empty. `Failed` took none.
    fn write(&mut self, piece: &[u8]) -> Result<u64, Failed>
        ensures bound { IfOk result (λ n. n ≤ length piece.now) }
        ensures some { IfOk result (λ n. 0 < length piece.now → 0 < n) }
        ensures bytes { IfOk result (λ n. Appended (written self.old) (written self.new) (take n piece.now)) }
        ensures err { OnErr result (written self.new ≡ written self.old) }
        ensures later { faults self.old ≤ faults self.new }
        ensures cause { OnErr result (Rose (faults self.old) (faults self.new)) };
}

/// What a worker thread calls at the start of each chunk of its work. It changes no value: a test
/// holds threads back in it.
pub trait Gate: Sync {
    /// Called at the start of the chunk with this number; chunks are numbered from 0.
    fn enter(&self, chunk: u32);
}

/// A gate that returns at once.
#[derive(Clone, Copy, Debug)]
pub struct NoGate;

unsafe impl Sync for NoGate {}

impl Gate for NoGate {
    fn enter(&self, _chunk: u32) {}
}

#[cfg(test)]
mod tests {
    use super::*;

    #[test]
    fn no_gate_returns() {
        NoGate.enter(0);
    }
}
