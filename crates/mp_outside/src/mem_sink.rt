ghost use Rattle.std.specs.Prelude.{◌≡◌, ◌≤◌, ◌<◌, ◌+◌, ◌↔◌, ◌++◌, ◌∷◌, [], ℕ, List, Some, IfOk, IsErr, OnOk, OnErr, length, take, min};
ghost use Rattle.std.specs.Prelude.{vec_len, vec_capacity};
ghost use Rattle.mp_outside.specs.Outside.{Appended, Rose};
ghost use Rattle.mp_outside.specs.MemSink.{SinkState, empty_sink, WriteFails, after_fault, after_taking};

use crate::NoMemory;
use crate::calls::is_listed;
use crate::traits::{Failed, Sink};
use std::alloc::Global;
use std::marker::Model;

/// A sink in memory, which tells what it took, takes it in pieces and fails where it is told to.
#[derive(Drop)]
pub struct MemSink {
    taken: Vec<u8>,
    room: u64,
    most: u64,
    calls: u64,
    failing: Vec<u64>,
    faults: u64,
}

impl Model for MemSink {
    ghost Value = { SinkState };

    ghost view = { λ m. record {
      taken = m.taken.items;
      room = m.room;
      most = m.most;
      calls = m.calls;
      failing = m.failing.items;
      faults = m.faults;
    } };

    ghost invariant = { λ m. (0 < m.most) × (vec_len m.taken + m.room ≤ vec_capacity m.taken) };
}

impl MemSink {
    /// An empty sink that can take `room` bytes. No write is to fail, and a write takes as many
    /// bytes as there is room for.
    pub fn new(alloc: Global, room: u64) -> Result<MemSink, NoMemory>
        ensures { IfOk result (λ m. m ≡ empty_sink room) }
    {
        Ok(MemSink {
            taken: Vec::with_capacity(alloc, room as usize)?,
            room,
            most: u64::MAX,
            calls: 0,
            failing: Vec::new(alloc),
            faults: 0,
        })
    }

    /// Lets the write with this number fail. Writes are numbered from 1.
    pub fn fail_at(&mut self, call: u64) -> Result<(), NoMemory>
        ensures ok { OnOk result (self.new ≡ record self.old { failing = self.old.failing ++ call ∷ [] }) }
        ensures err { OnErr result (self.new ≡ self.old) }
    {
        Ok(self.failing.push(call)?)
    }

    /// Lets no write take more than so many bytes.
    pub fn piece(&mut self, most: u64)
        requires { 0 < most }
        ensures { self.new ≡ record self.old { most = most } }
    {
        self.most = most;
    }

    /// The bytes taken.
    pub fn written(&self) -> &[u8]
        ensures { result.now ≡ self.now.taken }
    {
        &self.taken
    }
}

impl Sink for MemSink {
    ghost written = { λ m. Some m.taken };

    ghost faults = { λ m. m.faults };

    fn write(&mut self, piece: &[u8]) -> Result<u64, Failed>
        ensures bound { IfOk result (λ n. n ≤ length piece.now) }
        ensures some { IfOk result (λ n. 0 < length piece.now → 0 < n) }
        ensures bytes { IfOk result (λ n. Appended (Some self.old.taken) (Some self.new.taken) (take n piece.now)) }
        ensures err { OnErr result (Some self.new.taken ≡ Some self.old.taken) }
        ensures later { self.old.faults ≤ self.new.faults }
        ensures cause { OnErr result (Rose self.old.faults self.new.faults) }

        // when it fails, how much it takes, and the state after either
        ensures fails { IsErr result ↔ WriteFails self.old piece.now }
        ensures count { IfOk result (λ n. n ≡ min (min (length piece.now) self.old.most) self.old.room) }
        ensures took { IfOk result (λ n. self.new ≡ after_taking self.old (take n piece.now)) }
        ensures failed { OnErr result (self.new ≡ after_fault self.old) }
    {
        self.calls = self.calls.saturating_add(1);
        if is_listed(&self.failing, self.calls) || (self.room == 0 && !piece.is_empty()) {
            self.faults = self.faults.saturating_add(1);
            return Err(Failed);
        }
        let count = (piece.len() as u64).min(self.most).min(self.room);
        self.taken
            .extend_from_slice(&piece[..count as usize])
            .unwrap();
        self.room -= count;
        Ok(count)
    }
}

#[cfg(test)]
mod tests {
    use super::*;
    use std::test::Fail;

    // A sink of 5 bytes in pieces of 2, of which the second write and the eighth fail.
    fn failing(alloc: Global) -> Result<MemSink, NoMemory> {
        let mut sink = MemSink::new(alloc, 5)?;
        sink.piece(2);
        sink.fail_at(2)?;
        sink.fail_at(8)?;
        Ok(sink)
    }

    // What is written, and the number of bytes taken.
    const WRITES: &[(&[u8], Result<u64, Failed>)] = &[
        (b"abcde", Ok(2)),
        (b"cde", Err(Failed)),
        (b"cde", Ok(2)),
        (b"", Ok(0)),
        (b"ef", Ok(1)),
        (b"f", Err(Failed)),
        (b"", Ok(0)),
        (b"", Err(Failed)),
    ];

    #[test]
    fn writes_take_pieces_and_fail_where_told(rt: HostRuntime) -> Result<(), Fail> {
        let mut sink = failing(rt.alloc())?;
        for (piece, want) in WRITES {
            assert_eq!(rt; sink.write(piece), *want, "{piece:?}");
        }
        assert_eq!(rt; sink.written(), b"abcde".as_slice());
        Ok(())
    }

    #[test]
    fn a_sink_without_room_takes_nothing(rt: HostRuntime) -> Result<(), Fail> {
        let mut sink = MemSink::new(rt.alloc(), 0)?;
        assert_eq!(rt; sink.write(b"a"), Err(Failed));
        assert_eq!(rt; sink.write(b""), Ok(0));
        assert_eq!(rt; sink.written(), b"".as_slice());
        Ok(())
    }
}
