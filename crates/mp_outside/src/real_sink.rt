ghost use Rattle.std.specs.Prelude.{◌≡◌, ◌≤◌, ◌<◌, None, IfOk, OnErr, length, is_err, if◌then◌else◌};
ghost use Rattle.std.specs.Io.KnownBytes.{WriteAppends};
ghost use Rattle.mp_outside.specs.Outside.{Rose, one_more};
ghost use Rattle.mp_outside.specs.RealSink.{WriterState};

use crate::traits::{Failed, Sink};
use std::io::Write;
use std::marker::Model;

/// A writer of the system, as standard output. It tells nothing of what it took. Each write that
/// ends with an error, or takes nothing of a piece that is not empty, raises its count by one.
#[derive(Drop)]
pub struct RealSink<W: Write + Drop> {
    writer: W,
    faults: u64,
}

impl<W: Write + Drop> Model for RealSink<W> {
    ghost Value = { WriterState };

    ghost view = { λ s. record { contents = W.contents s.writer; faults = s.faults } };
}

impl<W: Write + Drop> RealSink<W> {
    /// A sink over this writer. The count of faults starts at 0.
    pub fn new(writer: W) -> Self
        ensures { result ≡ record { contents = W.contents writer; faults = 0 } }
    {
        RealSink { writer, faults: 0 }
    }
}

impl<W: Write + Drop> Sink for RealSink<W> {
    ghost written = { λ _. None };

    ghost faults = { λ s. s.faults };

    fn write(&mut self, piece: &[u8]) -> Result<u64, Failed>
        ensures bound { IfOk result (λ n. n ≤ length piece.now) }
        ensures some { IfOk result (λ n. 0 < length piece.now → 0 < n) }
        ensures later { self.old.faults ≤ self.new.faults }
        ensures cause { OnErr result (Rose self.old.faults self.new.faults) }

        // the writer got what was taken, and each fault raises the count by one
        ensures passed { WriteAppends self.old.contents self.new.contents result piece.now }
        ensures counted { self.new.faults ≡ (if is_err result then one_more self.old.faults else self.old.faults) }
    {
        match self.writer.write(piece) {
            Ok(count) if count > 0 || piece.is_empty() => Ok(count as u64),
            _ => {
                self.faults = self.faults.saturating_add(1);
                Err(Failed)
            }
        }
    }
}

#[cfg(test)]
mod tests {
    use super::*;
    use std::test::Fail;

    #[test]
    fn the_writer_gets_the_bytes(rt: HostRuntime) -> Result<(), Fail> {
        let mut page = [b'.'; 5];
        {
            let mut sink = RealSink::new(page.as_mut_slice());
            let writes: [(&[u8], Result<u64, Failed>); 5] = [
                (b"abc", Ok(3)),
                (b"", Ok(0)),
                (b"def", Ok(2)),
                (b"f", Err(Failed)),
                (b"", Ok(0)),
            ];
            for (piece, want) in writes {
                assert_eq!(rt; sink.write(piece), want, "{piece:?}");
            }
        }
        assert_eq!(rt; page, *b"abcde");
        Ok(())
    }
}
