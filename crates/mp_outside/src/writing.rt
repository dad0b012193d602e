ghost use Rattle.std.specs.Prelude.{◌≡◌, ◌≤◌, ◌<◌, ℕ, OnOk, OnErr, length, take};
ghost use Rattle.mp_outside.specs.Outside.{Appended, Rose};

use crate::traits::Sink;

/// A sink did not take everything: a write failed, and the sink's count of faults rose.
#[derive(Clone, Copy, Debug, PartialEq, Eq)]
pub struct WriteFault;

/// Puts all bytes at the end of a sink, and takes no memory. After a `WriteFault` the sink took
/// some bytes from the front, and not all.
pub fn write_all<S: Sink>(sink: &mut S, bytes: &[u8]) -> Result<(), WriteFault>
    ensures ok { OnOk result (Appended (S.written sink.old) (S.written sink.new) bytes.now) }
    ensures err { OnErr result ((n : ℕ) × (n < length bytes.now) × Appended (S.written sink.old) (S.written sink.new) (take n bytes.now)) }
    ensures later { S.faults sink.old ≤ S.faults sink.new }
    ensures cause { OnErr result (Rose (S.faults sink.old) (S.faults sink.new)) }

    // nothing to write: the sink is not called
    ensures empty { length bytes.now ≡ 0 → sink.new ≡ sink.old }
{
    let mut at: usize = 0;
    while at < bytes.len() {
        let Ok(count) = sink.write(&bytes[at..]) else {
            return Err(WriteFault);
        };
        at += count as usize;
    }
    Ok(())
}

#[cfg(test)]
mod tests {
    use super::*;
    use crate::mem_sink::MemSink;
    use std::test::Fail;

    #[test]
    fn pieces_make_the_whole_or_a_front_of_it(rt: HostRuntime) -> Result<(), Fail> {
        // the room, the write that fails, the bytes, the answer, and what the sink then holds
        let cases: [(u64, u64, &[u8], Result<(), WriteFault>, &[u8]); 6] = [
            (8, 0, b"abcdefg", Ok(()), b"abcdefg"),
            (7, 0, b"abcdefg", Ok(()), b"abcdefg"),
            (6, 0, b"abcdefg", Err(WriteFault), b"abcdef"),
            (8, 2, b"abcdefg", Err(WriteFault), b"abc"),
            (8, 1, b"abcdefg", Err(WriteFault), b""),
            (0, 1, b"", Ok(()), b""),
        ];
        for (room, failing, bytes, want, taken) in cases {
            let mut sink = MemSink::new(rt.alloc(), room)?;
            sink.piece(3);
            sink.fail_at(failing)?;
            let written = write_all(&mut sink, bytes);
            assert_eq!(rt; written, want, "room {room}, failing {failing}");
            assert_eq!(rt; sink.written(), taken, "room {room}, failing {failing}");
        }
        Ok(())
    }
}
