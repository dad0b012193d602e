ghost use Rattle.std.specs.Prelude.{◌≡◌, ◌≤◌, ◌<◌, ℕ, List, None, IfOk, IfSome, length};
ghost use Rattle.limits.specs.Limits.{most_bytes};
ghost use Rattle.mp_outside.specs.Outside.{Rose};
ghost use Rattle.mp_outside.specs.declared.reading.ReadRefusal.TheVariants.{NoMemory};

use crate::NoMemory;
use crate::traits::Files;
use limits::MOST_BYTES;
use std::alloc::Global;
use std::fmt::{self, Display, Formatter, Write};

/// Why a file was not read whole.
#[derive(Clone, Copy, Debug, PartialEq, Eq)]
pub enum ReadRefusal {
    /// A load of the file failed, and its count of faults rose.
    ReadFault,
    /// The file has more than [`MOST_BYTES`] bytes.
    TooLong,
    /// The allocator had no memory for the contents.
    NoMemory,
}

impl From<NoMemory> for ReadRefusal {
    ghost from_gives = { λ _ e. e ≡ NoMemory };

    fn from(_e: NoMemory) -> ReadRefusal {
        ReadRefusal::NoMemory
    }
}

impl Display for ReadRefusal {
    fn fmt<W: Write>(&self, f: &mut Formatter<W>) -> fmt::Result {
        f.write_str(match self {
            ReadRefusal::ReadFault => "read fault",
            ReadRefusal::TooLong => "limit bytes",
            ReadRefusal::NoMemory => "no memory",
        })
    }
}

// The bytes of one load.
const PIECE: usize = 65_536;

/// The contents of a file of at most [`MOST_BYTES`] bytes, 256 MiB.
pub fn read_whole<F: Files>(
    alloc: Global,
    files: &mut F,
    name: &str,
) -> Result<Vec<u8>, ReadRefusal>
    ensures contents { IfOk result (λ v. IfSome (F.bytes_of files.old name.now) (λ text. v.items ≡ text)) }
    ensures short { IfOk result (λ v. length v.items ≤ most_bytes) }
    ensures long { result ≡ Err ReadRefusal.TooLong → IfSome (F.bytes_of files.old name.now) (λ text. most_bytes < length text) }
    ensures cause { result ≡ Err ReadRefusal.ReadFault → Rose (F.faults_of files.old name.now) (F.faults_of files.new name.now) }

    // what the files are like afterwards
    ensures same { (other : List ℕ) → F.bytes_of files.new other ≡ F.bytes_of files.old other }
    ensures later { (other : List ℕ) → F.faults_of files.old other ≤ F.faults_of files.new other }
{
    let mut buf = Vec::from_elem(alloc, 0u8, PIECE)?;
    read_pieces(alloc, files, name, &mut buf)
}

// Reads a file to its end, a buffer at a time.
fn read_pieces<F: Files>(
    alloc: Global,
    files: &mut F,
    name: &str,
    buf: &mut [u8],
) -> Result<Vec<u8>, ReadRefusal>
    requires { 0 < length buf.old }
    ensures contents { IfOk result (λ v. IfSome (F.bytes_of files.old name.now) (λ text. v.items ≡ text)) }
    ensures short { IfOk result (λ v. length v.items ≤ most_bytes) }
    ensures long { result ≡ Err ReadRefusal.TooLong → IfSome (F.bytes_of files.old name.now) (λ text. most_bytes < length text) }
    ensures cause { result ≡ Err ReadRefusal.ReadFault → Rose (F.faults_of files.old name.now) (F.faults_of files.new name.now) }

    // what the files are like afterwards
    ensures same { (other : List ℕ) → F.bytes_of files.new other ≡ F.bytes_of files.old other }
    ensures later { (other : List ℕ) → F.faults_of files.old other ≤ F.faults_of files.new other }
{
    let mut text: Vec<u8> = Vec::new(alloc);
    loop {
        let Ok(count) = files.load(name, text.len() as u64, buf) else {
            return Err(ReadRefusal::ReadFault);
        };
        if count == 0 {
            return Ok(text);
        }
        if text.len() as u64 + count > MOST_BYTES {
            return Err(ReadRefusal::TooLong);
        }
        text.extend_from_slice(&buf[..count as usize])?;
    }
}

#[cfg(test)]
mod tests {
    use super::*;
    use crate::mem_files::MemFiles;
    use crate::traits::Failed;
    use std::test::Fail;

    #[test]
    fn pieces_make_the_contents(rt: HostRuntime) -> Result<(), Fail> {
        let mut files = MemFiles::new(rt.alloc())?;
        files.piece(3);
        for text in ["", "a", "abc", "abcd", "abcdefgh"] {
            files.put("text", text.as_bytes())?;
            let read = read_whole(rt.alloc(), &mut files, "text").ok().ok_or(text)?;
            assert_eq!(rt; read.as_slice(), text.as_bytes());
        }
        Ok(())
    }

    #[test]
    fn a_failed_load_is_a_read_fault(rt: HostRuntime) -> Result<(), Fail> {
        let mut files = MemFiles::new(rt.alloc())?;
        files.put("text", b"abcdefgh")?;
        files.piece(3);
        files.fail_at(3)?;
        // the name, and the refusal of reading it
        let reads: [(&str, Option<ReadRefusal>); 3] = [
            ("text", Some(ReadRefusal::ReadFault)),
            ("other", Some(ReadRefusal::ReadFault)),
            ("text", None),
        ];
        for (name, want) in reads {
            let read = read_whole(rt.alloc(), &mut files, name);
            assert_eq!(rt; read.err(), want, "{name}");
        }
        Ok(())
    }

    // A file of so many zeros under every name.
    #[derive(Drop)]
    struct Zeros(u64);

    impl Files for Zeros {
        ghost bytes_of = { λ _ _. None };

        ghost faults_of = { λ _ _. 0 };

        fn load(&mut self, _name: &str, place: u64, buf: &mut [u8]) -> Result<u64, Failed> {
            Ok(self.0.saturating_sub(place).min(buf.len() as u64))
        }
    }

    #[test]
    fn one_byte_more_is_too_long(rt: HostRuntime) {
        let longest = read_whole(rt.alloc(), &mut Zeros(268_435_456), "zeros");
        assert_eq!(rt; longest.map(|text| text.len()), Ok(268_435_456));
        let longer = read_whole(rt.alloc(), &mut Zeros(268_435_457), "zeros");
        assert_eq!(rt; longer.err(), Some(ReadRefusal::TooLong));
    }
}
