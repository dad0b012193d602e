ghost use Rattle.std.specs.Prelude.{◌≡◌, ◌≤◌, ◌<◌, ◌-◌, ◌+◌, ◌↔◌, ◌++◌, ◌∷◌, [], ℕ, List, IfOk, IfSome, IsErr, OnOk, OnErr, length, min};
ghost use Rattle.mp_outside.specs.Outside.{LoadsTold, Rose, one_more};
ghost use Rattle.mp_outside.specs.MemFiles.{FilesState, no_files, contents_of, fault_count_of, LoadFails, RaisesOnly, Puts};

use crate::NoMemory;
use crate::calls::is_listed;
use crate::held_file::{HeldFile, copy_from, position_of};
use crate::traits::{Failed, Files};
use std::alloc::Global;
use std::marker::Model;

/// Files in memory, which tell their contents, give them in pieces and fail where they are told
/// to. All names that are not held share one count of faults.
#[derive(Drop)]
pub struct MemFiles {
    alloc: Global,
    held: Vec<HeldFile>,
    shared: u64,
    most: u64,
    calls: u64,
    failing: Vec<u64>,
}

impl Model for MemFiles {
    ghost Value = { FilesState };

    ghost view = { λ m. record { files = m.held.items; shared = m.shared; most = m.most; calls = m.calls; failing = m.failing.items } };

    ghost invariant = { λ m. 0 < m.most };
}

impl MemFiles {
    /// No files. No load is to fail, and a load gives as many bytes as there are.
    pub fn new(alloc: Global) -> Result<MemFiles, NoMemory>
        ensures { IfOk result (λ m. m ≡ no_files) }
    {
        Ok(MemFiles {
            alloc,
            held: Vec::new(alloc),
            shared: 0,
            most: u64::MAX,
            calls: 0,
            failing: Vec::new(alloc),
        })
    }

    /// Makes `bytes` the contents of `name`. No count of faults changes: a name that was not held
    /// before goes on from the count that it shared.
    pub fn put(&mut self, name: &str, bytes: &[u8]) -> Result<(), NoMemory>
        ensures ok { OnOk result (Puts self.old self.new name.now bytes.now) }
        ensures err { OnErr result (self.new ≡ self.old) }
    {
        let bytes = Vec::from_slice(self.alloc, bytes)?;
        match position_of(&self.held, name) {
            Some(index) => {
                self.held[index].replace_bytes(bytes);
                Ok(())
            }
            None => {
                let file = HeldFile::new(self.alloc, name, bytes, self.shared)?;
                Ok(self.held.push(file)?)
            }
        }
    }

    /// Lets the load with this number fail. Loads are numbered from 1, over all names.
    pub fn fail_at(&mut self, call: u64) -> Result<(), NoMemory>
        ensures ok { OnOk result (self.new ≡ record self.old { failing = self.old.failing ++ call ∷ [] }) }
        ensures err { OnErr result (self.new ≡ self.old) }
    {
        Ok(self.failing.push(call)?)
    }

    /// Lets no load give more than so many bytes.
    pub fn piece(&mut self, most: u64)
        requires { 0 < most }
        ensures { self.new ≡ record self.old { most = most } }
    {
        self.most = most;
    }
}

impl Files for MemFiles {
    ghost bytes_of = { contents_of };

    ghost faults_of = { fault_count_of };

    fn load(&mut self, name: &str, place: u64, buf: &mut [u8]) -> Result<u64, Failed>
        ensures bound { IfOk result (λ n. n ≤ length buf.new) }
        ensures bytes { IfOk result (λ n. LoadsTold (contents_of self.old name.now) place n buf.new) }
        ensures same { (other : List ℕ) → contents_of self.new other ≡ contents_of self.old other }
        ensures later { (other : List ℕ) → fault_count_of self.old other ≤ fault_count_of self.new other }
        ensures cause { OnErr result (Rose (fault_count_of self.old name.now) (fault_count_of self.new name.now)) }

        // when it fails, and how much it gives
        ensures fails { IsErr result ↔ LoadFails self.old name.now }
        ensures count { IfOk result
            (λ n. IfSome (contents_of self.old name.now) (λ text. n ≡ min (min (length text - place) (length buf.new)) self.old.most)) }

        // what becomes of the counts
        ensures raised { OnErr result (RaisesOnly self.old self.new name.now) }
        ensures kept { OnOk result ((other : List ℕ) → fault_count_of self.new other ≡ fault_count_of self.old other) }
        ensures counted { self.new ≡ record self.old { files = self.new.files; shared = self.new.shared; calls = one_more self.old.calls } }
    {
        self.calls = self.calls.saturating_add(1);
        let fails = is_listed(&self.failing, self.calls);
        let Some(index) = position_of(&self.held, name) else {
            self.shared = self.shared.saturating_add(1);
            return Err(Failed);
        };
        if fails {
            self.held[index].count_fault();
            return Err(Failed);
        }
        Ok(copy_from(self.held[index].bytes(), place, self.most, buf))
    }
}

#[cfg(test)]
mod tests {
    use super::*;
    use std::test::Fail;

    // A file of letters and an empty one, in pieces of 3 bytes, of which the third load fails.
    fn letters(alloc: Global) -> Result<MemFiles, NoMemory> {
        let mut files = MemFiles::new(alloc)?;
        files.put("letters", b"abcdefg")?;
        files.put("empty", b"")?;
        files.piece(3);
        files.fail_at(3)?;
        Ok(files)
    }

    // The name, the place, the room in the buffer, and the bytes given.
    const LOADS: &[(&str, u64, usize, Option<&[u8]>)] = &[
        ("letters", 0, 8, Some(b"abc")),
        ("letters", 3, 2, Some(b"de")),
        ("letters", 5, 8, None),
        ("letters", 5, 8, Some(b"fg")),
        ("letters", 7, 8, Some(b"")),
        ("letters", u64::MAX, 8, Some(b"")),
        ("letters", 0, 0, Some(b"")),
        ("empty", 0, 8, Some(b"")),
        ("other", 0, 8, None),
        ("", 0, 8, None),
    ];

    #[test]
    fn loads_give_pieces_and_fail_where_told(rt: HostRuntime) -> Result<(), Fail> {
        let mut files = letters(rt.alloc())?;
        let mut buf = [0u8; 8];
        for &(name, place, room, want) in LOADS {
            let given = match files.load(name, place, &mut buf[..room.min(8)]) {
                Ok(count) => Some(&buf[..count as usize]),
                Err(Failed) => None,
            };
            assert_eq!(rt; given, want, "{name} at {place}");
        }
        Ok(())
    }

    // The file `a` is put before another and after it.
    fn put_again(files: &mut MemFiles) -> Result<(), NoMemory> {
        files.put("a", b"one")?;
        files.put("b", b"other")?;
        files.put("a", b"two")
    }

    #[test]
    fn the_last_put_counts(rt: HostRuntime) -> Result<(), Fail> {
        let mut files = MemFiles::new(rt.alloc())?;
        let mut buf = [0u8; 8];
        assert_eq!(rt; files.load("a", 0, &mut buf), Err(Failed));
        put_again(&mut files)?;
        assert_eq!(rt; files.load("a", 0, &mut buf), Ok(3));
        assert_eq!(rt; buf, *b"two\0\0\0\0\0");
        Ok(())
    }
}
