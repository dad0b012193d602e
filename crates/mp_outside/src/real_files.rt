ghost use Rattle.std.specs.Prelude.{◌≡◌, ◌≤◌, ℕ, None, IfOk, OnErr, length, is_err, if◌then◌else◌};
ghost use Rattle.mp_outside.specs.Outside.{LoadsTold, Rose, one_more};

use crate::traits::{Failed, Files};
use std::io::{Read, Seek, SeekFrom};
use std::marker::Model;
use std::{fs, io, rt};

/// Files of the system, by their paths. They tell no contents, and have one count of faults for
/// all names: each load that ends with an error of the system raises it by one.
#[derive(Drop)]
pub struct RealFiles<'a, R: rt::Files> {
    access: &'a R,
    faults: u64,
}

impl<'a, R: rt::Files> Model for RealFiles<'a, R> {
    ghost Value = { ℕ };

    ghost view = { λ f. f.faults };
}

impl<'a, R: rt::Files> RealFiles<'a, R> {
    /// The files that this runtime reaches. The count of faults starts at 0.
    pub fn new(access: &'a R) -> Self
        ensures { result ≡ 0 }
    {
        RealFiles { access, faults: 0 }
    }
}

impl<R: rt::Files> Files for RealFiles<'_, R> {
    ghost bytes_of = { λ _ _. None };

    ghost faults_of = { λ count _. count };

    fn load(&mut self, name: &str, place: u64, buf: &mut [u8]) -> Result<u64, Failed>
        ensures bound { IfOk result (λ n. n ≤ length buf.new) }
        ensures bytes { IfOk result (λ n. LoadsTold None place n buf.new) }
        ensures later { self.old ≤ self.new }
        ensures cause { OnErr result (Rose self.old self.new) }

        // each error raises the count by one
        ensures counted { self.new ≡ (if is_err result then one_more self.old else self.old) }
    {
        match load_at(self.access, name, place, buf) {
            Ok(count) => Ok(count as u64),
            Err(_) => {
                self.faults = self.faults.saturating_add(1);
                Err(Failed)
            }
        }
    }
}

// Opens the file, goes to the place and reads once.
fn load_at<R: rt::Files>(access: &R, name: &str, place: u64, buf: &mut [u8]) -> io::Result<usize>
    ensures { IfOk result (λ n. n ≤ length buf.new) }
{
    let mut file = fs::open(access, name)?;
    file.seek(SeekFrom::Start(place))?;
    file.read(buf)
}

#[cfg(test)]
mod tests {
    use super::*;
    use std::rt::Files as _;
    use std::test::Fail;

    #[test]
    fn a_file_is_read_from_a_place(rt: HostRuntime) -> Result<(), Fail> {
        fs::write(&rt, "mp_outside_test.txt", b"abcdefg".as_slice())?;
        let mut files = RealFiles::new(&rt);
        let mut buf = [b'.'; 4];
        // the place, and what the buffer then holds
        for (place, want) in [(0, b"abcd"), (3, b"defg"), (5, b"fgfg"), (7, b"fgfg")] {
            let count = files.load("mp_outside_test.txt", place, &mut buf);
            assert_eq!(rt; count, Ok(4.min(7 - place)), "at {place}");
            assert_eq!(rt; buf, *want, "at {place}");
        }
        let missing = files.load("mp_outside_missing.txt", 0, &mut buf);
        assert_eq!(rt; missing, Err(Failed));
        rt.remove_file("mp_outside_test.txt")?;
        Ok(())
    }
}
