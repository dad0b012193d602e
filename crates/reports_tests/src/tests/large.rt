//! Files that are too large.

use super::check_run;
use mp_outside::{Failed, Files};
use reports::Status::Limit;
use std::test::Fail;

// A file of so many zeros under every name.
#[derive(Drop)]
struct Zeros(u64);

impl Files for Zeros {
    ghost use Rattle.std.specs.Prelude.{None};

    ghost bytes_of = { λ _ _. None };

    ghost faults_of = { λ _ _. 0 };

    fn load(&mut self, _name: &str, place: u64, buf: &mut [u8]) -> Result<u64, Failed> {
        Ok(self.0.saturating_sub(place).min(buf.len() as u64))
    }
}

#[test]
fn a_file_of_too_many_bytes(rt: HostRuntime) -> Result<(), Fail> {
    let (run, text) = ("replay --tree t --order o", "refused limit tree bytes\n");
    check_run(&rt, rt.alloc(), run, &mut Zeros(268_435_457), Limit, text)?;
    Ok(())
}
