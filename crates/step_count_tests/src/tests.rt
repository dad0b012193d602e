//! A count takes no memory.

ghost use Rattle.std.specs.Prelude.{◌≡◌, ◌<◌};

use std::marker::Brand;
use std::mem::{size_of, size_of_val};
use std::sync::ledger::{Blank, Ledger};
use step_count::Steps;

// The bytes of a count of two steps.
fn size_of_two<L: Ledger>(blank: Blank) -> usize
    requires name { blank.name ≡ L.name }
    requires parts { blank.parts ≡ L.parts }
    requires some { 0 < blank.parts }
{
    let mut steps = Steps::<L>::new(blank);
    steps.tick();
    steps.tick();
    size_of_val(&steps)
}

#[test]
fn a_count_takes_no_bytes(rt: HostRuntime) {
    assert_eq!(rt; size_of::<Steps<Brand>>(), 0);
    assert_eq!(rt; size_of_two::<Brand>(Blank::new(1)), 0);
}
