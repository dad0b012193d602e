//! Ropes that are joined and flipped.

ghost use Rattle.std.specs.Prelude.{◌<◌, ◌^◌, IfOk};
ghost use Rattle.hill_valley.specs.Ropes.{IsRope};

use hill_valley::{NoMemory, Rope, Ropes};
use std::test::Fail;

#[test]
fn the_empty_rope_lists_nothing(rt: HostRuntime) -> Result<(), Fail> {
    let alloc = rt.alloc();
    let mut ropes = Ropes::new(alloc);
    let none = ropes.empty();
    let list = ropes.list(alloc, none)?;
    assert!(rt; list.is_empty());
    Ok(())
}

#[test]
fn a_rope_joined_with_the_empty_one_lists_the_same(rt: HostRuntime) -> Result<(), Fail> {
    let alloc = rt.alloc();
    let mut ropes = Ropes::new(alloc);
    let one = ropes.one(7);
    let none = ropes.empty();
    let both = ropes.join(one, none)?;
    let list = ropes.list(alloc, both)?;
    assert_eq!(rt; list.as_slice(), [7].as_slice());
    Ok(())
}

#[test]
fn ropes_are_joined_and_flipped(rt: HostRuntime) -> Result<(), Fail> {
    let alloc = rt.alloc();
    let mut ropes = Ropes::new(alloc);
    let one = ropes.one(7);
    let two = ropes.one(8);
    let both = ropes.join(one, two)?;
    let back = ropes.flip(both);
    let all = ropes.join(back, both)?;
    let list = ropes.list(alloc, all)?;
    assert_eq!(rt; list.as_slice(), [8, 7, 7, 8].as_slice());
    Ok(())
}

// The tasks 0 to `last`, each put at the end of the list before, which is then flipped.
fn flipped_each_time(ropes: &mut Ropes, last: u32) -> Result<Rope, NoMemory>
    ensures { IfOk result (λ rope. IsRope ropes.new rope) }
{
    let mut rope = ropes.one(0);
    for task in 0..last {
        let one = ropes.one(task + 1);
        let longer = ropes.join(rope, one)?;
        rope = ropes.flip(longer);
    }
    Ok(rope)
}

// An even number of flips leaves the even tasks downwards and then the odd ones upwards.
fn task_at(place: u32, last: u32) -> u32 {
    if place <= last / 2 {
        last - 2 * place
    } else {
        (place - last / 2).saturating_mul(2).saturating_sub(1)
    }
}

#[test]
fn a_rope_of_200_000_joins_and_flips_is_listed(rt: HostRuntime) -> Result<(), Fail> {
    let alloc = rt.alloc();
    let last = 200_000;
    let mut ropes = Ropes::new(alloc);
    let rope = flipped_each_time(&mut ropes, last)?;
    let list = ropes.list(alloc, rope)?;
    assert_eq!(rt; list.len(), 200_001);
    let mut place = 0;
    for task in &list {
        assert_eq!(rt; *task, task_at(place, last));
        place = place.saturating_add(1);
    }
    Ok(())
}
