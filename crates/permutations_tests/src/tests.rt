//! Orders worked by hand, and what they are refused with.

use permutations::{NoMemory, PartialPerm, Perm, PermRefusal, identity, perm_of_numbers};
use std::process::Abort;
use std::test::Fail;

// The order has these vertices by place, and these places by vertex.
fn check_perm(rt: &impl Abort, perm: &Perm, vertices: &[u32], places: &[u32], said: &str) {
    assert_eq!(rt; perm.len() as usize, vertices.len(), "{said}");
    assert_eq!(rt; places.len(), vertices.len(), "{said}");
    assert_eq!(rt; (perm.at(0), perm.place(0)), (0, 0), "{said}");
    for k in 1..=perm.len() {
        assert_eq!(rt; perm.at(k), vertices[k as usize - 1], "{said}");
        assert_eq!(rt; perm.place(k), places[k as usize - 1], "{said}");
    }
}

#[test]
fn orders_of_tables(rt: HostRuntime) -> Result<(), Fail> {
    let numbers = identity(rt.alloc(), 3)?;
    check_perm(&rt, &numbers, &[1, 2, 3], &[1, 2, 3], "the identity");
    let vertices = vec![in rt.alloc(); 0u32, 2, 3, 1, 4]?;
    let places = vec![in rt.alloc(); 0u32, 3, 1, 2, 4]?;
    let perm = Perm::from_tables(vertices, places);
    check_perm(&rt, &perm, &[2, 3, 1, 4], &[3, 1, 2, 4], "of its tables");
    Ok(())
}

// Puts a vertex at the end of the order, where it can come next.
fn take(taken: &mut PartialPerm, number: u64) -> Result<bool, NoMemory> {
    let fits = taken.takes(number);
    if fits {
        taken.push(number as u32)?;
    }
    Ok(fits)
}

#[test]
fn one_vertex_after_another(rt: HostRuntime) -> Result<(), Fail> {
    let mut taken = PartialPerm::new(rt.alloc(), 3)?;
    for (number, fits) in [(2, true), (0, false), (4, false), (2, false), (3, true)] {
        assert_eq!(rt; take(&mut taken, number)?, fits, "{number}");
    }
    assert_eq!(rt; (taken.whole_len(), taken.len()), (3, 2));
    assert_eq!(rt;
        (taken.has(1), taken.has(2), taken.has(3)),
        (false, true, true)
    );
    assert_eq!(rt; taken.into_vertices().as_slice(), [2, 3].as_slice());
    Ok(())
}

#[test]
fn the_order_of_no_vertices(rt: HostRuntime) -> Result<(), Fail> {
    let none = PartialPerm::new(rt.alloc(), 0)?.finish();
    assert_eq!(rt; none.len(), 0);
    Ok(())
}

#[test]
fn an_order_from_numbers(rt: HostRuntime) -> Result<(), Fail> {
    let perm = perm_of_numbers(rt.alloc(), 0, &[2, 0, 1], 3)?;
    assert_eq!(rt; perm.len(), 3);
    assert_eq!(rt; (perm.at(1), perm.at(2), perm.at(3)), (3, 1, 2));
    assert_eq!(rt; (perm.place(1), perm.place(2), perm.place(3)), (2, 3, 1));
    Ok(())
}

fn refused_perm<R: Abort>(rt: &R, perm: Result<Perm, PermRefusal>, refusal: PermRefusal) {
    match perm {
        Ok(_) => assert!(rt; false),
        Err(found) => assert_eq!(rt; found, refusal),
    }
}

#[test]
fn refused_orders(rt: HostRuntime) {
    let alloc = rt.alloc();
    let perm = perm_of_numbers(alloc, 1, &[1, 2], 3);
    refused_perm(&rt, perm, PermRefusal::Places);
    let perm = perm_of_numbers(alloc, 1, &[1, 0, 1], 3);
    refused_perm(&rt, perm, PermRefusal::Unknown(2));
    let perm = perm_of_numbers(alloc, 0, &[1, 0, 3], 3);
    refused_perm(&rt, perm, PermRefusal::Unknown(3));
    let perm = perm_of_numbers(alloc, 0, &[1, 0, 1], 3);
    refused_perm(&rt, perm, PermRefusal::Repeated(3));
}
