use min_tree::MinTree;
use std::rt::HostRuntime;
use std::test::Fail;

#[test]
fn a_new_tree_has_its_first_least_at_its_start(rt: HostRuntime) -> Result<(), Fail> {
    let tree = MinTree::new(rt.alloc(), 5)?;
    assert_eq!(rt; tree.len(), 5);
    assert_eq!(rt; tree.first_least(), 0);
    Ok(())
}

// A place, its new number, and then the least number and its first place.
const CHANGES: &[(usize, u64, u64, usize)] = &[
    (3, 7, 7, 3),
    (4, 7, 7, 3),
    (1, 9, 7, 3),
    (0, 7, 7, 0),
    (0, u64::MAX, 7, 3),
    (2, 0, 0, 2),
    (3, 8, 0, 2),
    (2, u64::MAX, 7, 4),
    (4, u64::MAX, 8, 3),
    (3, u64::MAX, 9, 1),
    (1, u64::MAX, u64::MAX, 0),
];

#[test]
fn first_least_after_each_change(rt: HostRuntime) -> Result<(), Fail> {
    let mut tree = MinTree::new(rt.alloc(), 5)?;
    for &(place, number, least, first) in CHANGES {
        if place < tree.len() {
            tree.put(place, number);
            assert_eq!(rt; tree.at(place), number);
        }
        if tree.len() > 0 {
            assert_eq!(rt; tree.least(), least);
            assert_eq!(rt; tree.first_least(), first);
        }
    }
    Ok(())
}

// A bound, and the first place whose number is at most it; the last number is still the greatest.
const FIRST_WITHIN: &[(u64, Option<usize>)] = &[
    (0, None),
    (4, None),
    (5, Some(4)),
    (19, Some(4)),
    (20, Some(1)),
    (29, Some(1)),
    (30, Some(0)),
    (u64::MAX, Some(0)),
];

#[test]
fn the_first_place_within_a_bound(rt: HostRuntime) -> Result<(), Fail> {
    let mut tree = MinTree::new(rt.alloc(), 6)?;
    for (place, number) in [30, 20, 25, 20, 5].into_iter().enumerate() {
        if place < tree.len() {
            tree.put(place, number);
        }
    }
    for (bound, first) in FIRST_WITHIN {
        if tree.len() > 0 {
            assert_eq!(rt; tree.first_at_most(*bound), *first);
        }
    }
    Ok(())
}

#[test]
fn a_tree_of_no_number(rt: HostRuntime) -> Result<(), Fail> {
    let tree = MinTree::new(rt.alloc(), 0)?;
    assert_eq!(rt; tree.len(), 0);
    Ok(())
}

#[test]
fn the_least_of_one_number(rt: HostRuntime) -> Result<(), Fail> {
    let mut one = MinTree::new(rt.alloc(), 1)?;
    one.put(0, 3);
    assert_eq!(rt; one.at(0), 3);
    assert_eq!(rt; one.least(), 3);
    assert_eq!(rt; one.first_least(), 0);
    Ok(())
}

#[test]
fn one_number_within_a_bound(rt: HostRuntime) -> Result<(), Fail> {
    let mut one = MinTree::new(rt.alloc(), 1)?;
    one.put(0, 3);
    assert_eq!(rt; one.first_at_most(2), None);
    assert_eq!(rt; one.first_at_most(3), Some(0));
    Ok(())
}
