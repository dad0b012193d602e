use mp_system::replay;
use postorder_best::{Post, best_postorder};
use std::alloc::Global;
use std::test::Fail;
use tree_files::read_tree;
use trees::system_of_tree;

// The best postorder of the tree that a file states, and the peak of its replay.
fn post(alloc: Global, text: &[u8]) -> Result<(Post, u64), Fail> {
    let tree = read_tree(alloc, text)?;
    let post = best_postorder(alloc, &tree)?;
    let replayed = replay(alloc, &system_of_tree(alloc, &tree)?, &post.order)?;
    Ok((post, replayed))
}

const ORDERS_AND_PEAKS: [(&str, &[u8], &[u32], u64); 10] = [
    (
        "five nodes, two like branches",
        b"tree 1\nnodes 5\n2 1 9 1\n5 5 0 1\n4 1 9 1\n5 5 0 1\n0 0 0 1\nend\n",
        &[1, 2, 3, 4, 5],
        15,
    ),
    (
        "four nodes, three like leaves",
        b"tree 1\nnodes 4\n4 2 0 1\n4 2 0 1\n4 2 0 1\n0 0 0 1\nend\n",
        &[1, 2, 3, 4],
        6,
    ),
    (
        "two roots",
        b"tree 1\nnodes 2\n0 3 0 1\n0 4 1 1\nend\n",
        &[2, 1],
        7,
    ),
    (
        "a grid of two by two",
        b"tree 1\nnodes 2\n2 3 3 1\n0 0 6 3\nend\n",
        &[1, 2],
        9,
    ),
    (
        "an arrow, its blocks in place",
        b"tree 2\nnodes 3\n3 1 2 0 1\n3 1 2 0 1\n0 0 3 1 2\nend\n",
        &[1, 2, 3],
        4,
    ),
    (
        "a lower peak first, since it leaves less",
        b"tree 1\nnodes 3\n3 5 1 1\n3 1 3 1\n0 0 0 1\nend\n",
        &[2, 1, 3],
        7,
    ),
    (
        "a tie of unlike leaves",
        b"tree 1\nnodes 3\n3 2 0 1\n3 5 0 1\n0 0 0 1\nend\n",
        &[1, 2, 3],
        7,
    ),
    (
        "a parent before its children",
        b"tree 1\nnodes 3\n0 1 2 1\n1 4 3 1\n1 2 6 1\nend\n",
        &[3, 2, 1],
        9,
    ),
    (
        "a chain from its root",
        b"tree 1\nnodes 3\n0 0 0 1\n1 1 0 1\n2 2 0 1\nend\n",
        &[3, 2, 1],
        3,
    ),
    ("one node", b"tree 1\nnodes 1\n0 7 2 1\nend\n", &[1], 9),
];

#[test]
fn orders_and_peaks(rt: HostRuntime) -> Result<(), Fail> {
    for (name, text, order, peak) in ORDERS_AND_PEAKS {
        let (post, replayed) = post(rt.alloc(), text)?;
        assert_eq!(rt; post.order.as_slice(), order, "{name}");
        assert_eq!(rt; post.peak, peak, "{name}");
        assert_eq!(rt; replayed, peak, "{name}");
    }
    Ok(())
}
