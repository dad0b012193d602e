//! Fronts worked by hand.

ghost use Rattle.std.specs.Prelude.{◌≤◌};
ghost use Rattle.limits.specs.Limits.{most_workers};

use assembly_tree::laws::counts_of_fill;
use assembly_tree::supernodes;
use column_counts::counts;
use elim_tree::laws::renumbered_pattern;
use elim_tree::postordered_etree;
use matrix_files::{read_pattern, read_perm};
use mp_outside::{Gate, NoGate};
use rounds_run::{Fronts, FrontsRefusal, run_fronts};
use std::alloc::Global;
use std::process::Abort;
use std::rt::HostRuntime;
use std::sync::atomic::{AtomicBool, AtomicU32, Ordering};
use std::test::Fail;
use std::thread::{Threads, yield_now};

// Vertex 1 is joined to all others; two ends come first, then the middle and the third end.
const ARROW: &str = "%%MatrixMarket matrix coordinate pattern symmetric\n4 4 3\n2 1\n3 1\n4 1\n";

const ENDS_FIRST: &str = "2 3 1 4\n";

const DIAGONAL: &str = "%%MatrixMarket matrix coordinate pattern symmetric\n3 3 0\n";

const IN_TURN: &str = "1 2 3\n";

// The grid of 5 by 5, row by row. Its middle column comes last, before it the middle rows of both sides, and first the four corners.
#[rattlefmt::skip]
const GRID: &str = "%%MatrixMarket matrix coordinate pattern symmetric\n25 25 40\n\
    2 1\n6 1\n3 2\n7 2\n4 3\n8 3\n5 4\n9 4\n10 5\n7 6\n11 6\n8 7\n12 7\n9 8\n13 8\n10 9\n14 9\n\
    15 10\n12 11\n16 11\n13 12\n17 12\n14 13\n18 13\n15 14\n19 14\n20 15\n17 16\n21 16\n18 17\n\
    22 17\n19 18\n23 18\n20 19\n24 19\n25 20\n22 21\n23 22\n24 23\n25 24\n";

const CORNERS_FIRST: &str = "1 2 6 7 21 22 16 17 11 12 5 4 10 9 25 24 20 19 15 14 3 8 13 18 23\n";

const ARROW_ROWS: &[&[u32]] = &[&[1, 3], &[2, 3], &[3, 4]];

const DIAGONAL_ROWS: &[&[u32]] = &[&[1], &[2], &[3]];

// Each column of a corner or a middle row is a front of its own; the middle column is the last.
#[rattlefmt::skip]
const GRID_ROWS: &[&[u32]] = &[
    &[1, 2, 3],
    &[2, 3, 4, 21],
    &[3, 4, 9, 21],
    &[4, 9, 10, 21, 22],
    &[5, 6, 7],
    &[6, 7, 8, 25],
    &[7, 8, 9, 25],
    &[8, 9, 10, 24, 25],
    &[9, 10, 21, 22, 24, 25],
    &[10, 21, 22, 23, 24, 25],
    &[11, 12, 13],
    &[12, 13, 14, 21],
    &[13, 14, 19, 21],
    &[14, 19, 20, 21, 22],
    &[15, 16, 17],
    &[16, 17, 18, 25],
    &[17, 18, 19, 25],
    &[18, 19, 20, 24, 25],
    &[19, 20, 21, 22, 24, 25],
    &[20, 21, 22, 23, 24, 25],
    &[21, 22, 23, 24, 25],
];

// One front after another: the four corners, and the middle rows after the corners that they join.
#[rattlefmt::skip]
const GRID_ALONE: &[&[u32]] = &[
    &[1], &[2], &[3], &[4], &[5], &[6], &[7], &[8], &[9], &[10], &[11],
    &[12], &[13], &[14], &[15], &[16], &[17], &[18], &[19], &[20], &[21],
];

// The four corners side by side.
#[rattlefmt::skip]
const GRID_BY_FOUR: &[&[u32]] = &[
    &[1, 5, 11, 15], &[2, 6, 12, 16], &[3, 7, 13, 17], &[4, 8, 14, 18], &[9, 19], &[10, 20], &[21],
];

// The fronts of a matrix in an order that is numbered along its postorder.
fn fronts<R: Threads + Sync + Abort, G: Gate>(
    rt: &R,
    alloc: Global,
    matrix: &str,
    order: &str,
    bound: u64,
    workers: u32,
    gate: &G,
) -> Result<Result<Fronts, FrontsRefusal>, Fail>
    requires { (1 ≤ workers) × (workers ≤ most_workers) }
{
    renumbered_pattern();
    counts_of_fill();
    let pattern = read_pattern(alloc, Vec::from_slice(alloc, matrix.as_bytes())?)?;
    pattern.keeps();
    let perm = read_perm(alloc, order.as_bytes(), pattern.rows())?;
    assert_eq!(rt; perm.len(), pattern.rows());
    let numbered = postordered_etree(alloc, &pattern, &perm)?;
    let counts = counts(alloc, &pattern, &numbered.perm, &numbered.parents)?;
    let assembly = supernodes(alloc, &numbered.parents, &counts)?;
    Ok(run_fronts(
        rt, alloc, &pattern, &numbered, &assembly, bound, workers, gate,
    ))
}

// A matrix and an order, the bound and the number of workers; the rows of each front, the fronts of each round, and the greatest use.
struct Case {
    matrix: &'static str,
    order: &'static str,
    bound: u64,
    workers: u32,
    rows: &'static [&'static [u32]],
    rounds: &'static [&'static [u32]],
    used: u64,
}

#[rattlefmt::skip]
const CASES: &[Case] = &[
    Case { matrix: ARROW, order: ENDS_FIRST, bound: 4, workers: 2, rows: ARROW_ROWS, rounds: &[&[1, 2], &[3]], used: 4 },
    Case { matrix: ARROW, order: ENDS_FIRST, bound: 4, workers: 1, rows: ARROW_ROWS, rounds: &[&[1], &[2], &[3]], used: 4 },
    Case { matrix: DIAGONAL, order: IN_TURN, bound: 3, workers: 2, rows: DIAGONAL_ROWS, rounds: &[&[1, 2], &[3]], used: 2 },
    Case { matrix: DIAGONAL, order: IN_TURN, bound: 1, workers: 2, rows: DIAGONAL_ROWS, rounds: &[&[1], &[2], &[3]], used: 1 },
    Case { matrix: GRID, order: CORNERS_FIRST, bound: 1000, workers: 1, rows: GRID_ROWS, rounds: GRID_ALONE, used: 19 },
    Case { matrix: GRID, order: CORNERS_FIRST, bound: 1000, workers: 4096, rows: GRID_ROWS, rounds: GRID_BY_FOUR, used: 32 },
];

// The rows of each front.
fn check_rows(rt: &impl Abort, made: &Fronts, wanted: &[&[u32]]) {
    assert_eq!(rt; made.len() as usize, wanted.len());
    for (s, rows) in wanted.iter().enumerate() {
        assert!(rt; s < made.len() as usize);
        assert_eq!(rt; made.rows(s as u32 + 1), *rows);
    }
}

// The fronts of each round.
fn check_rounds(rt: &impl Abort, made: &Fronts, wanted: &[&[u32]]) {
    assert_eq!(rt; made.rounds() as usize, wanted.len());
    for (r, round) in wanted.iter().enumerate() {
        assert!(rt; r < made.rounds() as usize);
        assert_eq!(rt; made.round(r as u32 + 1), *round);
    }
}

fn check_case<R: Threads + Sync + Abort>(rt: &R, alloc: Global, case: &Case) -> Result<(), Fail> {
    assert!(rt; 1 <= case.workers && case.workers <= 4096);
    let made = fronts(
        rt,
        alloc,
        case.matrix,
        case.order,
        case.bound,
        case.workers,
        &NoGate,
    )??;
    check_rows(rt, &made, case.rows);
    check_rounds(rt, &made, case.rounds);
    assert_eq!(rt; made.used(), case.used);
    Ok(())
}

#[test]
fn fronts_by_hand(rt: HostRuntime) -> Result<(), Fail> {
    for case in CASES {
        check_case(&rt, rt.alloc(), case)?;
    }
    Ok(())
}

// Matrices, their orders, bounds, and the peaks that are above them.
const TOO_LOW: [(&str, &str, u64, u64); 3] = [
    (ARROW, ENDS_FIRST, 3, 4),
    (DIAGONAL, IN_TURN, 0, 1),
    (GRID, CORNERS_FIRST, 18, 19),
];

#[test]
fn a_bound_below_the_peak_is_refused(rt: HostRuntime) -> Result<(), Fail> {
    for (matrix, order, bound, peak) in TOO_LOW {
        match fronts(&rt, rt.alloc(), matrix, order, bound, 2, &NoGate)? {
            Ok(_) => assert!(rt; false),
            Err(refusal) => {
                assert_eq!(rt; refusal, FrontsRefusal::BoundBelow { bound, peak });
            }
        }
    }
    let refusal = FrontsRefusal::BoundBelow { bound: 3, peak: 4 };
    assert_eq!(rt; format!(in rt.alloc(); "{refusal}")?.as_str(), "bound 3 4");
    Ok(())
}

// Counts how often fronts entered, and sets a bit for the place of each.
#[derive(Drop)]
struct Counts {
    entered: AtomicU32,
    places: AtomicU32,
}

impl Gate for Counts {
    fn enter(&self, place: u32) {
        self.entered.fetch_add(1, Ordering::SeqCst);
        self.places
            .fetch_or(1u32.wrapping_shl(place), Ordering::SeqCst);
    }
}

// 21 fronts, of which four come side by side at most.
#[test]
fn each_front_enters_once(rt: HostRuntime) -> Result<(), Fail> {
    let gate = Counts {
        entered: AtomicU32::new(0),
        places: AtomicU32::new(0),
    };
    let made = fronts(&rt, rt.alloc(), GRID, CORNERS_FIRST, 1000, 9, &gate)??;
    assert_eq!(rt; made.rounds(), 7);
    assert_eq!(rt; gate.entered.load(Ordering::SeqCst), 21);
    assert_eq!(rt; gate.places.load(Ordering::SeqCst), 0b1111);
    Ok(())
}

// Sets a bit for each place, and holds those fronts that are awaited until all of them have entered, for so many looks at most.
#[derive(Drop)]
struct Meeting {
    awaited: u32,
    entered: AtomicU32,
    gave_up: AtomicBool,
}

impl Meeting {
    fn of(awaited: u32) -> Meeting {
        Meeting {
            awaited,
            entered: AtomicU32::new(0),
            gave_up: AtomicBool::new(false),
        }
    }
}

impl Gate for Meeting {
    fn enter(&self, place: u32) {
        let here = 1u32.wrapping_shl(place);
        self.entered.fetch_or(here, Ordering::SeqCst);
        if here & self.awaited == 0 {
            return;
        }
        for _ in 0..10_000_000u32 {
            if self.entered.load(Ordering::SeqCst) & self.awaited == self.awaited {
                return;
            }
            yield_now();
        }
        self.gave_up.store(true, Ordering::SeqCst);
    }
}

#[test]
fn two_fronts_meet(rt: HostRuntime) -> Result<(), Fail> {
    let gate = Meeting::of(0b11);
    let made = fronts(&rt, rt.alloc(), ARROW, ENDS_FIRST, 4, 2, &gate)??;
    assert_eq!(rt; made.rounds(), 2);
    assert_eq!(rt; gate.entered.load(Ordering::SeqCst), 0b11);
    assert!(rt; !gate.gave_up.load(Ordering::SeqCst));
    Ok(())
}

// A matrix whose first vertices, the ends, are each joined to all that come after them, the middle.
fn ends_and_middle(alloc: Global, ends: u32, middle: u32) -> Result<String, Fail> {
    let order = ends.wrapping_add(middle);
    let entries = ends.wrapping_mul(middle);
    let mut matrix = format!(in alloc;
        "%%MatrixMarket matrix coordinate pattern symmetric\n{order} {order} {entries}\n"
    )?;
    for end in 1..=ends {
        for vertex in ends.wrapping_add(1)..=order {
            matrix.push_str(format!(in alloc; "{vertex} {end}\n")?.as_str())?;
        }
    }
    Ok(matrix)
}

// The numbers from one to another.
fn numbers(alloc: Global, from: u32, to: u32) -> Result<Vec<u32>, Fail> {
    let mut numbers = Vec::new(alloc);
    for number in from..=to {
        numbers.push(number)?;
    }
    Ok(numbers)
}

// The order of the numbers, as a file has it.
fn rising(alloc: Global, to: u32) -> Result<String, Fail> {
    let mut order = String::new(alloc);
    for number in 1..=to {
        order.push_str(format!(in alloc; "{number}\n")?.as_str())?;
    }
    Ok(order)
}

// A hundred fronts of one row each, four in a round, each of which enters once.
#[test]
fn many_small_fronts(rt: HostRuntime) -> Result<(), Fail> {
    let alloc = rt.alloc();
    let gate = Counts {
        entered: AtomicU32::new(0),
        places: AtomicU32::new(0),
    };
    let matrix = ends_and_middle(alloc, 100, 0)?;
    let order = rising(alloc, 100)?;
    let made = fronts(&rt, alloc, &matrix, &order, 100, 4, &gate)??;
    assert_eq!(rt; made.len(), 100);
    for s in 0..made.len() {
        assert_eq!(rt; made.rows(s + 1), numbers(alloc, s + 1, s + 1)?.as_slice());
    }
    assert_eq!(rt; made.rounds(), 25);
    for r in 0..made.rounds() {
        let first = r.wrapping_mul(4).wrapping_add(1);
        let four = numbers(alloc, first, first.wrapping_add(3))?;
        assert_eq!(rt; made.round(r + 1), four.as_slice());
    }
    assert_eq!(rt; gate.entered.load(Ordering::SeqCst), 100);
    assert_eq!(rt; gate.places.load(Ordering::SeqCst), 0b1111);
    Ok(())
}

// Twelve fronts of 8,001 rows in one round are made in two halves: the first and the seventh meet. The middle takes up all they leave.
#[test]
fn the_halves_of_a_wide_round_meet(rt: HostRuntime) -> Result<(), Fail> {
    let alloc = rt.alloc();
    let gate = Meeting::of(0b100_0001);
    let matrix = ends_and_middle(alloc, 12, 8000)?;
    let order = rising(alloc, 8012)?;
    let made = fronts(&rt, alloc, &matrix, &order, 200_000, 16, &gate)??;
    assert_eq!(rt; gate.entered.load(Ordering::SeqCst), 0b1111_1111_1111);
    assert!(rt; !gate.gave_up.load(Ordering::SeqCst));
    assert_eq!(rt; made.used(), 104_000);
    assert_eq!(rt; made.rounds(), 2);
    assert_eq!(rt; made.round(1), numbers(alloc, 1, 12)?.as_slice());
    assert_eq!(rt; made.len(), 13);
    let middle = numbers(alloc, 13, 8012)?;
    for s in 0..made.len() {
        let mut rows = numbers(alloc, s + 1, (s + 1).min(12))?;
        rows.extend_from_slice(&middle)?;
        assert_eq!(rt; made.rows(s + 1), rows.as_slice());
    }
    Ok(())
}
