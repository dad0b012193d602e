ghost use Rattle.std.specs.Prelude.{◌≤◌};
ghost use Rattle.limits.specs.Limits.{most_workers};

use claim_check::{Objection, Shape, Verdict, View, are_claims, check, check_alone, check_at};
use mp_outside::{Gate, NoGate};
use mp_system::{OrderFault, OrderKind};
use plans::Direction::{self, Backward, Forward};
use plans::{Claim, Plan, is_plan};
use sp_terms::system_of;
use std::alloc::{AllocError, Global};
use std::process::Abort;
use std::rt::HostRuntime;
use std::sync::atomic::{AtomicBool, AtomicU32, Ordering};
use std::test::Fail;
use std::thread::{Threads, yield_now};
use workflow_files::read_workflow;

// Two chains of two tasks below a root, all with extras of 9 or 0: 13 positions, and a least peak of 11.
const FIVE: &[u8] = b"workflow 1\ntasks 5\ndata 0\ndata 1\ntask 9 1\ndata 5\ntask 0 1\n\
    data 0\ndata 1\ntask 9 1\ndata 5\ntask 0 1\npar 2\ndata 0\ntask 0 1\nend\n";

// A claim: its position, its direction, its bound and its rest.
type Told = (u32, Direction, i64, u64);

fn claim((position, dir, bound, rest): Told) -> Claim {
    Claim {
        position,
        dir,
        bound,
        rest,
    }
}

fn claims_of(alloc: Global, told: &[Told]) -> Result<Vec<Claim>, AllocError> {
    told.iter().map(|it| claim(*it)).collect(alloc)
}

// The order of a plan of the five tasks, of peak 11.
const ORDER: &[u32] = &[1, 3, 2, 4, 5];

// The claims of the plan.
#[rattlefmt::skip]
const CERTIFICATE: &[Told] = &[(5, Backward, 5, 5), (10, Backward, 5, 5), (11, Backward, 10, 10), (13, Backward, 10, 0)];

fn claim_at(position: u32) -> Claim {
    claim((position, Forward, 0, 0))
}

#[test]
fn claims_stand_at_rising_positions_from_1(rt: HostRuntime) {
    assert!(rt; are_claims(&[]));
    assert!(rt; are_claims(&[claim_at(1), claim_at(2), claim_at(4_294_967_295)]));
}

const FALLING: &[(u32, u32)] = &[(0, 1), (2, 2), (3, 2)];

#[test]
fn claims_at_0_or_that_do_not_rise_are_refused(rt: HostRuntime) {
    for (first, second) in FALLING {
        assert!(rt; !are_claims(&[claim_at(*first), claim_at(*second)]));
    }
}

// Of the positions to 100, something is said of 99 alone.
fn check_outside(rt: &impl Abort, view: &View<'_>) {
    for position in 0..99 {
        assert!(rt; check_at(view, position).is_none());
    }
    assert_eq!(rt; check_at(view, 99), Some(Shape::Outside));
    assert_eq!(rt; check_at(view, 100), None);
}

#[rattlefmt::skip]
const PAST_THE_LAST: &[Told] = &[
    (5, Backward, 5, 5), (10, Backward, 5, 5), (11, Backward, 10, 10), (13, Backward, 10, 0), (99, Backward, 0, 0),
];

#[test]
fn a_claim_past_the_last_position_is_outside(rt: HostRuntime) -> Result<(), Fail> {
    let terms = read_workflow(rt.alloc(), FIVE)?;
    let claims = claims_of(rt.alloc(), PAST_THE_LAST)?;
    assert!(rt; are_claims(&claims));
    let view = View::new(rt.alloc(), &terms, &claims)?;
    assert_eq!(rt; view.len(), 13);
    check_outside(&rt, &view);
    Ok(())
}

// The lowest position of the term whose claim fails, and its shape.
fn lowest(view: &View<'_>) -> Option<(u32, Shape)> {
    for position in 1..=13 {
        if let Some(shape) = check_at(view, position) {
            return Some((position, shape));
        }
    }
    None
}

// One claim of the plan is altered. Whether the bound of the last claim is great enough for a peak isn't judged here.
const ALTERED: &[(usize, Told, Option<(u32, Shape)>)] = &[
    (0, (5, Backward, 6, 5), Some((5, Shape::Series))),
    (0, (5, Backward, 4, 5), Some((11, Shape::Par))),
    (0, (5, Backward, 5, 6), Some((5, Shape::Series))),
    (0, (5, Backward, 5, 4), Some((11, Shape::Par))),
    (0, (5, Forward, 5, 5), Some((5, Shape::Series))),
    (0, (4, Backward, 5, 5), Some((4, Shape::Hold))),
    (0, (4, Backward, 4, 6), Some((4, Shape::Hold))),
    (2, (11, Backward, 11, 10), Some((11, Shape::Par))),
    (2, (11, Backward, 9, 10), Some((13, Shape::Series))),
    (2, (11, Backward, 10, 9), None),
    (2, (11, Backward, 10, 11), Some((11, Shape::Par))),
    (2, (11, Forward, 10, 10), Some((11, Shape::Par))),
    (3, (13, Backward, 11, 0), Some((13, Shape::Series))),
    (3, (13, Backward, 9, 0), None),
    (3, (13, Backward, 10, 1), Some((13, Shape::Series))),
    (3, (13, Forward, 10, 0), None),
];

// The plan's claims with another one at a place.
fn altered(alloc: Global, place: usize, told: Told) -> Result<Vec<Claim>, AllocError> {
    let mut claims = claims_of(alloc, CERTIFICATE)?;
    if let Some(own) = claims.get_mut(place) {
        *own = claim(told);
    }
    Ok(claims)
}

#[test]
fn an_altered_claim_fails_or_is_met_otherwise(rt: HostRuntime) -> Result<(), Fail> {
    let terms = read_workflow(rt.alloc(), FIVE)?;
    for (place, told, expected) in ALTERED {
        let claims = altered(rt.alloc(), *place, *told)?;
        assert!(rt; are_claims(&claims));
        let view = View::new(rt.alloc(), &terms, &claims)?;
        assert!(rt; lowest(&view) == *expected);
    }
    Ok(())
}

// An order, its peak, and claims on the term.
type Parts = (&'static [u32], u64, &'static [Told]);

// The plan of these parts, without a priority.
fn plan_of(alloc: Global, parts: Parts) -> Result<Plan, Fail> {
    let (order, peak, told) = parts;
    let claims = claims_of(alloc, told)?;
    if !is_plan(alloc, order, peak, &claims, &[])? {
        return Err(Fail::from("parts of a plan"));
    }
    let order = Vec::from_slice(alloc, order)?;
    Ok(Plan::new(order, peak, claims, Vec::new(alloc)))
}

// What is said of a plan for a workflow.
fn verdict<R: Threads + Sync, G: Gate>(
    rt: &R,
    alloc: Global,
    workflow: &[u8],
    plan: Parts,
    workers: u32,
    gate: &G,
) -> Result<Verdict, Fail>
    requires { (1 ≤ workers) × (workers ≤ most_workers) }
{
    let terms = read_workflow(alloc, workflow)?;
    let system = system_of(alloc, &terms)?;
    let plan = plan_of(alloc, plan)?;
    Ok(check(rt, alloc, &system, &terms, &plan, workers, gate)?)
}

// The same in one thread.
fn verdict_alone(alloc: Global, workflow: &[u8], plan: Parts) -> Result<Verdict, Fail> {
    let terms = read_workflow(alloc, workflow)?;
    let system = system_of(alloc, &terms)?;
    let plan = plan_of(alloc, plan)?;
    Ok(check_alone(alloc, &system, &terms, &plan)?)
}

// Two chains that shrink before they grow.
const TWO_CHAINS: &[u8] = b"workflow 1\ntasks 4\ndata 4\ndata 1\ntask 0 1\ndata 3\ntask 6 1\n\
    data 4\ndata 1\ntask 0 1\ndata 3\ntask 6 1\npar 2\nend\n";

// A task that takes over the 4 that it finds, so that its hill is 4 + 2 + 3 - 4.
const IN_PLACE: &[u8] = b"workflow 2\ntasks 1\ndata 4\ndata 3\ntask 2 4 1\nend\n";

// A workflow, a plan, and what is said of it.
type Judged = (&'static [u8], Parts, Verdict);

// Workflows, plans, and their verdicts by one worker, by four, and without a thread.
fn check_verdicts<R: Threads + Sync + Abort>(
    rt: &R,
    alloc: Global,
    rows: &[Judged],
) -> Result<(), Fail> {
    for (workflow, plan, expected) in rows {
        for workers in [1, 4] {
            let said = verdict(rt, alloc, workflow, *plan, workers, &NoGate)?;
            assert_eq!(rt; said, *expected);
        }
        assert_eq!(rt; verdict_alone(alloc, workflow, *plan)?, *expected);
    }
    Ok(())
}

#[rattlefmt::skip]
const SMALL: &[Judged] = &[
    // a single node
    (b"workflow 1\ntasks 1\ndata 0\ndata 7\ntask 2 1\nend\n", (&[1], 9, &[(3, Backward, 8, 7)]), Verdict::Yes(9)),
    // one without memory
    (b"workflow 1\ntasks 1\ndata 0\ndata 0\ntask 0 1\nend\n", (&[1], 0, &[(1, Forward, -1, 0), (3, Forward, -1, 0)]), Verdict::Yes(0)),
    // two data items side by side
    (b"workflow 1\ntasks 0\ndata 10\ndata 10\npar 2\nend\n",
        (&[], 20, &[(1, Forward, 9, 10), (2, Forward, 9, 10), (3, Forward, 19, 20)]), Verdict::Yes(20)),
    // two roots
    (b"workflow 1\ntasks 2\ndata 0\ndata 3\ntask 0 1\ndata 0\ndata 4\ntask 1 1\npar 2\nend\n",
        (&[2, 1], 7, &[(3, Backward, 2, 3), (6, Backward, 3, 4), (7, Backward, 6, 7)]), Verdict::Yes(7)),
];

#[test]
fn small_workflows_have_their_verdicts(rt: HostRuntime) -> Result<(), Fail> {
    check_verdicts(&rt, rt.alloc(), SMALL)
}

#[rattlefmt::skip]
const CHAINS_AND_SHARES: &[Judged] = &[
    (TWO_CHAINS, (&[1, 3, 2, 4], 13, &[(5, Backward, 9, 3), (10, Backward, 9, 3), (11, Backward, 12, 6)]), Verdict::Yes(13)),
    // with a bound of position 5 that is below 12 - 3
    (TWO_CHAINS, (&[1, 3, 2, 4], 13, &[(5, Backward, 8, 3), (10, Backward, 9, 3), (11, Backward, 12, 6)]),
        Verdict::No(Objection::Claim { position: 11, shape: Shape::Par })),
    (IN_PLACE, (&[1], 5, &[(3, Forward, 4, 4)]), Verdict::Yes(5)),
    // with a bound of 5
    (IN_PLACE, (&[1], 5, &[(3, Forward, 5, 4)]), Verdict::No(Objection::Claim { position: 3, shape: Shape::Series })),
];

#[test]
fn chains_and_shares_have_their_verdicts(rt: HostRuntime) -> Result<(), Fail> {
    check_verdicts(&rt, rt.alloc(), CHAINS_AND_SHARES)
}

// Plans of the five tasks, and the first objection to each, by any number of workers.
fn check_objections<R: Threads + Sync + Abort>(
    rt: &R,
    alloc: Global,
    rows: &[(Parts, Objection)],
) -> Result<(), Fail> {
    for (plan, objection) in rows {
        for workers in [1, 2, 3, 13, 4096] {
            let said = verdict(rt, alloc, FIVE, *plan, workers, &NoGate)?;
            assert_eq!(rt; said, Verdict::No(*objection));
        }
    }
    Ok(())
}

#[rattlefmt::skip]
const NO_TRAVERSALS: &[(Parts, Objection)] = &[
    ((&[2, 1, 3, 4, 5], 11, CERTIFICATE), Objection::Order(OrderFault { place: 1, kind: OrderKind::TooEarly })),
    ((&[1, 1], 10, &[]), Objection::Order(OrderFault { place: 2, kind: OrderKind::Repeated })),
    ((&[9], 11, &[]), Objection::Order(OrderFault { place: 1, kind: OrderKind::Unknown })),
    ((&[1, 2, 3, 4], 1, &[(4, Backward, 5, 5)]), Objection::Order(OrderFault { place: 5, kind: OrderKind::Missing })),
];

#[test]
fn an_order_that_is_no_traversal_comes_first(rt: HostRuntime) -> Result<(), Fail> {
    check_objections(&rt, rt.alloc(), NO_TRAVERSALS)
}

#[rattlefmt::skip]
const PEAKS_AND_WHOLES: &[(Parts, Objection)] = &[
    ((ORDER, 10, CERTIFICATE), Objection::Peak { replayed: 11, printed: 10 }),
    ((&[1, 2, 3, 4, 5], 11, &[(5, Forward, 5, 5)]), Objection::Peak { replayed: 15, printed: 11 }),
    ((ORDER, 11, &[(5, Backward, 5, 5), (10, Backward, 5, 5), (11, Backward, 10, 10)]), Objection::Root { last: 13 }),
    ((ORDER, 11, &[(5, Forward, 5, 5), (10, Backward, 5, 5), (11, Backward, 10, 10), (13, Backward, 9, 0)]), Objection::Root { last: 13 }),
];

#[test]
fn then_the_peak_and_the_claim_on_the_whole(rt: HostRuntime) -> Result<(), Fail> {
    check_objections(&rt, rt.alloc(), PEAKS_AND_WHOLES)
}

// At a position of the term, or past the last.
#[rattlefmt::skip]
const FAILING: &[(Parts, Objection)] = &[
    ((ORDER, 11, &[(5, Backward, 5, 5), (10, Backward, 5, 5), (11, Backward, 10, 11), (13, Backward, 10, 0)]),
        Objection::Claim { position: 11, shape: Shape::Par }),
    ((ORDER, 11, &[(4, Backward, 5, 5), (5, Forward, 5, 5), (10, Backward, 5, 5), (11, Backward, 10, 11), (13, Backward, 10, 0)]),
        Objection::Claim { position: 4, shape: Shape::Hold }),
    ((ORDER, 11, PAST_THE_LAST), Objection::Claim { position: 99, shape: Shape::Outside }),
    ((ORDER, 11, &[(5, Backward, 5, 5), (10, Backward, 5, 5), (11, Backward, 10, 10), (13, Backward, 10, 0), (14, Backward, 0, 0),
            (99, Backward, 0, 0)]),
        Objection::Claim { position: 14, shape: Shape::Outside }),
    ((ORDER, 11, &[(5, Backward, 5, 5), (10, Backward, 5, 5), (11, Backward, 10, 10), (13, Backward, 10, 1), (99, Backward, 0, 0)]),
        Objection::Claim { position: 13, shape: Shape::Series }),
];

#[test]
fn then_the_lowest_claim_that_fails(rt: HostRuntime) -> Result<(), Fail> {
    check_objections(&rt, rt.alloc(), FAILING)
}

// Counts how often chunks were entered, and adds up their numbers.
#[derive(Drop)]
struct Counts {
    entered: AtomicU32,
    numbers: AtomicU32,
}

impl Gate for Counts {
    fn enter(&self, chunk: u32) {
        self.entered.fetch_add(1, Ordering::SeqCst);
        self.numbers
            .fetch_or(1u32.wrapping_shl(chunk), Ordering::SeqCst);
    }
}

// Workers, and the chunks that 13 positions come to: of 13, 7, 5, 2 and 1.
const CHUNKS: [(u32, u32); 6] = [(1, 1), (2, 2), (3, 3), (12, 7), (13, 13), (4096, 13)];

// Each chunk sets a bit. Any number of workers accepts the plan.
#[test]
fn each_chunk_is_entered_once(rt: HostRuntime) -> Result<(), Fail> {
    for (workers, chunks) in CHUNKS {
        let gate = Counts {
            entered: AtomicU32::new(0),
            numbers: AtomicU32::new(0),
        };
        let said = verdict(
            &rt,
            rt.alloc(),
            FIVE,
            (ORDER, 11, CERTIFICATE),
            workers,
            &gate,
        )?;
        assert_eq!(rt; said, Verdict::Yes(11));
        assert_eq!(rt; gate.entered.load(Ordering::SeqCst), chunks);
        assert_eq!(rt;
            gate.numbers.load(Ordering::SeqCst),
            1u32.wrapping_shl(chunks) - 1
        );
    }
    Ok(())
}

// Sets a bit for each chunk, and holds it until the first two have entered, for so many looks at most.
#[derive(Drop)]
struct Meeting {
    entered: AtomicU32,
    gave_up: AtomicBool,
}

impl Gate for Meeting {
    fn enter(&self, chunk: u32) {
        self.entered
            .fetch_or(1u32.wrapping_shl(chunk), Ordering::SeqCst);
        for _ in 0..10_000_000u32 {
            if self.entered.load(Ordering::SeqCst) == 0b11 {
                return;
            }
            yield_now();
        }
        self.gave_up.store(true, Ordering::SeqCst);
    }
}

#[test]
fn two_chunks_meet(rt: HostRuntime) -> Result<(), Fail> {
    let gate = Meeting {
        entered: AtomicU32::new(0),
        gave_up: AtomicBool::new(false),
    };
    let said = verdict(&rt, rt.alloc(), FIVE, (ORDER, 11, CERTIFICATE), 2, &gate)?;
    assert_eq!(rt; said, Verdict::Yes(11));
    assert_eq!(rt; gate.entered.load(Ordering::SeqCst), 0b11);
    assert!(rt; !gate.gave_up.load(Ordering::SeqCst));
    Ok(())
}

// Shapes, and their words.
const WORDS: &[(Shape, &str)] = &[
    (Shape::Hold, "data"),
    (Shape::Series, "series"),
    (Shape::Par, "par"),
    (Shape::Outside, "outside"),
];

#[test]
fn shapes_have_their_words(rt: HostRuntime) -> Result<(), Fail> {
    for (shape, word) in WORDS {
        assert_eq!(rt; shape.word(), *word);
        let text = format!(in rt.alloc(); "{shape}")?;
        assert_eq!(rt; text.as_str(), *word);
    }
    Ok(())
}
