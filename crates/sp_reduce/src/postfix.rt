//! The term of a piece, written as positions in postfix order: from its last position back, so that no call goes into a term's depth.

ghost use Rattle.std.specs.Prelude.{◌≡◌, ◌≤◌, ◌<◌, ◌+◌, ◌-◌, ◌^◌, ◌++◌, [], ◌∷◌, ℕ, All, length, min, slice_index, IfOk};
ghost use Rattle.limits.specs.Limits.{most_positions};
ghost use Rattle.sp_terms.specs.Postfix.{postfix};
ghost use Rattle.graphs.specs.Graph.{IsAmong, listed_task};
ghost use Rattle.sp_reduce.specs.Nets.{names};
ghost use Rattle.sp_reduce.specs.Pieces.{AreMade, net_at, nets_of, piece_at};
ghost use Rattle.sp_reduce.specs.Shapes.{parts_of, size_of, term_of_net};
ghost use Rattle.sp_reduce.specs.Writing.{IsKnown, children, own_positions, own_names};

use crate::NoMemory;
use crate::piece::Piece;
use mp_system::Task;
use sp_terms::Position;
use std::alloc::Global;

/// A piece that is still to be written, and whether it stands among the parts of a `par` that is written.
#[derive(Clone, Copy)]
pub struct Pending {
    piece: u32,
    among: bool,
}

/// Positions in postfix order, and the tasks among them by their names.
#[derive(Drop)]
pub struct Written {
    pub positions: Vec<Position>,
    pub names: Vec<u32>,
}

// How many parts each piece has, side by side; the counts of the pieces of one term fit.
fn part_counts(alloc: Global, pieces: &[Piece]) -> Result<Vec<u32>, NoMemory>
    requires { AreMade pieces.now }
    ensures len { IfOk result (λ counts. length counts.items ≡ length pieces.now) }
    ensures counts { IfOk result (λ counts. (i : ℕ) → i < length pieces.now →
        slice_index counts.items i ≡ min (parts_of (net_at (nets_of pieces.now) i)) (2 ^ 32 - 1)) }
{
    let mut counts: Vec<u32> = Vec::new(alloc);
    for piece in pieces {
        let count = match *piece {
            Piece::Both { first, second } => {
                counts[first as usize].saturating_add(counts[second as usize])
            }
            _ => 1,
        };
        counts.push(count)?;
    }
    Ok(counts)
}

// Writes what is a piece's own, and leaves the pieces that it is made of to be written.
fn write_next(
    tasks: &[Task],
    pieces: &[Piece],
    counts: &[u32],
    next: Pending,
    pending: &mut Vec<Pending>,
    written: &mut Written,
) -> Result<(), NoMemory>
    requires place { (next.piece < length pieces.now) × (next.piece < length counts.now) }
    requires known { IsKnown (length tasks.now) (piece_at pieces.now next.piece) }
    ensures pending { IfOk result (λ _. pending.new.items ≡ pending.old.items ++ children next.among (piece_at pieces.now next.piece)) }
    ensures positions { IfOk result (λ _. written.new.positions.items ≡ written.old.positions.items
        ++ own_positions (listed_task tasks.now) next.among (slice_index counts.now next.piece) (piece_at pieces.now next.piece)) }
    ensures names { IfOk result (λ _. written.new.names.items ≡ written.old.names.items ++ own_names (piece_at pieces.now next.piece)) }
{
    match pieces[next.piece as usize] {
        Piece::Hold(size) => written.positions.push(Position::Hold(size))?,
        Piece::Series {
            first,
            task,
            second,
        } => {
            let Task { extra, share, time } = tasks[task as usize - 1];
            written
                .positions
                .push(Position::Task { extra, share, time })?;
            written.names.push(task)?;
            push_two(pending, first, second, false)?;
        }
        Piece::Both { first, second } => {
            if !next.among {
                written
                    .positions
                    .push(Position::Par(counts[next.piece as usize]))?;
            }
            push_two(pending, first, second, true)?;
        }
    }
    Ok(())
}

// Leaves two pieces to be written, the second one next.
fn push_two(
    pending: &mut Vec<Pending>,
    first: u32,
    second: u32,
    among: bool,
) -> Result<(), NoMemory>
    ensures { IfOk result (λ _. pending.new.items ≡ pending.old.items
        ++ record { piece = first; among = among } ∷ record { piece = second; among = among } ∷ []) }
{
    pending.push(Pending {
        piece: first,
        among,
    })?;
    pending.push(Pending {
        piece: second,
        among,
    })?;
    Ok(())
}

/// The positions of the term of a piece, and the names of its tasks in their order.
pub fn write_term(
    alloc: Global,
    tasks: &[Task],
    pieces: &[Piece],
    root: u32,
) -> Result<Written, NoMemory>
    requires made { AreMade pieces.now }
    requires root { root < length pieces.now }
    requires names { All (IsAmong (length tasks.now)) (names (net_at (nets_of pieces.now) root)) }
    requires small { size_of (net_at (nets_of pieces.now) root) ≤ most_positions }
    ensures positions { IfOk result (λ w. w.positions.items
        ≡ postfix (term_of_net (listed_task tasks.now) (net_at (nets_of pieces.now) root))) }
    ensures names { IfOk result (λ w. w.names.items ≡ names (net_at (nets_of pieces.now) root)) }
{
    let counts = part_counts(alloc, pieces)?;
    let mut written = Written {
        positions: Vec::new(alloc),
        names: Vec::new(alloc),
    };
    let mut pending: Vec<Pending> = Vec::new(alloc);
    pending.push(Pending {
        piece: root,
        among: false,
    })?;
    while let Some(next) = pending.pop() {
        write_next(tasks, pieces, &counts, next, &mut pending, &mut written)?;
    }
    written.positions.reverse();
    written.names.reverse();
    Ok(written)
}
