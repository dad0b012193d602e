//! Gaps between rows, closed where the rows lie.

ghost use Rattle.std.specs.Prelude.{◌≡◌, ◌≤◌, ◌+◌, ◌-◌, ◌++◌, length, take, drop, slice_range};
ghost use Rattle.row_table.specs.Rooms.{rows_in_rooms, AreRooms};
ghost use Rattle.row_table.specs.Table.{rows_of, IsTable};

// Moves the numbers between two places down, so that they begin at another one.
fn move_down(numbers: &mut [u32], start: u32, end: u32, to: u32)
    requires { (to ≤ start) × (start ≤ end) × (end ≤ length numbers.old) }
    ensures moved { take (to + (end - start)) numbers.new ≡ take to numbers.old ++ slice_range numbers.old start end }
    ensures later { drop end numbers.new ≡ drop end numbers.old }
{
    if to < start {
        numbers.copy_within(start as usize..end as usize, to as usize);
    }
}

/// Moves each row down to the end of the one before, so that it ends where the next one starts.
pub fn close_gaps(starts: &mut [u32], ends: &[u32], numbers: &mut [u32])
    requires { AreRooms starts.old ends.now numbers.old }
    ensures table { IsTable starts.new numbers.new }
    ensures rows { rows_of starts.new numbers.new ≡ (rows_in_rooms starts.old ends.now numbers.old).rows }
{
    let mut to = 0;
    for k in 0..ends.len() {
        let start = starts[k];
        let end = ends[k];
        move_down(numbers, start, end, to);
        starts[k] = to;
        to += end - start;
    }
    starts[ends.len()] = to;
}
