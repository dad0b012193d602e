ghost use Rattle.std.specs.Prelude.{◌≡◌, ◌<◌, length};

use bit_rows::BitRow;
use std::alloc::Global;
use std::process::Abort;
use std::rt::HostRuntime;
use std::test::Fail;

const LEN: usize = 200;

// A row of LEN numbers with these.
fn row_of(alloc: Global, numbers: &[usize]) -> Result<BitRow, Fail> {
    let mut row = BitRow::new(alloc, LEN)?;
    for &x in numbers {
        if x < row.len() {
            row.insert(x);
        }
    }
    Ok(row)
}

// Just these are in, by rising number.
fn check_numbers(rt: &impl Abort, row: &BitRow, numbers: &[usize]) {
    assert_eq!(rt; row.first(), numbers.first().copied());
    for x in 0..row.len() {
        assert_eq!(rt; row.has(x), numbers.contains(&x), "{x}");
    }
}

#[test]
fn numbers_that_are_put_in_and_taken_out(rt: HostRuntime) -> Result<(), Fail> {
    let alloc = rt.alloc();
    let mut row = row_of(alloc, &[])?;
    check_numbers(&rt, &row, &[]);
    let rows: [(usize, bool, &[usize]); 6] = [
        (199, true, &[199]),
        (64, true, &[64, 199]),
        (63, true, &[63, 64, 199]),
        (64, true, &[63, 64, 199]),
        (63, false, &[64, 199]),
        (1, false, &[64, 199]),
    ];
    for (x, is_in, numbers) in rows {
        if x < row.len() {
            row.put(x, is_in);
        }
        check_numbers(&rt, &row, numbers);
    }
    Ok(())
}

#[test]
fn two_rows(rt: HostRuntime) -> Result<(), Fail> {
    let alloc = rt.alloc();
    let mut row = row_of(alloc, &[0, 63, 64, 150])?;
    let other = row_of(alloc, &[63, 65, 150, 199])?;
    assert_eq!(rt; other.len(), row.len());
    assert_eq!(rt; row.count_common(&other), 2);
    let copy = row.copy()?;
    row.unite(&other);
    check_numbers(&rt, &row, &[0, 63, 64, 65, 150, 199]);
    check_numbers(&rt, &copy, &[0, 63, 64, 150]);
    Ok(())
}

#[test]
fn words_of_a_row(rt: HostRuntime) -> Result<(), Fail> {
    let alloc = rt.alloc();
    let row = row_of(alloc, &[3, 130, 199])?;
    assert_eq!(rt; row.words(), [8u64, 0, 4, 128].as_slice());
    assert_eq!(rt; BitRow::empty(alloc).words().len(), 0);
    Ok(())
}
