use row_table::{NoMemory, RowBuilder, RowTable};
use std::alloc::Global;
use std::process::Abort;
use std::test::Fail;

// The keys of 5, 6, .. and the rows of these numbers.
const ROWS: [(&[u32], [&[u32]; 4]); 4] = [
    (&[], [&[], &[], &[], &[]]),
    (&[3, 3, 3], [&[], &[], &[], &[5, 6, 7]]),
    (&[2, 0, 3, 0, 2, 2], [&[6, 8], &[], &[5, 9, 10], &[7]]),
    (&[3, 2, 1, 0], [&[8], &[7], &[6], &[5]]),
];

fn check_rows(rt: &impl Abort, table: &RowTable, rows: &[&[u32]; 4]) {
    assert_eq!(rt; table.len(), 4);
    for (k, row) in rows.iter().enumerate() {
        assert!(rt; k < 4);
        assert_eq!(rt; table.row(k as u32), *row);
    }
}

#[test]
fn rows_by_keys(rt: HostRuntime) -> Result<(), Fail> {
    for (keys, rows) in ROWS {
        assert!(rt; keys.iter().all(|key| *key < 4));
        assert!(rt; keys.len() < 10);
        let table = RowTable::group(rt.alloc(), keys, 4, 5)?;
        check_rows(&rt, &table, &rows);
    }
    Ok(())
}

#[test]
fn a_row_is_written_alone(rt: HostRuntime) -> Result<(), Fail> {
    let mut table = RowTable::group(rt.alloc(), &[1, 0, 1, 2, 1, 0], 3, 0)?;
    assert_eq!(rt; table.row(1).len(), 3);
    table.set_row(1, &[4, 0, 2]);
    let rows: [&[u32]; 3] = [&[1, 5], &[4, 0, 2], &[3]];
    for (k, row) in rows.iter().enumerate() {
        assert!(rt; k < table.len());
        assert_eq!(rt; table.row(k as u32), *row);
    }
    Ok(())
}

// Rows with room for 3, 2, 0 and 4 numbers, of which the second and the last one do not fill theirs.
fn grown_rows(alloc: Global) -> Result<RowBuilder, NoMemory> {
    let mut builder = RowBuilder::new(alloc, &[3, 2, 0, 4])?;
    builder.push(3, 7);
    builder.push(0, 9);
    builder.push(3, 2);
    builder.push(0, 4);
    builder.push(3, 7);
    builder.push(0, 9);
    Ok(builder)
}

#[test]
fn rows_that_grow(rt: HostRuntime) -> Result<(), Fail> {
    let table = grown_rows(rt.alloc())?.into_table();
    check_rows(&rt, &table, &[&[9, 4, 9], &[], &[], &[7, 2, 7]]);
    Ok(())
}

#[test]
fn rows_in_order_each_number_once(rt: HostRuntime) -> Result<(), Fail> {
    let mut builder = grown_rows(rt.alloc())?;
    builder.sort_rows();
    check_rows(&rt, &builder.into_table(), &[&[4, 9], &[], &[], &[2, 7]]);
    Ok(())
}
