//! Lists of numbers that are gathered from several, some maybe more than once.

ghost use Rattle.std.specs.Prelude.{◌≡◌, ◌≤◌, All, length, OnOk};
ghost use Rattle.std.specs.List.{list_any};
ghost use Rattle.rounds_run.specs.Gathering.{Adds, in_lists, is_later};

use crate::NoMemory;
use permutations::Perm;
use row_table::NumberList;

/// Puts the columns of those vertices at the end that are eliminated after column `first`.
pub fn add_later(
    perm: &Perm,
    first: u32,
    vertices: &[u32],
    list: &mut Vec<u32>,
) -> Result<(), NoMemory>
    requires { All (λ v. v ≤ length perm.now) vertices.now }
    ensures { OnOk result
        (Adds (λ x. list_any (is_later perm.now first x) vertices.now) list.old.items list.new.items) }
{
    for vertex in vertices {
        let column = perm.place(*vertex);
        if column > first {
            list.push(column)?;
        }
    }
    Ok(())
}

/// Puts the numbers of all lists at the end.
pub fn add_lists(lists: &[NumberList], list: &mut Vec<u32>) -> Result<(), NoMemory>
    ensures { OnOk result (Adds (in_lists lists.now) list.old.items list.new.items) }
{
    for numbers in lists {
        list.extend_from_slice(numbers.as_slice())?;
    }
    Ok(())
}
