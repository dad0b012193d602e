ghost use Rattle.std.specs.Prelude.{◌≡◌, ◌++◌, ◌∷◌, ◌+◌, ◌≤◌, ℕ, length, map, IfOk, OnOk};
ghost use Rattle.std.specs.List.{range_with_len};
ghost use Rattle.row_table.specs.Rows.{row_at};
ghost use Rattle.permutations.specs.Perm.{IsPart};
ghost use Rattle.assembly_tree.specs.Assembly.{columns_in, super_of};
ghost use Rattle.equivalent_orders.specs.Fronts.{columns_in_front, vertices_in_front, vertices_along};

use crate::NoMemory;
use assembly_tree::{Assembly, Super};
use permutations::{PartialPerm, Perm};
use row_table::laws::numbers_law;
use row_table::{RowBuilder, RowTable};
use std::alloc::Global;

// The front of each column.
fn fronts_of_columns(alloc: Global, assembly: &Assembly) -> Result<Vec<u32>, NoMemory>
    ensures { IfOk result
        (λ fronts. fronts.items ≡ map (super_of assembly.now.nodes) (range_with_len 1 (length assembly.now.nodes))) }
{
    let _supers = assembly.supers();
    (1..assembly.columns() + 1)
        .map(|column| assembly.super_of(column))
        .collect(alloc)
}

/// The columns of each front of an assembly tree, by rising number: row s has those of front s, and row 0 has none. Linear in the columns.
pub fn columns_by_front(alloc: Global, assembly: &Assembly) -> Result<RowTable, NoMemory>
    ensures len { IfOk result (λ rows. length rows ≡ length assembly.now.supers + 1) }
    ensures rows { IfOk result (λ rows. (s : ℕ) → s ≤ length assembly.now.supers → row_at rows s ≡ columns_in_front assembly.now s) }
{
    numbers_law();
    let count = assembly.supers().len() as u32 + 1;
    let fronts = fronts_of_columns(alloc, assembly)?;
    RowTable::group(alloc, &fronts, count, 1)
}

// How many columns each front has, after a 0.
fn rooms_of_fronts(alloc: Global, supers: &[Super]) -> Result<Vec<u32>, NoMemory>
    ensures { IfOk result (λ rooms. rooms.items ≡ 0 ∷ map columns_in supers.now) }
{
    let mut rooms = Vec::with_capacity(alloc, supers.len() + 1)?;
    rooms.push(0)?;
    for front in supers {
        rooms.push(front.columns)?;
    }
    Ok(rooms)
}

/// The vertices of the columns of each front, where the columns are numbered in the order `perm`: row s has those of front s, by rising
/// column, and row 0 has none. Linear in the columns.
pub fn vertices_by_front(
    alloc: Global,
    perm: &Perm,
    assembly: &Assembly,
) -> Result<RowTable, NoMemory>
    requires columns { length perm.now ≡ length assembly.now.nodes }
    ensures len { IfOk result (λ rows. length rows ≡ length assembly.now.supers + 1) }
    ensures rows { IfOk result (λ rows.
        (s : ℕ) → s ≤ length assembly.now.supers → row_at rows s ≡ vertices_in_front perm.now assembly.now s) }
{
    let rooms = rooms_of_fronts(alloc, assembly.supers())?;
    let mut rows = RowBuilder::new(alloc, &rooms)?;
    for column in 1..assembly.columns() + 1 {
        rows.push(assembly.super_of(column), perm.at(column));
    }
    Ok(rows.into_table())
}

// Puts further vertices at the end of an order.
fn push_vertices(order: &mut PartialPerm, vertices: &[u32]) -> Result<(), NoMemory>
    requires { IsPart order.old.n (order.old.numbers ++ vertices.now) }
    ensures { OnOk result (order.new ≡ record order.old { numbers = order.old.numbers ++ vertices.now }) }
{
    for vertex in vertices {
        order.push(*vertex)?;
    }
    Ok(())
}

/// The order of elimination that goes along the fronts of an assembly tree, one after another, where its columns are numbered in the order
/// `perm`. Linear in the columns. What it keeps say `laws::columns_of_fronts` and `laws::topological_orders`.
pub fn order_along(
    alloc: Global,
    perm: &Perm,
    assembly: &Assembly,
    fronts: &Perm,
) -> Result<Perm, NoMemory>
    requires columns { length perm.now ≡ length assembly.now.nodes }
    requires fronts { length fronts.now ≡ length assembly.now.supers }
    ensures { IfOk result (λ order. order ≡ vertices_along perm.now assembly.now fronts.now) }
{
    perm.keeps();
    let _supers = assembly.supers();
    let vertices = vertices_by_front(alloc, perm, assembly)?;
    let mut order = PartialPerm::new(alloc, perm.len())?;
    for place in 1..fronts.len() + 1 {
        push_vertices(&mut order, vertices.row(fronts.at(place)))?;
    }
    Ok(order.finish())
}
