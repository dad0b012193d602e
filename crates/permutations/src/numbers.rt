//! Whether numbers that a caller gives are an order of elimination.

ghost use Rattle.std.specs.Prelude.{◌≡◌, ◌≤◌, ◌<◌, ◌+◌, ◌∷◌, All, length, IfOk, IfErr, OnOk, MatchOption};
ghost use Rattle.permutations.specs.Perm.{IsPerm};
ghost use Rattle.permutations.specs.Order.{IsNumbersRefusal, PlaceFits, order_given};
ghost use Rattle.permutations.specs.PlaceTables.{ArePlaced};
ghost use Rattle.lists.specs.Numbers.{IsNumberFrom, from_one, number_at};

use crate::NoMemory;
use crate::perm::Perm;
use std::alloc::Global;

/// Why numbers are no order of elimination.
#[derive(Clone, Copy, Debug, PartialEq, Eq)]
pub enum PermRefusal {
    /// There are not as many places as columns.
    Places,
    /// At this place, the first that is not right, counted from 1, stands the number of no column.
    Unknown(u32),
    /// At this place, the first that is not right, stands a column that stood before.
    Repeated(u32),
    /// Memory ran out, which says nothing of the order.
    NoMemory,
}

impl From<NoMemory> for PermRefusal {
    ghost use Rattle.permutations.specs.declared.numbers.PermRefusal.TheVariants.{NoMemory as OutOfMemory};

    ghost from_gives = { λ _ e. e ≡ OutOfMemory };

    fn from(_no_memory: NoMemory) -> PermRefusal {
        PermRefusal::NoMemory
    }
}

// The vertex that a number names, of n that are counted from a base.
fn vertex_of(base: u32, n: u32, number: u32) -> Option<u32>
    ensures { MatchOption result (IsNumberFrom base n number → ⊥)
        (λ v. IsNumberFrom base n number × (v ≡ from_one base number) × (1 ≤ v) × (v ≤ n)) }
{
    if base <= number && number - base < n {
        Some(number - base + 1)
    } else {
        None
    }
}

// The vertex at a place, here counted from 0, where that is right.
fn vertex_at_place(
    base: u32,
    n: u32,
    numbers: &[u32],
    places: &[u32],
    i: usize,
) -> Result<u32, PermRefusal>
    requires len { length numbers.now ≡ n }
    requires inside { i < n }
    requires placed { ArePlaced base n numbers.now places.now i }
    ensures vertex { IfOk result (λ v. v ≡ from_one base (number_at numbers.now (i + 1))) }
    ensures within { IfOk result (λ v. (1 ≤ v) × (v ≤ n)) }
    ensures fits { OnOk result (PlaceFits base n numbers.now (i + 1)) }
    ensures refused { IfErr result (IsNumbersRefusal base n numbers.now) }
{
    let Some(vertex) = vertex_of(base, n, numbers[i]) else {
        return Err(PermRefusal::Unknown(i as u32 + 1));
    };
    if places[vertex as usize] != 0 {
        return Err(PermRefusal::Repeated(i as u32 + 1));
    }
    Ok(vertex)
}

// The place of each vertex, with 0 at 0.
fn places_of(alloc: Global, base: u32, numbers: &[u32], n: u32) -> Result<Vec<u32>, PermRefusal>
    requires { length numbers.now ≡ n }
    ensures placed { IfOk result (λ places. ArePlaced base n numbers.now places.items n) }
    ensures refused { IfErr result (IsNumbersRefusal base n numbers.now) }
{
    let mut places: Vec<u32> = vec![in alloc; 0; n as usize + 1]?;
    for i in 0..numbers.len() {
        let vertex = vertex_at_place(base, n, numbers, &places, i)?;
        places[vertex as usize] = i as u32 + 1;
    }
    Ok(places)
}

// The vertex at each place, with 0 at 0.
fn vertices_of(alloc: Global, base: u32, numbers: &[u32], n: u32) -> Result<Vec<u32>, NoMemory>
    requires len { length numbers.now ≡ n }
    requires numbers { All (IsNumberFrom base n) numbers.now }
    ensures { IfOk result (λ vertices. vertices.items ≡ 0 ∷ order_given base numbers.now) }
{
    let mut vertices: Vec<u32> = Vec::with_capacity(alloc, n as usize + 1)?;
    vertices.push(0)?;
    for number in numbers {
        vertices.push(*number - base + 1)?;
    }
    Ok(vertices)
}

/// The order in which `n` columns are eliminated that these numbers of columns, counted from a base, are; or why they are none: the first
/// place that is not right. Linear.
pub fn perm_of_numbers(
    alloc: Global,
    base: u32,
    numbers: &[u32],
    n: u32,
) -> Result<Perm, PermRefusal>
    ensures order { IfOk result (λ perm. perm ≡ order_given base numbers.now) }
    ensures perm { IfOk result (λ perm. IsPerm n perm) }
    ensures refused { IfErr result (IsNumbersRefusal base n numbers.now) }
{
    if numbers.len() != n as usize {
        return Err(PermRefusal::Places);
    }
    let places = places_of(alloc, base, numbers, n)?;
    let vertices = vertices_of(alloc, base, numbers, n)?;
    Ok(Perm::from_tables(vertices, places))
}
