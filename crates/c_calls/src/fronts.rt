//! The fronts of a matrix.

ghost use Rattle.std.specs.Prelude.{◌≡◌, ◌≢◌, ◌≤◌, ◌<◌, length, map, take, drop, IfOk, IfErr, OnOk};
ghost use Rattle.limits.specs.Limits.{most_order};
ghost use Rattle.patterns.specs.Columns.{column_count};
ghost use Rattle.permutations.specs.Perm.{IsPerm};
ghost use Rattle.c_calls.specs.declared.refusal.Refusal.TheVariants as refusals;
ghost use Rattle.c_calls.specs.Faults.{IsRefusedFor};
ghost use Rattle.equivalent_orders.specs.Arrays.{number_from};
ghost use Rattle.c_calls.specs.Fronts.{AreAnalysed, AreFronts, HaveFronts, IsAnalysisRefusal, IsMatrixFrontsRefusal};
ghost use Rattle.c_calls.specs.Fronts.{IsMatrixOrder, IsMatrixOrderRefusal};
ghost use Rattle.c_calls.specs.Fronts.{fronts_of_columns, matrix_given, options_given, shape_given};

use crate::faults::{Fault, refuse};
use crate::orders::check_room;
use crate::refusal::Refusal;
use assembly_tree::laws::{amalgamation_is_assembly, amalgamation_is_relaxed};
use assembly_tree::{Assembly, Shape, fronts};
use ordering::min_degree;
use patterns::{Pattern, pattern_of_columns};
use permutations::{Perm, perm_of_numbers};
use std::alloc::{AllocError, Global};
use symbolic::laws::one_analysis;
use symbolic::{Analysis, FrontOptions, analyse, relaxed};
use trees::{Node, Tree};

/// How the fronts of a matrix are made.
#[repr(C)]
#[derive(Clone, Copy)]
pub struct GivenOptions {
    /// 0 for triangles, 1 for squares.
    pub shape: u32,
    /// Any number but 0: a front takes over the memory of a contribution block.
    pub in_place: u32,
    /// Any number but 0: fronts are merged where that adds few zeros.
    pub merge: u32,
    /// How many zeros a merge may add.
    pub zeros: u64,
}

fn shape_of(shape: u32) -> Result<Shape, Refusal>
    ensures shape { IfOk result (λ made. made ≡ shape_given shape) }
    ensures known { OnOk result (shape ≤ 1) }
    ensures refused { IfErr result (λ e. (1 < shape) × (e ≡ refusals.Shape)) }
{
    match shape {
        0 => Ok(Shape::Triangle),
        1 => Ok(Shape::Square),
        _ => Err(Refusal::Shape),
    }
}

fn options_of(given: GivenOptions) -> Result<FrontOptions, Refusal>
    ensures options { IfOk result (λ options. options ≡ options_given given) }
    ensures shape { OnOk result (given.shape ≤ 1) }
    ensures refused { IfErr result (λ e. (1 < given.shape) × (e ≡ refusals.Shape)) }
{
    let shape = shape_of(given.shape)?;
    Ok(FrontOptions {
        shape,
        zeros: (given.merge != 0).then_some(given.zeros),
        inplace: given.in_place != 0,
    })
}

// The order in which a matrix is eliminated, whose columns these numbers tell, or none.
fn order_of(alloc: Global, base: u32, numbers: &[u32], pattern: &Pattern) -> Result<Perm, Refusal>
    ensures order { IfOk result (IsMatrixOrder base numbers.now pattern.now) }
    ensures perm { IfOk result (λ order. IsPerm (length pattern.now) order) }
    ensures refused { IfErr result (IsMatrixOrderRefusal base numbers.now (length pattern.now)) }
{
    if numbers.is_empty() {
        let order = min_degree(alloc, pattern)?;
        return Ok(order);
    }
    let order = perm_of_numbers(alloc, base, numbers, pattern.rows())?;
    Ok(order)
}

// The supernode in which each vertex lies.
fn supernodes_of(alloc: Global, assembly: &Assembly, perm: &Perm) -> Result<Vec<u32>, AllocError>
    requires len { length perm.now ≡ length assembly.now.nodes }
    requires few { length perm.now ≤ most_order }
    ensures { IfOk result (λ fronts. fronts.items ≡ fronts_of_columns assembly.now perm.now) }
{
    (1..perm.len() + 1)
        .map(|v| assembly.super_of(perm.place(v)))
        .collect(alloc)
}

// The tree of the fronts of a matrix, the front of each column, and the order in which the analysis numbers the columns.
#[derive(Drop)]
struct Fronts {
    tree: Tree,
    of_columns: Vec<u32>,
    perm: Perm,
}

fn fronts_of_matrix(
    alloc: Global,
    pattern: &Pattern,
    order: &Perm,
    options: FrontOptions,
) -> Result<Fronts, AllocError>
    requires { IsPerm (length pattern.now) order.now }
    ensures fronts { IfOk result (λ made. HaveFronts options pattern.now order.now made.perm made.tree made.of_columns.items) }
    ensures len { IfOk result (λ made. length made.of_columns.items ≡ length pattern.now) }
    ensures perm_len { IfOk result (λ made. length made.perm ≡ length pattern.now) }
    ensures few { IfOk result (λ made. length made.tree ≤ length pattern.now) }
{
    amalgamation_is_relaxed();
    amalgamation_is_assembly();
    one_analysis();
    pattern.keeps();
    let Analysis { numbered, assembly } = analyse(alloc, pattern, order)?;
    let merged = relaxed(alloc, assembly, options.zeros)?;
    let perm = numbered.perm;
    let of_columns = supernodes_of(alloc, &merged, &perm)?;
    let tree = fronts(alloc, &merged, options.shape, options.inplace)?;
    Ok(Fronts {
        tree,
        of_columns,
        perm,
    })
}

// With room for so many nodes, and for the fronts of so many columns.
fn fronts_of_arrays(
    alloc: Global,
    base: u32,
    starts: &[u32],
    rows: &[u32],
    numbers: &[u32],
    given: GivenOptions,
    room: usize,
    columns: usize,
) -> Result<Fronts, Refusal>
    ensures analysed { IfOk result (λ made. AreAnalysed (matrix_given base starts.now rows.now numbers.now) (options_given given) made.tree
        made.of_columns.items (map (number_from base) made.perm)) }
    ensures shape { OnOk result (given.shape ≤ 1) }
    ensures base { OnOk result (base ≤ 1) }
    ensures fits { IfOk result (λ made. length made.tree ≤ room) }
    ensures len { IfOk result (λ made. length made.of_columns.items ≡ columns) }
    ensures perm_len { IfOk result (λ made. length made.perm ≡ column_count starts.now) }
    ensures few { IfOk result (λ made. length made.tree ≤ columns) }
    ensures few_columns { OnOk result (column_count starts.now ≤ most_order) }
    ensures refused { IfErr result (IsMatrixFrontsRefusal (matrix_given base starts.now rows.now numbers.now) given room columns) }
{
    let options = options_of(given)?;
    check_room(starts.len().saturating_sub(1), columns)?;
    let pattern = pattern_of_columns(alloc, base, starts, rows)?;
    let order = order_of(alloc, base, numbers, &pattern)?;
    let made = fronts_of_matrix(alloc, &pattern, &order, options)?;
    let needed = made.tree.nodes().len();
    if room < needed {
        return Err(Refusal::NodeRoom {
            needed: needed as u64,
        });
    }
    Ok(made)
}

// Writes nodes at the front of the room, and leaves what lies past them.
fn hand_out_nodes(nodes: &[Node], room: &mut [Node])
    requires { length nodes.now ≤ length room.old }
    ensures written { take (length nodes.now) room.new ≡ nodes.now }
    ensures past { drop (length nodes.now) room.new ≡ drop (length nodes.now) room.old }
    ensures long { length room.new ≡ length room.old }
{
    for i in 0..nodes.len() {
        room[i] = nodes[i];
    }
}

// Writes the fronts of a matrix, and how many they are.
fn hand_out_fronts(made: &Fronts, nodes: &mut [Node], count: &mut u64, front_of: &mut [u32])
    requires fits { length made.now.tree ≤ length nodes.old }
    requires len { length made.now.of_columns.items ≡ length front_of.old }
    ensures nodes { take count.new nodes.new ≡ made.now.tree }
    ensures past { drop count.new nodes.new ≡ drop count.new nodes.old }
    ensures long { length nodes.new ≡ length nodes.old }
    ensures count { count.new ≡ length made.now.tree }
    ensures fronts { front_of.new ≡ made.now.of_columns.items }
{
    hand_out_nodes(made.tree.nodes(), nodes);
    *count = made.tree.nodes().len() as u64;
    front_of.copy_from_slice(&made.of_columns);
}

/// Writes an order of elimination by the numbers of its columns, which count from a base.
pub fn hand_out_columns(base: u32, order: &Perm, columns: &mut [u32])
    requires base { base ≤ 1 }
    requires few { length columns.old ≤ most_order }
    requires len { length order.now ≡ length columns.old }
    ensures { columns.new ≡ map (number_from base) order.now }
{
    order.keeps();
    for k in 0..columns.len() {
        let vertex = order.at(k as u32 + 1);
        columns[k] = vertex - 1 + base;
    }
}

/// The tree of the fronts of a matrix that is eliminated in an order, or in that of minimum degree where none is given, at the front of the
/// array of nodes; how many fronts there are; and the front of each column. Liu 1990 and 1992.
pub fn matrix_fronts(
    alloc: Global,
    base: u32,
    starts: &[u32],
    rows: &[u32],
    order: &[u32],
    options: &GivenOptions,
    nodes: &mut [Node],
    count: &mut u64,
    front_of: &mut [u32],
    fault: &mut Fault,
) -> u32
    // 0: the first nodes are the tree of the fronts of the matrix, and the front of each column is that of its supernode
    ensures fronts { result ≡ 0 →
        AreFronts (matrix_given base starts.now rows.now order.now) (options_given options.now) (take count.new nodes.new) front_of.new }
    // the shape is one that there is
    ensures shape { result ≡ 0 → options.now.shape ≤ 1 }
    ensures counted { result ≡ 0 → count.new ≤ length nodes.new }
    // there are at most as many as columns
    ensures few { result ≡ 0 → count.new ≤ length front_of.new }
    ensures past { result ≡ 0 → drop count.new nodes.new ≡ drop count.new nodes.old }
    ensures refused { result ≢ 0 → IsRefusedFor
        (IsMatrixFrontsRefusal (matrix_given base starts.now rows.now order.now) options.now (length nodes.old) (length front_of.old))
        result fault.new }
    ensures unchanged { result ≢ 0 → (nodes.new ≡ nodes.old) × (count.new ≡ count.old) × (front_of.new ≡ front_of.old) }
    ensures no_fault { result ≡ 0 → fault.new ≡ fault.old }
{
    let given = *options;
    match fronts_of_arrays(
        alloc,
        base,
        starts,
        rows,
        order,
        given,
        nodes.len(),
        front_of.len(),
    ) {
        Ok(made) => {
            hand_out_fronts(&made, nodes, count, front_of);
            0
        }
        Err(refusal) => refuse(refusal, fault),
    }
}

// With room for so many nodes, for the fronts of so many columns, and for so many columns.
fn analysis_of_arrays(
    alloc: Global,
    base: u32,
    starts: &[u32],
    rows: &[u32],
    numbers: &[u32],
    given: GivenOptions,
    room: usize,
    fronts: usize,
    columns: usize,
) -> Result<Fronts, Refusal>
    ensures analysed { IfOk result (λ made. AreAnalysed (matrix_given base starts.now rows.now numbers.now) (options_given given) made.tree
        made.of_columns.items (map (number_from base) made.perm)) }
    ensures shape { OnOk result (given.shape ≤ 1) }
    ensures base { OnOk result (base ≤ 1) }
    ensures fits { IfOk result (λ made. length made.tree ≤ room) }
    ensures len { IfOk result (λ made. length made.of_columns.items ≡ fronts) }
    ensures perm_len { IfOk result (λ made. length made.perm ≡ columns) }
    ensures few { IfOk result (λ made. length made.tree ≤ fronts) }
    ensures few_columns { OnOk result (columns ≤ most_order) }
    ensures refused { IfErr result (IsAnalysisRefusal (matrix_given base starts.now rows.now numbers.now) given room fronts columns) }
{
    check_room(starts.len().saturating_sub(1), columns)?;
    let made = fronts_of_arrays(alloc, base, starts, rows, numbers, given, room, fronts)?;
    Ok(made)
}

/// The fronts of a matrix, as `matrix_fronts` writes them, and the columns in the order in which its analysis numbers them: along the
/// postorder of the elimination tree, in which those of each front come after those of its children. Liu 1990 and 1992.
pub fn matrix_analysis(
    alloc: Global,
    base: u32,
    starts: &[u32],
    rows: &[u32],
    order: &[u32],
    options: &GivenOptions,
    nodes: &mut [Node],
    count: &mut u64,
    front_of: &mut [u32],
    columns: &mut [u32],
    fault: &mut Fault,
) -> u32
    // 0: the first nodes are the tree of the fronts of the matrix, the front of each column is that of its supernode, and the columns are
    // those of the same analysis
    ensures analysed { result ≡ 0 → AreAnalysed (matrix_given base starts.now rows.now order.now) (options_given options.now)
        (take count.new nodes.new) front_of.new columns.new }
    // the shape is one that there is
    ensures shape { result ≡ 0 → options.now.shape ≤ 1 }
    ensures counted { result ≡ 0 → count.new ≤ length nodes.new }
    // there are at most as many as columns
    ensures few { result ≡ 0 → count.new ≤ length front_of.new }
    ensures past { result ≡ 0 → drop count.new nodes.new ≡ drop count.new nodes.old }
    ensures refused { result ≢ 0 → IsRefusedFor
        (IsAnalysisRefusal (matrix_given base starts.now rows.now order.now) options.now (length nodes.old) (length front_of.old)
        (length columns.old)) result fault.new }
    ensures unchanged { result ≢ 0 →
        (nodes.new ≡ nodes.old) × (count.new ≡ count.old) × (front_of.new ≡ front_of.old) × (columns.new ≡ columns.old) }
    ensures no_fault { result ≡ 0 → fault.new ≡ fault.old }
{
    let given = *options;
    match analysis_of_arrays(
        alloc,
        base,
        starts,
        rows,
        order,
        given,
        nodes.len(),
        front_of.len(),
        columns.len(),
    ) {
        Ok(made) => {
            hand_out_fronts(&made, nodes, count, front_of);
            hand_out_columns(base, &made.perm, columns);
            0
        }
        Err(refusal) => refuse(refusal, fault),
    }
}
