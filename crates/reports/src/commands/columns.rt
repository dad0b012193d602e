//! `columns`: the columns of the fronts of a matrix, one front after another.

ghost use Rattle.std.specs.Prelude.{◌≡◌, ◌≤◌, ◌+◌, ◌++◌, ℕ, List, None, Some, IfErr, IfOk, OnOk, IsTrue, length, map, option_map};
ghost use Rattle.std.specs.List.{range_with_len};
ghost use Rattle.mp_system.specs.Refusal.{IsOrderRefusal};
ghost use Rattle.mp_text.specs.Report.{is_line_start, text_of_lines};
ghost use Rattle.row_table.specs.Rows.{row_at};
ghost use Rattle.permutations.specs.Perm.{IsPerm};
ghost use Rattle.trees.specs.Tree.{system_of_nodes};
ghost use Rattle.assembly_tree.specs.Assembly.{AssemblyTree, IsAssembly};
ghost use Rattle.assembly_tree.specs.Fronts.{nodes_of_fronts};
ghost use Rattle.symbolic.specs.FrontTree.{IsAnalysis, relaxed};
ghost use Rattle.equivalent_orders.specs.Fronts.{IsFrontOrder};
ghost use Rattle.reports.specs.Columns.{IsColumnsAnswer, columns_answer, perm_lines};
ghost use Rattle.reports.specs.Fronts.{number_line};
ghost use Rattle.reports.specs.Reported.{IsReported};
ghost use Rattle.judging.specs.Pages.{answer_of};
ghost use Rattle.requests.specs.Request.{columns, by_front, as_perm};
ghost use Rattle.requests.specs.RequestViews.{columns_format_view, matrix_view, source_view};

use assembly_tree::laws::amalgamation_is_relaxed;
use assembly_tree::{Assembly, fronts};
use equivalent_orders::laws::{front_orders, own_fronts};
use equivalent_orders::{order_along, vertices_by_front};
use judging::{
    OrderedPattern, Page, PageKind, Stop, judge_ordered_pattern, judge_pattern, order_page,
    print_count, print_end, print_list,
};
use mp_outside::Files;
use mp_system::{ReplayRefusal, replay};
use mp_text::Report;
use mp_text::Token::Number;
use mp_text::laws::printed_lines;
use permutations::{PartialPerm, Perm, identity};
use requests::{Columns, ColumnsFormat, Matrix, OrderSource, OrderedMatrix};
use row_table::RowTable;
use std::alloc::{AllocError, Global};
use symbolic::{Analysis, FrontOptions, analyse, relaxed};
use trees::system_of_tree;

// ---- the fronts

// The columns of a matrix along the postorder of its elimination tree, and the fronts that have them.
#[derive(Drop)]
struct FrontColumns {
    perm: Perm,
    assembly: Assembly,
}

// Those of a matrix that was read, merged where that adds at most so many explicit zeros.
fn front_columns(
    alloc: Global,
    read: &OrderedPattern,
    zeros: Option<u64>,
) -> Result<FrontColumns, AllocError>
    requires { length read.now.order ≡ length read.now.pattern }
    ensures analysis { IfOk result (λ made. (assembly : AssemblyTree) × IsAnalysis read.now.pattern read.now.order made.perm assembly
        × (made.assembly ≡ relaxed zeros assembly)) }
    ensures len { IfOk result (λ made. length made.perm ≡ length made.assembly.nodes) }
{
    amalgamation_is_relaxed();
    let analysis = analyse(alloc, &read.pattern, &read.order)?;
    let _supers = analysis.assembly.supers();
    let Analysis { numbered, assembly } = analysis;
    let assembly = relaxed(alloc, assembly, zeros)?;
    let perm = numbered.perm;
    Ok(FrontColumns { perm, assembly })
}

// How many fronts there are.
fn front_count(assembly: &Assembly) -> u32
    ensures value { result ≡ length assembly.now.supers }
    ensures assembly { IsAssembly assembly.now }
{
    assembly.supers().len() as u32
}

// An order that holds each of 1 to n once.
fn order_of_numbers(alloc: Global, numbers: &[u32], n: u32) -> Result<Perm, AllocError>
    requires { IsPerm n numbers.now }
    ensures { IfOk result (λ perm. perm ≡ numbers.now) }
{
    let mut order = PartialPerm::new(alloc, n)?;
    for number in numbers {
        order.push(*number)?;
    }
    Ok(order.finish())
}

// An order of fronts, each before its parent, or its first fault as one of the tasks of their tree.
fn judged_fronts(
    alloc: Global,
    assembly: &Assembly,
    options: FrontOptions,
    order: &[u32],
) -> Result<Perm, ReplayRefusal>
    ensures order { IfOk result (λ judged. judged ≡ order.now) }
    ensures before { OnOk result (IsFrontOrder assembly.now.supers order.now) }
    ensures fault { IfErr result
        (IsOrderRefusal (system_of_nodes (nodes_of_fronts options.shape options.inplace assembly.now.supers)) order.now) }
{
    front_orders();
    let count = front_count(assembly);
    let tree = fronts(alloc, assembly, options.shape, options.inplace)?;
    let system = system_of_tree(alloc, &tree)?;
    let _peak = replay(alloc, &system, order)?;
    Ok(order_of_numbers(alloc, order, count)?)
}

// ---- the report

// The vertices of each front on a line, one front after another.
fn print_rows(vertices: &RowTable, fronts: &Perm, report: &mut Report) -> Result<(), AllocError>
    requires start { IsTrue (is_line_start report.old) }
    requires len { length vertices.now ≡ length fronts.now + 1 }
    ensures start { OnOk result (IsTrue (is_line_start report.new)) }
    ensures text { OnOk result (report.new ≡ report.old
        ++ text_of_lines (map number_line (map (row_at vertices.now) fronts.now))) }
{
    printed_lines();
    for place in 0..fronts.len() {
        print_list(vertices.row(fronts.at(place + 1)), report)?;
    }
    Ok(())
}

// `columns K`, on a line each the columns of a front, `end`
fn lines_page(alloc: Global, made: &FrontColumns, fronts: &Perm) -> Result<Page, AllocError>
    requires columns { length made.now.perm ≡ length made.now.assembly.nodes }
    requires fronts { length fronts.now ≡ length made.now.assembly.supers }
    ensures { IfOk result (λ page. answer_of page ≡ columns_answer by_front made.now.perm made.now.assembly fronts.now) }
{
    printed_lines();
    fronts.keeps();
    let vertices = vertices_by_front(alloc, &made.perm, &made.assembly)?;
    let mut report = Report::new(alloc);
    print_count("columns", u64::from(fronts.len()), &mut report)?;
    print_rows(&vertices, fronts, &mut report)?;
    print_end(&mut report)?;
    let kind = PageKind::Done;
    Ok(Page { kind, report })
}

// A column on a line, in the order in which they are eliminated.
fn print_order(order: &Perm, report: &mut Report) -> Result<(), AllocError>
    requires { IsTrue (is_line_start report.old) }
    ensures { OnOk result (report.new ≡ report.old ++ text_of_lines (perm_lines order.now)) }
{
    printed_lines();
    for place in 0..order.len() {
        report.line(&[Number(u64::from(order.at(place + 1)))])?;
    }
    Ok(())
}

// The permutation file.
fn perm_page(alloc: Global, made: &FrontColumns, fronts: &Perm) -> Result<Page, AllocError>
    requires columns { length made.now.perm ≡ length made.now.assembly.nodes }
    requires fronts { length fronts.now ≡ length made.now.assembly.supers }
    ensures { IfOk result (λ page. answer_of page ≡ columns_answer as_perm made.now.perm made.now.assembly fronts.now) }
{
    let order = order_along(alloc, &made.perm, &made.assembly, fronts)?;
    let mut report = Report::new(alloc);
    print_order(&order, &mut report)?;
    let kind = PageKind::Done;
    Ok(Page { kind, report })
}

// The columns of the fronts, one front after another.
fn columns_page(
    alloc: Global,
    made: &FrontColumns,
    fronts: &Perm,
    format: ColumnsFormat,
) -> Result<Page, AllocError>
    requires columns { length made.now.perm ≡ length made.now.assembly.nodes }
    requires fronts { length fronts.now ≡ length made.now.assembly.supers }
    ensures { IfOk result (λ page. answer_of page
        ≡ columns_answer (columns_format_view format) made.now.perm made.now.assembly fronts.now) }
{
    match format {
        ColumnsFormat::ByFront => lines_page(alloc, made, fronts),
        ColumnsFormat::Perm => perm_page(alloc, made, fronts),
    }
}

// ---- the orders of the fronts

// The fronts by rising number.
fn own_page(
    alloc: Global,
    read: &OrderedPattern,
    options: FrontOptions,
    format: ColumnsFormat,
) -> Result<Page, AllocError>
    requires { length read.now.order ≡ length read.now.pattern }
    ensures { IfOk result (λ page. (perm : List ℕ) × (assembly : AssemblyTree) × IsAnalysis read.now.pattern read.now.order perm assembly
        × IsColumnsAnswer options (columns_format_view format) perm (relaxed options.zeros assembly)
        (range_with_len 1 (length (relaxed options.zeros assembly).supers)) (answer_of page)) }
{
    own_fronts();
    let made = front_columns(alloc, read, options.zeros)?;
    let fronts = identity(alloc, front_count(&made.assembly))?;
    columns_page(alloc, &made, &fronts, format)
}

// The fronts in an order, or its first fault.
fn ordered_page(
    alloc: Global,
    read: &OrderedPattern,
    options: FrontOptions,
    format: ColumnsFormat,
    order: &[u32],
) -> Result<Page, AllocError>
    requires { length read.now.order ≡ length read.now.pattern }
    ensures { IfOk result (λ page. (perm : List ℕ) × (assembly : AssemblyTree) × IsAnalysis read.now.pattern read.now.order perm assembly
        × IsColumnsAnswer options (columns_format_view format) perm (relaxed options.zeros assembly) order.now (answer_of page)) }
{
    let made = front_columns(alloc, read, options.zeros)?;
    match judged_fronts(alloc, &made.assembly, options, order) {
        Ok(fronts) => columns_page(alloc, &made, &fronts, format),
        Err(ReplayRefusal::Order(fault)) => order_page(alloc, fault),
        Err(ReplayRefusal::NoMemory) => Err(AllocError),
    }
}

// Of a matrix alone.
fn report_own<F: Files>(
    alloc: Global,
    files: &mut F,
    matrix: Matrix<'_>,
    format: ColumnsFormat,
) -> Result<Page, Stop>
    ensures told { IsReported (F.bytes_of files.old) (F.faults_of files.old) (F.faults_of files.new)
        (columns (matrix_view matrix.entry) None (columns_format_view format)) result }
    ensures same { (other : List ℕ) → F.bytes_of files.new other ≡ F.bytes_of files.old other }
    ensures later { (other : List ℕ) → F.faults_of files.old other ≤ F.faults_of files.new other }
{
    let (name, ordering) = (matrix.name, matrix.ordering);
    let read = judge_pattern(alloc, files, OrderedMatrix { name, ordering })?;
    Ok(own_page(alloc, &read, matrix.fronts, format)?)
}

// Of a matrix and an order of its fronts.
fn report_along<F: Files>(
    alloc: Global,
    files: &mut F,
    matrix: Matrix<'_>,
    source: OrderSource<'_>,
    format: ColumnsFormat,
) -> Result<Page, Stop>
    ensures told { IsReported (F.bytes_of files.old) (F.faults_of files.old) (F.faults_of files.new)
        (columns (matrix_view matrix.entry) (Some (source_view source.entry)) (columns_format_view format)) result }
    ensures same { (other : List ℕ) → F.bytes_of files.new other ≡ F.bytes_of files.old other }
    ensures later { (other : List ℕ) → F.faults_of files.old other ≤ F.faults_of files.new other }
{
    let (name, ordering) = (matrix.name, matrix.ordering);
    let read = judge_ordered_pattern(alloc, files, OrderedMatrix { name, ordering }, source)?;
    let order = read.order.numbers();
    Ok(ordered_page(alloc, &read.matrix, matrix.fronts, format, order)?)
}

/// The columns of the fronts, by rising number or in an order of the fronts, or the first place at which that fails to be one.
pub fn report_columns<F: Files>(
    alloc: Global,
    files: &mut F,
    asked: Columns<'_>,
) -> Result<Page, Stop>
    ensures told { IsReported (F.bytes_of files.old) (F.faults_of files.old) (F.faults_of files.new)
        (columns (matrix_view asked.entry.matrix) (option_map source_view asked.entry.source) (columns_format_view asked.entry.format)) result }
    ensures same { (other : List ℕ) → F.bytes_of files.new other ≡ F.bytes_of files.old other }
    ensures later { (other : List ℕ) → F.faults_of files.old other ≤ F.faults_of files.new other }
{
    match asked.source {
        None => report_own(alloc, files, asked.matrix, asked.format),
        Some(source) => report_along(alloc, files, asked.matrix, source, asked.format),
    }
}
