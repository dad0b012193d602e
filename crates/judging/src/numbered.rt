//! The term of an input, and the positions of it that a report numbers: of a tree those of its nodes, of a workflow all.

ghost use Rattle.std.specs.Prelude.{◌≡◌, ◌≤◌, ◌<◌, ◌+◌, ℕ, List, [], IfOk, length, map};
ghost use Rattle.std.specs.List.{range_with_len};
ghost use Rattle.trees.specs.Forest.{Forest, IsForestOf, all_numbers};
ghost use Rattle.trees.specs.TreeTerm.{forest_positions};
ghost use Rattle.judging.specs.Files.{IsFirstRefusal};
ghost use Rattle.judging.specs.Judged.{AreJudged, IsNumbered, IsNaming, AreWithin};
ghost use Rattle.judging.specs.Numbered.{node_positions, position_named, task_positions};
ghost use Rattle.requests.specs.Request.{input_files};
ghost use Rattle.requests.specs.RequestViews.{input_view};

use crate::files::{WorkflowFile, judge};
use crate::inputs::judge_tree;
use crate::stop::Stop;
use mp_outside::Files;
use requests::Input;
use sp_terms::{Position, TermList};
use std::alloc::{AllocError, Global};
use trees::laws::forest_law;
use trees::{Tree, terms_of_tree};

/// A term, and the positions for which the numbers 1, 2, .. stand.
#[derive(Drop)]
pub struct NumberedTerm {
    pub terms: TermList,
    /// By number; each from 1 to the number of positions.
    pub positions: Vec<u32>,
}

// The positions of the tasks, in their order.
fn task_positions(alloc: Global, terms: &TermList) -> Result<Vec<u32>, AllocError>
    ensures { IfOk result (λ found. found.items ≡ task_positions 1 terms.now) }
{
    let mut found = Vec::new(alloc);
    for done in 0..terms.len() {
        if let Position::Task { .. } = terms.at(done + 1) {
            found.push(done + 1)?;
        }
    }
    Ok(found)
}

// The positions of the tasks by their names, where each of 1, 2, .. names one.
fn by_name(alloc: Global, names: &[u32], positions: &[u32]) -> Result<Vec<u32>, AllocError>
    requires names { IsNaming names.now }
    requires many { length positions.now ≡ length names.now }
    ensures { IfOk result (λ named. named.items
        ≡ map (λ v. position_named v names.now positions.now) (range_with_len 1 (length names.now))) }
{
    let mut named = vec![in alloc; 0; names.len()]?;
    for (i, name) in names.iter().enumerate() {
        named[*name as usize - 1] = positions[i];
    }
    Ok(named)
}

// The term of a tree, and the positions of its nodes: each stands at that of its task.
fn number_nodes(alloc: Global, tree: &Tree) -> Result<NumberedTerm, AllocError>
    ensures nodes { IfOk result (λ numbered. (forest : Forest) × IsForestOf tree.now forest
        × (numbered.terms ≡ forest_positions tree.now forest)
        × (numbered.positions.items ≡ node_positions (all_numbers forest) numbered.terms)) }
    ensures within { IfOk result (λ numbered. AreWithin (length numbered.terms) numbered.positions.items) }
{
    forest_law();
    tree.keeps();
    let named = terms_of_tree(alloc, tree)?;
    let tasks = task_positions(alloc, &named.terms)?;
    let positions = by_name(alloc, named.names.as_slice(), &tasks)?;
    Ok(NumberedTerm {
        terms: named.terms,
        positions,
    })
}

// A term with all of its positions.
fn number_all(alloc: Global, terms: TermList) -> Result<NumberedTerm, AllocError>
    ensures all { IfOk result (λ numbered. (numbered.terms ≡ terms)
        × (numbered.positions.items ≡ range_with_len 1 (length terms))) }
    ensures within { IfOk result (λ numbered. AreWithin (length numbered.terms) numbered.positions.items) }
{
    let mut positions = Vec::new(alloc);
    for done in 0..terms.len() {
        positions.push(done + 1)?;
    }
    Ok(NumberedTerm { terms, positions })
}

/// The term of an input, with the positions of a tree's nodes, or all those of a workflow.
pub fn judge_numbered<F: Files>(
    alloc: Global,
    files: &mut F,
    input: Input<'_>,
) -> Result<NumberedTerm, Stop>
    ensures judged { AreJudged (F.bytes_of files.old) (F.faults_of files.old) (F.faults_of files.new) (input_files (input_view input.entry))
        (IsNumbered (input_view input.entry)) (IsFirstRefusal (input_files (input_view input.entry)) []) result }
    ensures within { IfOk result (λ numbered. AreWithin (length numbered.terms) numbered.positions.items) }
    ensures same { (other : List ℕ) → F.bytes_of files.new other ≡ F.bytes_of files.old other }
    ensures later { (other : List ℕ) → F.faults_of files.old other ≤ F.faults_of files.new other }
{
    match input {
        Input::Tree(input) => {
            let tree = judge_tree(alloc, files, input)?;
            Ok(number_nodes(alloc, &tree)?)
        }
        Input::Workflow(name) => {
            let terms = judge(alloc, files, name, &WorkflowFile)?;
            Ok(number_all(alloc, terms)?)
        }
    }
}
