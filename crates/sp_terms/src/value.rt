ghost use Rattle.std.specs.Prelude.{◌≡◌, ◌≤◌, ◌<◌, ◌+◌, ◌-◌, ◌^◌, length, vec_len, slice_index_or, IfOk};
ghost use Rattle.sp_terms.specs.Term.{Term, hill_of};
ghost use Rattle.sp_terms.specs.Values.{IsTaskPosition, IsTerms, AreValues, values_of, term_at};
ghost use Rattle.sp_terms.specs.declared.position.Position.{Position};
ghost use Rattle.sp_terms.specs.declared.position.Position.TheVariants.{Par};

use crate::NoMemory;
use crate::position::{Position, Values};
use crate::terms::TermList;
use mp_system::Task;
use std::alloc::Global;

/// The values of the term that ends at each position, in the order of the positions.
pub fn values(alloc: Global, terms: &TermList) -> Result<Vec<Values>, NoMemory>
    ensures len { IfOk result (λ values. vec_len values ≡ length terms.now) }
    ensures each { IfOk result (λ values. AreValues terms.now values.items (length terms.now)) }
{
    let mut values = Vec::new(alloc);
    for done in 0..terms.len() {
        let next = values_at(terms, &values, done + 1);
        values.push(next)?;
    }
    Ok(values)
}

/// The values of the term that ends at a position, counted from 1, from those at the positions before it.
pub fn values_at(terms: &TermList, before: &[Values], position: u32) -> Values
    requires at { (1 ≤ position) × (position ≤ length terms.now) }
    requires long { position - 1 ≤ length before.now }
    requires known { AreValues terms.now before.now (position - 1) }
    ensures { result ≡ values_of (term_at terms.now (position - 1)) }
{
    let positions = terms.positions();
    let at = position as usize - 1;
    match positions[at] {
        Position::Hold(size) => Values {
            initial: size,
            fin: size,
            least: size,
            width: 1,
        },
        Position::Task { .. } => series_values(positions, before, at),
        Position::Par(parts) => par_values(positions, before, at, parts),
    }
}

// The values of a series.
fn series_values(positions: &[Position], before: &[Values], at: usize) -> Values
    requires terms { IsTerms positions.now }
    requires at { at < length positions.now }
    requires long { at ≤ length before.now }
    requires known { AreValues positions.now before.now at }
    requires task { (d : Position) → IsTaskPosition (slice_index_or positions.now at d) }
    ensures { result ≡ values_of (term_at positions.now at) }
{
    let right = before[at - 1];
    let left = before[at - 1 - right.width as usize];
    Values {
        initial: left.initial,
        fin: right.fin,
        least: left.least.min(right.least),
        width: left.width + right.width + 1,
    }
}

// The values of a parallel composition.
fn par_values(positions: &[Position], before: &[Values], at: usize, parts: u32) -> Values
    requires terms { IsTerms positions.now }
    requires at { at < length positions.now }
    requires long { at ≤ length before.now }
    requires known { AreValues positions.now before.now at }
    requires par { (d : Position) → slice_index_or positions.now at d ≡ Par parts }
    ensures { result ≡ values_of (term_at positions.now at) }
{
    let mut all = Values {
        initial: 0,
        fin: 0,
        least: 0,
        width: 1,
    };
    let mut end = at;
    let mut left = parts;
    while left > 0 {
        let part = before[end - 1];
        all = Values {
            initial: all.initial + part.initial,
            fin: all.fin + part.fin,
            least: all.least + part.least,
            width: all.width + part.width,
        };
        end -= part.width as usize;
        left -= 1;
    }
    all
}

/// The hill of a series: the memory while its task runs, from the values of the two terms between which it stands.
pub fn hill(first: &Values, task: &Task, second: &Values) -> u64
    requires small { first.now.fin + (task.now.extra + second.now.initial) < 2 ^ 64 }
    requires share { task.now.share ≤ task.now.extra + second.now.initial }
    ensures { (a b : Term) → first.now ≡ values_of a → second.now ≡ values_of b → result ≡ hill_of a task.now b }
{
    first.fin + (task.extra + second.initial - task.share)
}
