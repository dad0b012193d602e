//! The arcs of a graph become links, of which no two have the same ends.

ghost use Rattle.std.specs.Prelude.{◌≡◌, ◌≤◌, ◌<◌, ◌+◌, ◌++◌, ◌∷◌, [], ℕ, List, All, length, map, vec_len, IfOk};
ghost use Rattle.mp_system.specs.declared.system.Item.{Item};
ghost use Rattle.limits.specs.Limits.{most_arcs};
ghost use Rattle.graphs.specs.Graph.{IsArcWithin, Rises, item_of_arc};
ghost use Rattle.sp_reduce.specs.Pieces.{IsCarried, most_pieces};
ghost use Rattle.sp_reduce.specs.Reductions.{ReducesTo, ends_of};
ghost use Rattle.sp_reduce.specs.Work.{AreLinksRanked, link_count, pairs_of};

use crate::NoMemory;
use crate::forest::Forest;
use crate::links::Links;
use graphs::Arc;

// Puts one arc more among the links.
fn add_arc(arc: Arc, links: &mut Links, forest: &mut Forest) -> Result<(), NoMemory>
    requires within { (arc.from ≤ links.old.tasks) × (arc.to ≤ links.old.tasks) }
    requires few { length links.old.list < most_arcs }
    requires ranked { (rank : ℕ → ℕ) × (Rises rank arc × AreLinksRanked rank links.old.list) }
    requires lens { vec_len forest.old.nodes ≡ length links.old.list }
    requires room { vec_len forest.old.pieces + 2 ≤ most_pieces }
    ensures tasks { IfOk result (λ _. links.new.tasks ≡ links.old.tasks) }
    ensures ranked { IfOk result (λ _.
        (rank : ℕ → ℕ) → Rises rank arc → AreLinksRanked rank links.old.list → AreLinksRanked rank links.new.list) }
    ensures carried { IfOk result (λ _. (graph rest : List Item) →
        IsCarried graph (item_of_arc arc ∷ rest) forest.old.pieces.items links.old.list forest.old.nodes.items →
        IsCarried graph rest forest.new.pieces.items links.new.list forest.new.nodes.items) }
    ensures row { IfOk result (λ _. (rest : List (ℕ × ℕ)) →
        ReducesTo (pairs_of links.old.list ++ ends_of arc ∷ rest) (pairs_of links.new.list ++ rest)) }
    ensures lens { IfOk result (λ _. (vec_len forest.new.nodes ≡ length links.new.list) ×
        (length links.new.list ≤ length links.old.list + 1)) }
    ensures room { IfOk result (λ _. vec_len forest.new.pieces + link_count links.new.list
        ≡ vec_len forest.old.pieces + link_count links.old.list + 2) }
{
    let twin = links.twin(arc.from, arc.to);
    forest.plant(arc.size, twin)?;
    match twin {
        Some(_) => {}
        None => links.add(arc.from, arc.to)?,
    }
    Ok(())
}

/// Puts all arcs of a graph among the links, of which there were none.
pub fn add_arcs(arcs: &[Arc], links: &mut Links, forest: &mut Forest) -> Result<(), NoMemory>
    requires empty { (links.old.list ≡ []) × (forest.old.nodes.items ≡ []) × (forest.old.pieces.items ≡ []) }
    requires within { All (IsArcWithin links.old.tasks) arcs.now }
    requires few { length arcs.now ≤ most_arcs }
    requires ranked { (rank : ℕ → ℕ) × All (Rises rank) arcs.now }
    ensures tasks { IfOk result (λ _. links.new.tasks ≡ links.old.tasks) }
    ensures carried { IfOk result (λ _. IsCarried (map item_of_arc arcs.now) [] forest.new.pieces.items links.new.list forest.new.nodes.items) }
    ensures row { IfOk result (λ _. ReducesTo (map ends_of arcs.now) (pairs_of links.new.list)) }
    ensures lens { IfOk result (λ _. vec_len forest.new.nodes ≡ length links.new.list) }
    ensures room { IfOk result (λ _. vec_len forest.new.pieces + link_count links.new.list ≤ most_pieces) }
{
    for arc in arcs {
        add_arc(*arc, links, forest)?;
    }
    Ok(())
}
