ghost use Rattle.std.specs.Prelude.{◌≡◌, ◌==◌, ◌&&◌, nat_le, nat_lt, ◌≤◌, ◌+◌, ◌-◌, ◌↔◌, IsTrue, length, drop, vec_len, slice_index_or};
ghost use Rattle.std.specs.Prelude.{option_map, IfOk};
ghost use Rattle.std.specs.List.{list_any, find};
ghost use Rattle.limits.specs.Limits.{most_positions};
ghost use Rattle.plans.specs.declared.claim.Claim.{Claim};
ghost use Rattle.plans.specs.Plan.{claim_of, claim_at, RiseFrom};
ghost use Rattle.sp_terms.specs.Values.{IsTerms, values_of};
ghost use Rattle.sp_terms.specs.Places.{term_of_position};
ghost use Rattle.sp_terms.specs.declared.position.Position.{Position};
ghost use Rattle.claim_check.specs.Claimed.{Claimed, AreClaims};
ghost use Rattle.claim_check.specs.Judgeable.{IsJudgeable, IsPlaced, IsClaimTable, named_claim, entry_of};
ghost use Rattle.claim_check.specs.Lowest.{IsLowestFrom};
ghost use Rattle.claim_check.specs.Shapes.{shape_at};

use crate::NoMemory;
use crate::shape::{Shape, shape_of};
use limits::MOST_POSITIONS;
use plans::Claim;
use sp_terms::{Position, TermList, Values, laws, values};
use std::alloc::Global;
use std::marker::Model;

/// A term with the claims on it: what is at hand when a claim is judged.
#[derive(Drop)]
pub struct View<'a> {
    terms: &'a TermList,
    claims: &'a [Claim],
    // The values of the term that ends at each position.
    values: Vec<Values>,
    // For each position the number of its claim, from 1, or 0 where it has none.
    table: Vec<u32>,
}

impl<'a> Model for View<'a> {
    ghost Value = { Claimed };

    ghost view = { λ v. record { positions = v.terms.now; claims = v.claims.now } };

    ghost invariant = { λ v. IsJudgeable v.terms.now v.claims.now v.values.items v.table.items };
}

/// A part of a term: its values, and its claim if there is one.
#[derive(Clone, Copy)]
pub struct Part {
    pub values: Values,
    pub claim: Option<Claim>,
}

impl<'a> View<'a> {
    /// A term with these claims, which are as in a plan file: `are_claims` tells. Claims at positions past the last are kept. Linear.
    pub fn new(
        alloc: Global,
        terms: &'a TermList,
        claims: &'a [Claim],
    ) -> Result<View<'a>, NoMemory>
        requires { AreClaims claims.now }
        ensures { IfOk result (λ view. view ≡ record { positions = terms.now; claims = claims.now }) }
    {
        laws::position_law();
        terms.keeps();
        let values = values(alloc, terms)?;
        let table = table_of(alloc, terms.len(), claims)?;
        Ok(View {
            terms,
            claims,
            values,
            table,
        })
    }

    /// The number of positions of the term, at least 1.
    pub fn len(&self) -> u32
        ensures value { result ≡ length self.now.positions }
        ensures terms { IsTerms self.now.positions }
        ensures claims { AreClaims self.now.claims }
    {
        self.terms.len()
    }

    /// Whether the term has this position.
    pub(crate) fn has_position(&self, position: u32) -> bool
        ensures value { result ≡ (nat_le 1 position && nat_le position (length self.now.positions)) }
        ensures placed { IsTrue result → IsPlaced self.now.positions position }
    {
        1 <= position && position <= self.terms.len()
    }

    /// A position of the term, counted from 1.
    pub(crate) fn at(&self, position: u32) -> Position
        requires { (1 ≤ position) × (position ≤ length self.now.positions) }
        ensures { (d : Position) → result ≡ slice_index_or self.now.positions (position - 1) d }
    {
        self.terms.at(position)
    }

    /// The term that stands at a position, counted from 1.
    pub(crate) fn part(&self, position: u32) -> Part
        requires { (1 ≤ position) × (position ≤ length self.now.positions) }
        ensures values { result.values ≡ values_of (term_of_position self.now.positions position) }
        ensures claim { option_map claim_of result.claim ≡ claim_at self.now.claims position }
    {
        let at = position as usize - 1;
        Part {
            values: self.values[at],
            claim: named_claim(self.claims, self.table[at]),
        }
    }

    /// A list with an element for each position of the term.
    pub(crate) fn places(&self) -> &[u32]
        ensures len { length result.now ≡ length self.now.positions }
        ensures few { length self.now.positions ≤ most_positions }
    {
        &self.table
    }

    /// What stands at a position, as an objection names it.
    pub(crate) fn shape(&self, position: u32) -> Shape
        ensures { result ≡ shape_at self.now.positions position }
    {
        if !self.has_position(position) {
            return Shape::Outside;
        }
        shape_of(self.at(position))
    }

    /// The lowest position past the last at which a claim stands. Linear in the claims.
    pub(crate) fn first_outside(&self) -> Option<u32>
        ensures { IsLowestFrom self.now.positions (claim_at self.now.claims) (length self.now.positions + 1) result }
    {
        first_past(self.claims, self.len())
    }

    /// Whether a claim stands at a position, also at one that the term has not, which the table does not know. Linear in the claims.
    pub(crate) fn has_claim(&self, position: u32) -> bool
        ensures { result ≡ list_any (λ (c : Claim). c.position == position) self.now.claims }
    {
        self.claims.iter().any(|claim| claim.position == position)
    }
}

/// Whether these can be the claims on a term: at most as many as the limit `positions`, and by rising positions, from 1. Linear.
pub fn are_claims(claims: &[Claim]) -> bool
    ensures { IsTrue result ↔ AreClaims claims.now }
{
    claims.len() as u64 <= MOST_POSITIONS && rise(claims)
}

// Whether each position is greater than the one before, and the first than 0.
fn rise(claims: &[Claim]) -> bool
    ensures { IsTrue result ↔ RiseFrom 0 claims.now }
{
    let mut last = 0;
    for claim in claims {
        if claim.position <= last {
            return false;
        }
        last = claim.position;
    }
    true
}

// The position of the first claim past a position.
fn first_past(claims: &[Claim], last: u32) -> Option<u32>
    ensures { result ≡ option_map (λ (c : Claim). c.position) (find (λ (c : Claim). nat_lt last c.position) claims.now) }
{
    let claim = claims.iter().find(|claim| last < claim.position)?;
    Some(claim.position)
}

// The claim that an entry of the table names.
fn named_claim(claims: &[Claim], entry: u32) -> Option<Claim>
    requires { entry ≤ length claims.now }
    ensures { result ≡ named_claim claims.now entry }
{
    if entry == 0 {
        None
    } else {
        Some(claims[entry as usize - 1])
    }
}

// The entry of a position, where so many claims stand before it.
fn entry_of(claims: &[Claim], passed: usize, position: u32) -> u32
    requires { length claims.now ≤ most_positions }
    ensures { result ≡ entry_of (drop passed claims.now) passed position }
{
    if passed >= claims.len() {
        return 0;
    }
    if claims[passed].position != position {
        return 0;
    }
    passed as u32 + 1
}

// For each of the first positions the number of its claim: both rise.
fn table_of(alloc: Global, positions: u32, claims: &[Claim]) -> Result<Vec<u32>, NoMemory>
    requires { AreClaims claims.now }
    ensures len { IfOk result (λ table. vec_len table ≡ positions) }
    ensures table { IfOk result (λ table. IsClaimTable claims.now table.items) }
{
    let mut table = Vec::new(alloc);
    let mut passed: usize = 0;
    for done in 0..positions {
        let entry = entry_of(claims, passed, done + 1);
        passed = passed.max(entry as usize);
        table.push(entry)?;
    }
    Ok(table)
}
