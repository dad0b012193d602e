ghost use Rattle.std.specs.Prelude.{◌≡◌, true, MatchResult};
ghost use Rattle.mp_text.specs.Ahead.{row, rows_of_bytes};
ghost use Rattle.mp_text.specs.declared.layout.Layout.TheVariants.{Commented};
ghost use Rattle.mp_text.specs.Reading.{Gives, Steps, tested};
ghost use Rattle.matrix_files.specs.OrderReader.{IsFormatRefusal};
ghost use Rattle.matrix_files.specs.ListingFile.{vertex_count_tests, vertex_tests, listing_format};
ghost use Rattle.matrix_files.specs.ListingReader.{ListingState, listing_step, listing_line, took_listing, ReadsListing};
ghost use Rattle.matrix_files.specs.InverseFile.{is_listing};

use crate::perm_file::{PermKind, number_on};
use crate::stage::ListingStage;
use mp_text::{Layout, Line, Reader, Refusal, fault, number, read_with, tokens};
use permutations::{PartialPerm, Perm};
use std::alloc::Global;
use std::marker::Model;

/// What a listing of places stated so far, which counts from `BASE`: the places are counted from 1.
#[derive(Drop)]
struct ListingReader<const BASE: u32> {
    stage: ListingStage,
    taken: PartialPerm,
}

impl<const BASE: u32> Model for ListingReader<BASE> {
    ghost Value = { ListingState };

    ghost view = { λ s. record { stage = s.stage; n = s.taken.n; places = s.taken.numbers } };
}

// The first token: there are n vertices.
fn vertex_count_on(n: u32, line: u64, token: &[u8]) -> Result<(), Refusal<PermKind>>
    ensures { Gives (tested (vertex_count_tests n line token.now) tt) result }
{
    if number(token) != Some(u64::from(n)) {
        return Err(fault(line, PermKind::Count));
    }
    Ok(())
}

// The vertex after so many others.
fn vertex_on(base: u32, taken: usize, line: u64, token: &[u8]) -> Result<(), Refusal<PermKind>>
    ensures { Gives (tested (vertex_tests base taken line token.now) tt) result }
{
    let base = u64::from(base);
    let value = number(token).ok_or(fault(line, PermKind::Number))?;
    if value < base || value - base != taken as u64 {
        return Err(fault(line, PermKind::Range));
    }
    Ok(())
}

impl<const BASE: u32> ListingReader<BASE> {
    // Takes one token more.
    #[tactic(auto, unfolding(crate::specs::ListingReader::listing_step))]
    fn take(&mut self, line: u64, token: &[u8]) -> Result<(), Refusal<PermKind>>
        ensures { Steps (listing_step BASE line self.old token.now) result self.new }
    {
        match self.stage {
            ListingStage::Count => {
                vertex_count_on(self.taken.whole_len(), line, token)?;
                self.stage = ListingStage::Vertex;
            }
            ListingStage::Vertex => {
                vertex_on(BASE, self.taken.len(), line, token)?;
                self.stage = ListingStage::Place;
            }
            ListingStage::Place => {
                let place = number_on(BASE, &self.taken, line, token)?;
                self.taken.push(place)?;
                self.stage = ListingStage::Vertex;
            }
        }
        Ok(())
    }

    // Takes the tokens of a line.
    fn take_line(&mut self, line: Line<'_>) -> Result<(), Refusal<PermKind>>
        ensures { Steps (listing_line BASE self.old (row line.entry.number line.entry.text.now)) result self.new }
    {
        for token in tokens(line.text) {
            self.take(line.number, token)?;
        }
        Ok(())
    }
}

impl<const BASE: u32> Reader for ListingReader<BASE> {
    type Kind = PermKind;

    ghost format = { λ s. listing_format BASE s.n };

    ghost took = { took_listing BASE };

    fn line(&mut self, line: Line<'_>) -> Result<(), Refusal<PermKind>> {
        self.take_line(line)
    }

    fn end(&mut self, _past: u64) -> Result<(), Refusal<PermKind>> {
        Ok(())
    }
}

/// The places that a listing of `n` vertices holds, counted from 1, where they are `n` that count from `BASE`, each once.
pub(crate) fn read_listing<const BASE: u32>(
    alloc: Global,
    bytes: &[u8],
    n: u32,
) -> Result<Perm, Refusal<PermKind>>
    requires { is_listing n (rows_of_bytes Commented bytes.now) ≡ true }
    ensures { MatchResult result (λ places. ReadsListing BASE n bytes.now places) (IsFormatRefusal (listing_format BASE n) bytes.now) }
{
    let taken = PartialPerm::new(alloc, n)?;
    let reader = ListingReader::<BASE> {
        stage: ListingStage::Count,
        taken,
    };
    let reader = read_with(bytes, Layout::Commented, reader)?;
    Ok(reader.taken.finish())
}
