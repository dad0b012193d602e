ghost use Rattle.std.specs.Prelude.{◌≡◌};
ghost use Rattle.mp_text.specs.Text.{tokens_of};
ghost use Rattle.bounded_plan_files.specs.BoundedPlanFile.{sort_word, sort_named};

use file_frame::after_word;

/// What the evidence of a file is: the need of a task, that one of some tasks starts first, or last, claims, or that so many states are enough
/// to look at from the end.
#[derive(Clone, Copy, Debug, PartialEq, Eq)]
pub enum Sort {
    Need,
    First,
    Last,
    Claims,
    States,
}

impl Sort {
    // The word that begins its line.
    fn word(self) -> &'static str
        ensures { result.now ≡ sort_word self }
    {
        match self {
            Sort::Need => "need",
            Sort::First => "first",
            Sort::Last => "last",
            Sort::Claims => "claims",
            Sort::States => "states",
        }
    }
}

/// The sort whose word begins a line of two words.
#[tactic(auto, unfolding(crate::specs::BoundedPlanFile::sort_named))]
pub fn sort_named(text: &[u8]) -> Option<Sort>
    ensures { result ≡ sort_named (tokens_of text.now) }
{
    [
        Sort::Need,
        Sort::First,
        Sort::Last,
        Sort::Claims,
        Sort::States,
    ]
    .iter()
    .copied()
    .find(|sort| after_word(text, sort.word().as_bytes()).is_some())
}
