ghost use Rattle.std.specs.Prelude.{◌≡◌, [], drop, false, codes, slice_index_or, OnSome};
ghost use Rattle.std.specs.Str.{bytes_eq};
ghost use Rattle.workflow_files.specs.WorkflowFile.{word_spelled};

use mp_text::Tokens;

/// The word that a position line begins with.
#[derive(Clone, Copy, Debug, PartialEq, Eq)]
pub enum Word {
    Data,
    Task,
    Par,
}

/// Takes the next token, and gives the word that it is, if it is one.
pub fn next_word(tokens: &mut Tokens<'_>) -> Option<Word>
    ensures word { result ≡ word_spelled (slice_index_or tokens.old 0 []) }
    ensures rest { tokens.new ≡ drop 1 tokens.old }
    ensures no_end { OnSome result (bytes_eq (slice_index_or tokens.old 0 []) (codes "end") ≡ false) }
{
    match tokens.next()? {
        b"data" => Some(Word::Data),
        b"task" => Some(Word::Task),
        b"par" => Some(Word::Par),
        _ => None,
    }
}
