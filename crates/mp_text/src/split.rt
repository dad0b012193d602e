ghost use Rattle.std.specs.Prelude.{◌≡◌};
ghost use Rattle.mp_text.specs.Text.{tokens_of};

use crate::token_scan::Tokens;

/// The tokens of a line: its longest runs of bytes other than a blank, a tab and a carriage return.
pub fn tokens(text: &[u8]) -> Tokens<'_>
    ensures { result ≡ tokens_of text.now }
{
    Tokens { rest: text }
}
