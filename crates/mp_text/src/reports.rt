//! Reports: lines of tokens that are printed.

ghost use Rattle.std.specs.Prelude.{◌≡◌, ◌≤◌, [], ◌∷◌, ◌++◌, length, map, take, IsTrue, OnOk, OnErr};
ghost use Rattle.std.specs.Fmt.{decimal, signed_decimal};
ghost use Rattle.std.specs.List.{list_all};
ghost use Rattle.mp_text.specs.Report.{is_line_start, is_printable, is_token, line_text, token_text, with_token};

use crate::NoMemory;
use itoa::Buffer;
use std::alloc::Global;
use std::marker::Model;

/// What is printed as one token of a line.
#[derive(Clone, Copy, Debug)]
pub enum Token<'a> {
    /// A word: one byte or more, and none that parts tokens or lines.
    Word(&'a str),
    /// A number, in decimal digits.
    Number(u64),
    /// A signed number, in decimal digits, with a minus before it where it is negative.
    Signed(i64),
}

/// A text that is printed and held whole. Each call that appends changes nothing where memory runs out.
#[derive(Drop)]
pub struct Report {
    text: Vec<u8>,
}

impl Model for Report {
    ghost use Rattle.std.specs.Prelude.{ℕ, List};

    ghost Value = { List ℕ };

    ghost view = { λ s. s.text.items };
}

// Whether a text is empty or ends with a line feed.
fn is_line_start(text: &[u8]) -> bool
    ensures { result ≡ is_line_start text.now }
{
    match text {
        [] => true,
        [.., last] => *last == b'\n',
    }
}

impl Report {
    /// An empty report.
    pub fn new(alloc: Global) -> Report
        ensures { result ≡ [] }
    {
        Report {
            text: Vec::new(alloc),
        }
    }

    // Appends a token. Room is taken first, so that nothing is half appended.
    fn token(&mut self, token: &[u8]) -> Result<(), NoMemory>
        ensures ok { OnOk result (self.new ≡ with_token self.old token.now) }
        ensures err { OnErr result (self.new ≡ self.old) }
    {
        if is_line_start(&self.text) {
            return self.text.extend_from_slice(token);
        }
        self.text.reserve(token.len() + 1)?;
        self.text.push(b' ')?;
        self.text.extend_from_slice(token)
    }

    /// Appends a word, with a blank before it unless it begins a line.
    pub fn word(&mut self, word: &str) -> Result<(), NoMemory>
        ensures ok { OnOk result (self.new ≡ with_token self.old word.now) }
        ensures err { OnErr result (self.new ≡ self.old) }
    {
        self.token(word.as_bytes())
    }

    /// Appends a number in decimal digits, with a blank before it unless it begins a line.
    pub fn num(&mut self, n: u64) -> Result<(), NoMemory>
        ensures token { IsTrue (is_token (decimal n)) }
        ensures ok { OnOk result (self.new ≡ with_token self.old (decimal n)) }
        ensures err { OnErr result (self.new ≡ self.old) }
    {
        let mut buffer = Buffer::new();
        self.token(buffer.format(n).as_bytes())
    }

    /// Appends a signed number in decimal digits, with a blank before it unless it begins a line.
    pub fn int(&mut self, n: i64) -> Result<(), NoMemory>
        ensures token { IsTrue (is_token (signed_decimal n)) }
        ensures ok { OnOk result (self.new ≡ with_token self.old (signed_decimal n)) }
        ensures err { OnErr result (self.new ≡ self.old) }
    {
        let mut buffer = Buffer::new();
        self.token(buffer.format(n).as_bytes())
    }

    /// Ends the line.
    pub fn end_line(&mut self) -> Result<(), NoMemory>
        ensures ok { OnOk result (self.new ≡ self.old ++ 10 ∷ []) }
        ensures err { OnErr result (self.new ≡ self.old) }
    {
        self.text.push(b'\n')?;
        Ok(())
    }

    // Appends a token of a line.
    fn put(&mut self, token: Token<'_>) -> Result<(), NoMemory>
        requires { IsTrue (is_printable token) }
        ensures token { IsTrue (is_token (token_text token.entry)) }
        ensures ok { OnOk result (self.new ≡ with_token self.old (token_text token.entry)) }
        ensures err { OnErr result (self.new ≡ self.old) }
    {
        match token {
            Token::Word(word) => self.word(word),
            Token::Number(n) => self.num(n),
            Token::Signed(n) => self.int(n),
        }
    }

    // Appends a line of tokens, or a part of it.
    fn put_line(&mut self, tokens: &[Token<'_>]) -> Result<(), NoMemory>
        requires start { IsTrue (is_line_start self.old) }
        requires words { IsTrue (list_all is_printable tokens.now) }
        ensures ok { OnOk result (self.new ≡ self.old ++ line_text (map token_text tokens.now)) }
        ensures err { OnErr result (take (length self.old) self.new ≡ self.old) }
    {
        for token in tokens {
            self.put(*token)?;
        }
        self.end_line()
    }

    /// Appends a whole line of tokens, with one blank between two of them.
    pub fn line(&mut self, tokens: &[Token<'_>]) -> Result<(), NoMemory>
        requires start { IsTrue (is_line_start self.old) }
        requires words { IsTrue (list_all is_printable tokens.now) }
        ensures ok { OnOk result (self.new ≡ self.old ++ line_text (map token_text tokens.now)) }
        ensures start { OnOk result (IsTrue (is_line_start self.new)) }
        ensures err { OnErr result (self.new ≡ self.old) }
    {
        let start = self.len();
        let printed = self.put_line(tokens);
        if printed.is_err() {
            self.cut(start);
        }
        printed
    }

    /// How many bytes were printed.
    pub fn len(&self) -> usize
        ensures { result ≡ length self.now }
    {
        self.text.len()
    }

    /// Takes back what was printed after the first bytes.
    pub fn cut(&mut self, len: usize)
        requires { len ≤ length self.old }
        ensures { self.new ≡ take len self.old }
    {
        self.text.truncate(len);
    }

    /// The text so far.
    pub fn bytes(&self) -> &[u8]
        ensures { result.now ≡ self.now }
    {
        &self.text
    }
}
