ghost use Rattle.std.specs.Prelude.{◌≡◌};
ghost use Rattle.mp_text.specs.Text.{tokens_of};
ghost use Rattle.file_frame.specs.Words.{version_word, versions_up_to, version_named, version_of};

use crate::words::after_word;

/// The version of a format.
#[derive(Clone, Copy, Debug, PartialEq, Eq)]
pub enum Version {
    One = 1,
    Two,
}

impl Version {
    /// The word for it in line 1 of a file.
    pub fn word(self) -> &'static str
        ensures { result.now ≡ version_word self }
    {
        match self {
            Version::One => "1",
            Version::Two => "2",
        }
    }
}

// The versions that a format has, up to its newest.
fn versions_up_to(newest: Version) -> &'static [Version]
    ensures { result.now ≡ versions_up_to newest }
{
    match newest {
        Version::One => &[Version::One],
        Version::Two => &[Version::One, Version::Two],
    }
}

// The version that a word names, in a format whose newest is this.
fn version_named(newest: Version, word: &[u8]) -> Option<Version>
    ensures { result ≡ version_named newest word.now }
{
    versions_up_to(newest)
        .iter()
        .copied()
        .find(|version| word == version.word().as_bytes())
}

/// The version that line 1 of a file names: the name of its format, and then a version up to the newest.
pub fn version_of(text: &[u8], name: &[u8], newest: Version) -> Option<Version>
    ensures { result ≡ version_of name.now newest (tokens_of text.now) }
{
    version_named(newest, after_word(text, name)?)
}
