ghost use Rattle.std.specs.Prelude.{◌≡◌};
ghost use Rattle.mp_text.specs.Text.{tokens_of, numbers_of};
ghost use Rattle.tree_files.specs.TreeFile.{fields_of};

use file_frame::Version;
use mp_text::tokens;

/// The numbers of a node line, of whatever size.
#[derive(Clone, Copy, Debug)]
pub struct NodeFields {
    pub parent: u64,
    pub out: u64,
    pub extra: u64,
    pub share: u64,
    pub time: u64,
}

/// The fields of a line that has just so many numbers.
pub fn fields_on(version: Version, text: &[u8]) -> Option<NodeFields>
    ensures { result ≡ fields_of version (numbers_of (tokens_of text.now)) }
{
    match version {
        Version::One => {
            let [parent, out, extra, time] = tokens(text).numbers::<4>()?;
            Some(NodeFields {
                parent,
                out,
                extra,
                share: 0,
                time,
            })
        }
        Version::Two => {
            let [parent, out, extra, share, time] = tokens(text).numbers::<5>()?;
            Some(NodeFields {
                parent,
                out,
                extra,
                share,
                time,
            })
        }
    }
}
