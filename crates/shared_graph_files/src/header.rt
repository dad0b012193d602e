ghost use Rattle.std.specs.Prelude.{◌≡◌};
ghost use Rattle.mp_text.specs.Ahead.{row};
ghost use Rattle.mp_text.specs.Reading.{Gives, tested};
ghost use Rattle.shared_graph_files.specs.SharedGraphFile.{says_second, second_header_tests};

use file_frame::{Version, version_of};
use graph_files::GraphKind;
use mp_text::{Line, Refusal, fault};

/// Whether a line says version 2.
pub fn says_second(line: Line<'_>) -> bool
    ensures { result ≡ says_second (row line.entry.number line.entry.text.now) }
{
    match version_of(line.text, b"graph", Version::Two) {
        Some(Version::Two) => true,
        _ => false,
    }
}

/// Line 1.
pub fn second_header_on(line: Line<'_>) -> Result<(), Refusal<GraphKind>>
    ensures { Gives (tested (second_header_tests (row line.entry.number line.entry.text.now)) tt) result }
{
    if !says_second(line) {
        return Err(fault(line.number, GraphKind::Header));
    }
    Ok(())
}
