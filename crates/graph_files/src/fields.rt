ghost use Rattle.std.specs.Prelude.{◌≡◌};
ghost use Rattle.mp_text.specs.Text.{tokens_of, numbers_of};
ghost use Rattle.graph_files.specs.GraphFile.{task_of_numbers, arc_from};

use mp_system::Task;
use mp_text::tokens;

/// The numbers of an arc line, of whatever size.
#[derive(Clone, Copy, Debug)]
pub struct ArcFields {
    pub from: u64,
    pub to: u64,
    pub size: u64,
}

/// The task of a line that has just so many numbers.
pub fn task_on_line(text: &[u8]) -> Option<Task>
    ensures { result ≡ task_of_numbers (numbers_of (tokens_of text.now)) }
{
    let [extra, share, time] = tokens(text).numbers::<3>()?;
    Some(Task { extra, share, time })
}

/// The fields of a line that has just so many numbers.
pub fn arc_on_line(text: &[u8]) -> Option<ArcFields>
    ensures { result ≡ arc_from (numbers_of (tokens_of text.now)) }
{
    let [from, to, size] = tokens(text).numbers::<3>()?;
    Some(ArcFields { from, to, size })
}
