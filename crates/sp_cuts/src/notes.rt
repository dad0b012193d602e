//! What a walk over the claims of a term needs of its positions, noted while the parts are made.

ghost use Rattle.std.specs.Prelude.{◌≡◌};

use hill_valley::Numbers;
use std::alloc::Global;

/// A series, seen in the direction whose side goes over its task: first over the near part, then on along the far one.
#[derive(Clone, Copy)]
pub struct SeriesNote {
    /// The cut lies in the first part. Then the direction is backwards, and the second part is the near one. Else it is
    /// forwards, and the first part is the near one.
    pub in_first: bool,
    /// The `up` of the last segment of the near part's side in that direction, and 0 where there is none.
    pub near_up: u64,
    /// The least memory of the near part.
    pub near_least: u64,
    /// The memory beside the task in the near part, where its side in the other direction starts.
    pub between_start: u64,
    /// The memory beside the task in the far part, where its side in the direction starts.
    pub far_start: u64,
    /// How many segments the near part's side in the other direction has. Their numbers stand in `gone`.
    pub between: u32,
    /// How many segments of the far part's side start above the least memory of the near part. Their numbers stand behind those.
    pub far: u32,
}

/// A part of parts side by side.
#[derive(Clone, Copy)]
pub struct PartNote {
    /// Its least memory.
    pub least: u64,
    /// The `up` of the last segment of its front, and 0 where there is none.
    pub front_up: u64,
    /// That of its back.
    pub back_up: u64,
    /// The numbers of its segments stand in `gone`, so many of its front, and behind them so many of its back. They do for all parts
    /// but one, since what the others leave of the level of the whole is that of this one.
    pub read: bool,
    /// How many segments of its front stand there.
    pub front: u32,
    /// How many of its back.
    pub back: u32,
}

/// The notes of positions, one after the other: those of a position stand behind those of the positions before it, so that a
/// walk from the last position down finds them at the ends.
#[derive(Drop)]
pub struct Notes {
    /// One for each series.
    pub series: Vec<SeriesNote>,
    /// One for each part of parts side by side.
    pub parts: Vec<PartNote>,
    /// The numbers of segments that are used up. How many of them are a position's own is in its notes.
    pub gone: Vec<Numbers>,
}

impl Notes {
    ghost use Rattle.sp_cuts.specs.Notes.{noted_in, nothing_noted};

    /// No notes yet.
    pub fn new(alloc: Global) -> Notes
        ensures empty { noted_in result ≡ nothing_noted }
    {
        Notes {
            series: Vec::new(alloc),
            parts: Vec::new(alloc),
            gone: Vec::new(alloc),
        }
    }
}
