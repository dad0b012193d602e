/// What the reader of a matrix file expects next.
#[derive(Clone, Copy, Debug, PartialEq, Eq)]
pub enum Stage {
    Banner,
    Size,
    Entries,
}

/// What the reader of an order file expects next: any first line, numbers alone, or of a report `order N`, its numbers, nothing more.
#[derive(Clone, Copy, Debug, PartialEq, Eq)]
pub enum OrderStage {
    Start,
    Plain,
    Count,
    Listed,
    Ended,
}

/// What the reader of a listing of places expects next: how many vertices there are, a vertex, or its place.
#[derive(Clone, Copy, Debug, PartialEq, Eq)]
pub enum ListingStage {
    Count,
    Vertex,
    Place,
}
