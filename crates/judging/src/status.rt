ghost use Rattle.std.specs.Prelude.{◌≡◌, option_map};
ghost use Rattle.judging.specs.Statuses.{exit_code_of, complaint_of};

/// How a run ended. The program ends with the number of its status.
#[derive(Clone, Copy, Debug, PartialEq, Eq)]
pub enum Status {
    /// The report was written.
    Done,
    /// The order or the plan was judged, and refused; its line says why.
    No,
    /// The words ask for nothing that the program does; nothing was written.
    Usage,
    /// A file is not of its format; the line says where and why.
    Format,
    /// A file passes a limit; the line says which.
    Limit,
    /// The given bound is below the peak of the order.
    Bound,
    /// A file could not be read; nothing was written.
    ReadFault,
    /// The report could not be written; a part of it may have been.
    WriteFault,
    /// Memory ran out; nothing was written.
    NoMemory,
    /// No term has the system of the task graph; the report has the arcs of an irreducible rest.
    NotSeriesParallel,
    /// A step of the order needs more for itself than the given bound.
    WorkingSet,
}

/// The number with which the program ends: 0 to 10, in the order of the statuses.
pub fn code_of(status: Status) -> u8
    ensures { result ≡ exit_code_of status }
{
    match status {
        Status::Done => 0,
        Status::No => 1,
        Status::Usage => 2,
        Status::Format => 3,
        Status::Limit => 4,
        Status::Bound => 5,
        Status::ReadFault => 6,
        Status::WriteFault => 7,
        Status::NoMemory => 8,
        Status::NotSeriesParallel => 9,
        Status::WorkingSet => 10,
    }
}

/// What is said on standard error of a run that wrote no report, or only a part of it.
pub fn complaint(status: Status) -> Option<&'static str>
    ensures { option_map (λ s. s.now) result ≡ complaint_of status }
{
    match status {
        Status::Usage => Some("memplan: usage"),
        Status::ReadFault => Some("memplan: read fault"),
        Status::WriteFault => Some("memplan: write fault"),
        Status::NoMemory => Some("memplan: no memory"),
        Status::Done
        | Status::No
        | Status::Format
        | Status::Limit
        | Status::Bound
        | Status::NotSeriesParallel
        | Status::WorkingSet => None,
    }
}
