/// What the next line of a fence file is.
#[derive(Clone, Copy, Debug, PartialEq, Eq)]
pub enum Stage {
    /// `fences 1`.
    Header,
    /// `bound B`.
    Bound,
    /// `workers W`.
    Workers,
    /// `room L`.
    Room,
    /// `joins J`.
    JoinsSection,
    /// A join line, or after the last of them `fences K`.
    Joins,
    /// A fence line, or after the last of them `amounts N`.
    Fences,
    /// An amount line, or after the last of them `end`.
    Amounts,
    /// None.
    Ended,
}
