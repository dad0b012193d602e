/// What the next line of a plan file is.
#[derive(Clone, Copy, Debug, PartialEq, Eq)]
pub enum Stage {
    /// `plan 1` or `plan 2`.
    Header,
    /// `order N`.
    OrderSection,
    /// An order line, or after the last of them the section that follows.
    Order,
    /// A priority line, or after the last of them `peak P`.
    Priority,
    /// `claims C`.
    ClaimsSection,
    /// A claim line, or after the last of them `end`.
    Claims,
    /// None.
    Ended,
}
