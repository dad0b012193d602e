/// What the next line of a plan file of version 3 is.
#[derive(Clone, Copy, Debug, PartialEq, Eq)]
pub enum Stage {
    /// `plan 3`.
    Header,
    /// `order N`.
    OrderSection,
    /// An order line, or after the last of them `peak P`.
    Order,
    /// `bound L`.
    Bound,
    /// `need T`, `first B`, `last B`, `claims C` or `states K`.
    Evidence,
    /// A claim line, or after the last of them `end`.
    Claims,
    /// `base K`.
    BaseSection,
    /// An amount of the base, or after the last of them `blocker T D` or `end`.
    Base,
    /// An amount of a blocker, or after the last of them `blocker T D` or `end`.
    Own,
    /// `end`.
    End,
    /// None.
    Ended,
}
