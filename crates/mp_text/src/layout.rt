/// Which lines of a file are comments, and so passed over, as blank lines are.
#[derive(Clone, Copy, Debug, PartialEq, Eq)]
pub enum Layout {
    /// Lines that begin with `%` or `#`.
    Commented,
    /// Lines that begin with `%`; but line 1, the banner, counts whatever it is.
    Banner,
}
