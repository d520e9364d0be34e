// How many persistent keys a store takes.

/// Whether each range of identifiers has a limit of its own.
#[derive(Clone, Copy, Debug, PartialEq, Eq, Drop)]
pub enum Limits {
    /// 2,048 persistent keys.
    Whole,
    /// And at most 128 of them in each range: identifiers of one range have the same quotient by 2^26.
    PerRange,
}
