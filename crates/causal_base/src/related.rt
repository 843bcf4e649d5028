/// How one delivered event lies to another in cause and effect.
#[derive(Clone, Copy, Debug, PartialEq, Eq)]
pub enum Related {
    /// It happened before the other.
    Before,
    /// The other happened before it.
    After,
    /// Neither could have influenced the other.
    Concurrent,
    /// They are one event.
    Same,
    /// They are partners: two traces did one thing at once.
    Partners,
}
