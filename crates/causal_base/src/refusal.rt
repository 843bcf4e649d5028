/// Why an offered event wasn't accepted.
#[derive(Clone, Copy, Debug, PartialEq, Eq)]
pub enum Refusal {
    /// An equal event was accepted before.
    Repeat,
    /// A different event of this id was accepted before.
    Clash,
    /// As many events as there may be were accepted before.
    Full,
    /// Memory ran out.
    Oom,
}
