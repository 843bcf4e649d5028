use thiserror::Error;

/// A source, a sink or a folder failed.
#[derive(Clone, Copy, Debug, PartialEq, Eq, Error)]
#[error("input or output failed")]
pub struct Failed;
