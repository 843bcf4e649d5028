ghost use Rattle.std.specs.Prelude.{◌≡◌, IfOk};

use crate::kind::Kind;
use crate::text::Text;
use std::alloc::{AllocError, Global};

/// One type of events: its name, what its events do, and the number of the type that it mates with.
/// Types are numbered from 0 in the order of their rows.
#[derive(Debug, Drop)]
pub struct TypeRow {
    pub name: Text,
    pub kind: Kind,
    pub mate: Option<u8>,
}

impl TypeRow {
    /// An equal row.
    pub fn copy(&self, alloc: Global) -> Result<TypeRow, AllocError>
        ensures { IfOk result (λ row. row ≡ self.now) }
    {
        Ok(TypeRow {
            name: Text::new(alloc, self.name.bytes())?,
            kind: self.kind,
            mate: self.mate,
        })
    }
}
