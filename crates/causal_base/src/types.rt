ghost use Rattle.std.specs.Prelude.{◌≡◌, ◌≢◌, ℕ, ◌<◌, ◌≤◌, length, Some, IfOk, IfSome, IfNone};
ghost use Rattle.causal_base.specs.Types.{TypeTable, kind_of, mate_of, builtin_types};
ghost use Rattle.causal_base.specs.Spelling.{name_of};
ghost use Rattle.causal_base.specs.TypeTables.{IsTypeTable};

use crate::kind::Kind;
use crate::limits::MOST_TRACES;
use crate::text::Text;
use crate::type_row::TypeRow;
use std::alloc::{AllocError, Global};
use std::marker::Model;

/// How many traces there are, and the types that events may have. Contracts see it as a table of
/// both.
#[derive(Debug, Drop)]
pub struct Types {
    traces: u32,
    rows: Vec<TypeRow>,
}

impl Model for Types {
    ghost Value = { TypeTable };

    ghost view = { λ t. record { traces = t.traces; rows = t.rows.items } };

    ghost invariant = { λ t. IsTypeTable (record { traces = t.traces; rows = t.rows.items }) };
}

impl Types {
    /// A table of 1 to [`MOST_TRACES`] traces and 1 to [`MOST_TYPES`] types, whose names are names
    /// and differ. A send type and a receive type mate with each other, a sync type with a sync
    /// type, perhaps itself, and the others with none.
    pub fn new(traces: u32, rows: Vec<TypeRow>) -> Types
        requires { IsTypeTable (record { traces = traces; rows = rows.items }) }
        ensures { result ≡ record { traces = traces; rows = rows.items } }
    {
        Types { traces, rows }
    }

    /// The types that need no target file, for 1 to [`MOST_TRACES`] traces: `u` unary, `s` send and
    /// `r` receive, which mate with each other, and `y` sync, which mates with itself.
    pub fn builtin(alloc: Global, traces: u32) -> Result<Types, AllocError>
        requires some { 1 ≤ traces }
        requires most { traces ≤ MOST_TRACES }
        ensures { IfOk result (λ types. types ≡ builtin_types traces) }
    {
        let rows = vec![in alloc;
            builtin_row(alloc, b"u", Kind::Unary, None)?,
            builtin_row(alloc, b"s", Kind::Send, Some(2))?,
            builtin_row(alloc, b"r", Kind::Receive, Some(1))?,
            builtin_row(alloc, b"y", Kind::Sync, Some(3))?,
        ]?;
        Ok(Types::new(traces, rows))
    }

    /// An equal table.
    pub fn copy(&self, alloc: Global) -> Result<Types, AllocError>
        ensures { IfOk result (λ types. types ≡ self.now) }
    {
        let mut rows = Vec::with_capacity(alloc, self.rows.len())?;
        for row in &self.rows {
            rows.push(row.copy(alloc)?)?;
        }
        Ok(Types {
            traces: self.traces,
            rows,
        })
    }

    /// How many traces there are, from 1 to 256.
    pub fn traces(&self) -> u32
        ensures number { result ≡ self.now.traces }
        ensures table { IsTypeTable self.now }
    {
        self.traces
    }

    /// The name of the type with this number.
    pub fn name(&self, type_no: u8) -> &[u8]
        requires { type_no < length self.now.rows }
        ensures { result.now ≡ name_of self.now type_no }
    {
        self.rows[type_no as usize].name.bytes()
    }

    /// What the events of the type with this number do.
    pub fn kind(&self, type_no: u8) -> Kind
        requires { type_no < length self.now.rows }
        ensures kind { kind_of self.now type_no ≡ Some result }
        ensures table { IsTypeTable self.now }
    {
        self.rows[type_no as usize].kind
    }

    /// The number of the type that the type with this number mates with, if it mates.
    pub fn mate(&self, type_no: u8) -> Option<u8>
        requires { type_no < length self.now.rows }
        ensures mate { result ≡ mate_of self.now type_no }
        ensures table { IsTypeTable self.now }
    {
        self.rows[type_no as usize].mate
    }

    /// The number of the type with this name, or none where no type has it.
    pub fn type_of(&self, name: &[u8]) -> Option<u8>
        ensures below { IfSome result (λ type_no. type_no < length self.now.rows) }
        ensures named { IfSome result (λ type_no. name_of self.now type_no ≡ name.now) }
        ensures only { IfSome result (λ type_no. (other : ℕ) → other < length self.now.rows
            → name_of self.now other ≡ name.now → other ≡ type_no) }
        ensures none { IfNone result ((type_no : ℕ) → type_no < length self.now.rows
            → name_of self.now type_no ≢ name.now) }
        ensures table { IsTypeTable self.now }
    {
        for type_no in 0..self.rows.len() as u8 {
            if self.name(type_no) == name {
                return Some(type_no);
            }
        }
        None
    }
}

/// A row with this name of one byte.
fn builtin_row(
    alloc: Global,
    name: &[u8],
    kind: Kind,
    mate: Option<u8>,
) -> Result<TypeRow, AllocError>
    ensures { IfOk result (λ row. row ≡ record { name = name.now; kind = kind; mate = mate }) }
{
    Ok(TypeRow {
        name: Text::new(alloc, name)?,
        kind,
        mate,
    })
}
