ghost use Rattle.std.specs.Prelude.{◌≡◌, ◌<◌, ◌↔◌, ℕ, [], ◌∷◌, length, map, IsTrue, string_bytes};
ghost use Rattle.std.specs.BTreeMap.{keys};
ghost use Rattle.std.specs.List.{list_any};
ghost use Rattle.target_desc.specs.Entries.{HasStrayKey};
ghost use Rattle.target_desc.specs.Reading.{HasStray};
ghost use Rattle.target_desc.specs.StrayKeys as stray_keys;
ghost use Rattle.toml.specs.View.{view, table_view};

use crate::fields::array_under;
use toml::{Table, Value};

/// Whether the document or an entry has a key that says nothing.
pub fn has_stray(document: &Table) -> bool
    ensures { IsTrue result ↔ HasStray (table_view document.now) }
{
    has_stray_key(document) || has_stray_entry_key(array_under(document, "event"))
}

/// Whether the document has a key that says nothing.
fn has_stray_key(document: &Table) -> bool
    ensures { result ≡ list_any (λ key. stray_keys.is_stray (string_bytes key))
        (keys document.now) }
{
    document.keys().any(|key| is_stray(key.as_str()))
}

/// Whether a key of a document says nothing.
fn is_stray(key: &str) -> bool
    ensures { result ≡ stray_keys.is_stray key.now }
{
    key != "traces" && key != "event"
}

/// Whether an entry has a key that says nothing.
fn has_stray_entry_key(entries: &[Value]) -> bool
    ensures { IsTrue result ↔ ((i : ℕ) × (i < length entries.now)
        × HasStrayKey (map view entries.now) i) }
{
    for entry in entries {
        if is_stray_entry(entry) {
            return true;
        }
    }
    false
}

/// Whether this entry has a key that says nothing.
fn is_stray_entry(entry: &Value) -> bool
    ensures { IsTrue result ↔ HasStrayKey (view entry.now ∷ []) 0 }
{
    match entry {
        Value::Table(fields) => has_stray_field(fields),
        _ => false,
    }
}

/// Whether a key of an entry's table says nothing.
fn has_stray_field(fields: &Table) -> bool
    ensures { result ≡ list_any (λ key. stray_keys.is_stray_field (string_bytes key))
        (keys fields.now) }
{
    fields.keys().any(|key| is_stray_field(key.as_str()))
}

/// Whether a key of an entry says nothing.
fn is_stray_field(key: &str) -> bool
    ensures { result ≡ stray_keys.is_stray_field key.now }
{
    key != "name" && key != "kind" && key != "mate"
}
