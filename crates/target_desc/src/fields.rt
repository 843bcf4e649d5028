//! What stands under a key of a document, or of an entry.

ghost use Rattle.std.specs.Prelude.{◌≡◌, ◌↔◌, ◌-◌, ◌^◌, min, map, IsTrue, IsSome, option_map, option_and_then};
ghost use Rattle.target_desc.specs.Document as document_spec;
ghost use Rattle.toml.specs.Data.{as_str, get};
ghost use Rattle.toml.specs.View.{view, table_view};

use toml::{Table, Value};

/// The array under a key of a document. It is empty where the key is missing or holds no array.
pub fn array_under<'a>(document: &'a Table, key: &str) -> &'a [Value]
    ensures { map view result.now ≡ document_spec.array_under key.now (table_view document.now) }
{
    let Some(value) = document.get(key) else {
        return &[];
    };
    match value.as_array() {
        Some(items) => items.as_slice(),
        None => &[],
    }
}

/// The string under a key of an entry, where it has one.
pub fn text_field<'a>(entry: &'a Value, key: &str) -> Option<&'a str>
    ensures { option_map (λ text. text.now) result ≡ option_and_then as_str
        (get key.now (view entry.now)) }
{
    match entry.get(key) {
        Some(value) => value.as_str(),
        None => None,
    }
}

/// Whether an entry has this key.
pub fn has_field(entry: &Value, key: &str) -> bool
    ensures { IsTrue result ↔ IsSome (get key.now (view entry.now)) }
{
    entry.get(key).is_some()
}

/// A count as it is told: in 32 bits, at whose last value it stands still.
pub fn count_told(count: usize) -> u32
    ensures { result ≡ min count (2 ^ 32 - 1) }
{
    u32::try_from(count).unwrap_or(u32::MAX)
}
