ghost use Rattle.std.specs.Prelude.{◌≡◌, ◌++◌, ◌≢◌, [], ℕ, List, codes, IfSome, IfNone};
ghost use Rattle.command_line.specs.Items.{IsItem, Item};
ghost use Rattle.command_line.specs.Asking.{item_of};

/// A file that a word behind the target names, and what it is.
#[derive(Clone, Copy)]
pub enum ItemRef<'a> {
    /// The events of a collector.
    Events(&'a str),
    /// The script of a client.
    Client(&'a str),
    /// The closing script.
    Closing(&'a str),
}

/// The file that a word names.
pub fn item_in(word: &str) -> Option<ItemRef<'_>>
    ensures some { IfSome result (λ item. IsItem word.now (item_of item)) }
    ensures none { IfNone result ((item : Item) → IsItem word.now item → ⊥) }
{
    if let Some(name) = name_behind(word, "e:") {
        return Some(ItemRef::Events(name));
    }
    if let Some(name) = name_behind(word, "c:") {
        return Some(ItemRef::Client(name));
    }
    let name = name_behind(word, "z:")?;
    Some(ItemRef::Closing(name))
}

/// What stands behind a prefix, if the word has it and something does.
fn name_behind<'a>(word: &'a str, prefix: &str) -> Option<&'a str>
    ensures some { IfSome result (λ name. word.now ≡ prefix.now ++ name.now) }
    ensures named { IfSome result (λ name. name.now ≢ []) }
    ensures none { IfNone result ((name : List ℕ) → word.now ≡ prefix.now ++ name
        → name ≢ [] → ⊥) }
{
    let name = word.strip_prefix(prefix)?;
    if name.is_empty() { None } else { Some(name) }
}
