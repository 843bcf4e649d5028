ghost use Rattle.std.specs.Prelude.{◌≡◌, ◌↔◌, ◌∷◌, ◌++◌, [], ℕ, List, Option, Some, None, map, string_bytes, IsTrue, IfSome, IfNone};
ghost use Rattle.std.specs.Bool.{OnFalse, OnTrue};
ghost use Rattle.std.specs.Option.{option_map};
ghost use Rattle.command_line.specs.Asking.{item_of};
ghost use Rattle.command_line.specs.Items.{AreFiles, IsFullFor, Item, NameFiles};

use crate::item::{ItemRef, item_in};
use crate::names::Names;

/// The files that are named behind the target.
#[derive(Drop)]
pub struct Files<'a> {
    /// The names of the files of events.
    pub events: Names<'a>,
    /// The names of the scripts of clients.
    pub clients: Names<'a>,
    /// The name of the closing script, if there is one.
    pub closing: Option<&'a str>,
}

impl<'a> Files<'a> {
    /// The files that the words name.
    pub fn of(words: &'a [String]) -> Option<Files<'a>>
        ensures some { IfSome result (λ files. NameFiles (map string_bytes words.now) files.events
            files.clients (option_map (λ name. name.now) files.closing)) }
        ensures none { IfNone result ((events clients : List (List ℕ))
            (closing : Option (List ℕ))
            → NameFiles (map string_bytes words.now) events clients closing → ⊥) }
    {
        let mut files = Files {
            events: Names::new(),
            clients: Names::new(),
            closing: None,
        };
        for word in words {
            let item = item_in(word.as_str())?;
            if !files.add(item) {
                return None;
            }
        }
        Some(files)
    }

    /// Adds a file, and says whether there was room for it.
    fn add(&mut self, item: ItemRef<'a>) -> bool
        ensures added { OnTrue result ((items : List Item)
            → AreFiles items self.old.events self.old.clients
            (option_map (λ name. name.now) self.old.closing)
            → AreFiles (items ++ item_of item.entry ∷ []) self.new.events self.new.clients
            (option_map (λ name. name.now) self.new.closing)) }
        ensures full { OnFalse result ((items : List Item)
            → AreFiles items self.old.events self.old.clients
            (option_map (λ name. name.now) self.old.closing)
            → IsFullFor items (item_of item.entry)) }
    {
        match item {
            ItemRef::Events(name) => self.events.push(name),
            ItemRef::Client(name) => self.clients.push(name),
            ItemRef::Closing(name) => put_first(&mut self.closing, name),
        }
    }
}

/// Puts a name where there is none, and says whether it did.
fn put_first<'a>(place: &mut Option<&'a str>, name: &'a str) -> bool
    ensures empty { IsTrue result ↔ (option_map (λ text. text.now) place.old ≡ None) }
    ensures put { OnTrue result (option_map (λ text. text.now) place.new ≡ Some name.now) }
    ensures kept { OnFalse result (place.new ≡ place.old) }
{
    if place.is_some() {
        return false;
    }
    *place = Some(name);
    true
}
