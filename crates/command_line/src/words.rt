ghost use Rattle.std.specs.Prelude.{◌≡◌, ◌∷◌, [], ℕ, List, map, string_bytes, IfSome, IfNone};
ghost use Rattle.command_line.specs.Options.{BeginsOtherwise};

/// The first of the words, and those behind it, if there are any.
pub fn first_of(words: &[String]) -> Option<(&str, &[String])>
    ensures some { IfSome result (λ parts. map string_bytes words.now
        ≡ parts.0.now ∷ map string_bytes parts.1.now) }
    ensures none { IfNone result (map string_bytes words.now ≡ []) }
{
    let (first, rest) = words.split_first()?;
    Some((first.as_str(), rest))
}

/// The words behind this one, if they begin with it.
pub fn behind_word<'a>(words: &'a [String], word: &str) -> Option<&'a [String]>
    ensures some { IfSome result (λ rest. map string_bytes words.now
        ≡ word.now ∷ map string_bytes rest.now) }
    ensures none { IfNone result (BeginsOtherwise (map string_bytes words.now) word.now) }
{
    let (first, rest) = first_of(words)?;
    if first == word { Some(rest) } else { None }
}
