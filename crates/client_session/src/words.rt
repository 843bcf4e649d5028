ghost use Rattle.std.specs.Prelude.{◌≡◌, ℕ, List, [], ◌∷◌, IfOk, IfErr, OnOk, option_copied};
ghost use Rattle.client_session.specs.Words.{AreAllWords, AreOthers, IsBadShape, IsNextWord, IsWordBefore, LacksNextWord, behind};

use crate::script_error::ScriptCause;
use causal_base::split_once;

/// The first word of a line, and what stands behind the space after it, if there is one.
pub fn first_word(line: &[u8]) -> (&[u8], Option<&[u8]>)
    ensures { IsWordBefore line.now result.0.now (behind (option_copied result.1)) }
{
    match split_once(line, b' ') {
        Some((first, others)) => (first, Some(others)),
        None => (line, None),
    }
}

/// That there are no other words. Else it is `Shape`.
pub fn no_words(others: Option<&[u8]>) -> Result<(), ScriptCause>
    ensures ok { OnOk result (behind (option_copied others.entry) ≡ []) }
    ensures err { IfErr result (λ cause. (cause ≡ ScriptCause.Shape)
        × ((words : List (List ℕ)) → AreOthers (behind (option_copied others.entry)) words
        → IsBadShape 0 words)) }
{
    match others {
        None => Ok(()),
        Some(_) => Err(ScriptCause::Shape),
    }
}

/// The one other word, which isn't empty. Else it is `Shape`.
pub fn one_word(others: Option<&[u8]>) -> Result<&[u8], ScriptCause>
    ensures ok { IfOk result (λ word. AreAllWords (behind (option_copied others.entry))
        (word.now ∷ [])) }
    ensures err { IfErr result (λ cause. (cause ≡ ScriptCause.Shape)
        × ((words : List (List ℕ)) → AreOthers (behind (option_copied others.entry)) words
        → IsBadShape 1 words)) }
{
    let (word, others) = next_word(others)?;
    no_words(others)?;
    Ok(word)
}

/// The two other words, none of them empty. Else it is `Shape`.
pub fn two_words(others: Option<&[u8]>) -> Result<(&[u8], &[u8]), ScriptCause>
    ensures ok { IfOk result (λ words. AreAllWords (behind (option_copied others.entry))
        (words.0.now ∷ words.1.now ∷ [])) }
    ensures err { IfErr result (λ cause. (cause ≡ ScriptCause.Shape)
        × ((words : List (List ℕ)) → AreOthers (behind (option_copied others.entry)) words
        → IsBadShape 2 words)) }
{
    let (first, others) = next_word(others)?;
    let second = one_word(others)?;
    Ok((first, second))
}

/// The next word, which isn't empty, and those behind it. `Shape` where there is none, or where it
/// is empty.
pub fn next_word(others: Option<&[u8]>) -> Result<(&[u8], Option<&[u8]>), ScriptCause>
    ensures ok { IfOk result (λ next. IsNextWord (behind (option_copied others.entry)) next.0.now
        (behind (option_copied next.1))) }
    ensures err { IfErr result (λ cause. (cause ≡ ScriptCause.Shape)
        × LacksNextWord (behind (option_copied others.entry))) }
{
    let Some(others) = others else {
        return Err(ScriptCause::Shape);
    };
    let (word, others) = first_word(others);
    if word.is_empty() {
        return Err(ScriptCause::Shape);
    }
    Ok((word, others))
}
