//! That words are one plan at most.

ghost use Rattle.std.specs.Prelude.{◌≡◌, ℕ, List};
ghost use Rattle.command_line.specs.Plans.{Asked, IsPlan};

/// Words ask for one thing at most.
pub fn words_are_one_plan()
    ensures { (words : List (List ℕ)) (asked other : Asked) → IsPlan words asked
        → IsPlan words other → asked ≡ other }
{}
