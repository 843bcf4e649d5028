ghost use Rattle.std.specs.Prelude.{◌≡◌, ℕ, Bool, List};
ghost use Rattle.causal_base.specs.declared.answer.Answer.{Answer};
ghost use Rattle.causal_base.specs.declared.event_id.EventId.{EventId};
ghost use Rattle.causal_base.specs.Types.{TypeTable};
ghost use Rattle.causal_base.specs.TypeTables.{IsTypeTable};
ghost use Rattle.raw_reader.specs.declared.cause.LineError.{LineError};
ghost use Rattle.poet_top.specs.Ask.{IsAnswerOver, HasBadLine, HasManyIds};

/// No bytes of a file have two of these: an answer, a bad line, and too many ids; and their bad
/// line is one.
pub fn bytes_end_in_one_way()
    ensures answer_or_bad_line { (types : TypeTable) → IsTypeTable types → (bytes : List ℕ)
        → (a b : EventId) (answer : Answer Bool) (error : LineError)
        → IsAnswerOver types bytes a b answer → HasBadLine types bytes error → ⊥ }
    ensures answer_or_many { (types : TypeTable) → IsTypeTable types → (bytes : List ℕ)
        → (a b : EventId) (answer : Answer Bool)
        → IsAnswerOver types bytes a b answer → HasManyIds types bytes → ⊥ }
    ensures bad_line_or_many { (types : TypeTable) → IsTypeTable types
        → (bytes : List ℕ) (error : LineError)
        → HasBadLine types bytes error → HasManyIds types bytes → ⊥ }
    ensures bad_line_is_one { (types : TypeTable) → IsTypeTable types
        → (bytes : List ℕ) (error other : LineError)
        → HasBadLine types bytes error → HasBadLine types bytes other → error ≡ other }
{}
