ghost use Rattle.std.specs.Prelude.{◌≡◌, ◌≤◌, ◌∷◌, ◌++◌, [], ℕ, List, All, flat_map, length};
ghost use Rattle.causal_base.specs.declared.event.Event.{Event};
ghost use Rattle.causal_base.specs.Event.{IsFit};
ghost use Rattle.causal_base.specs.Spelling.{spelling};
ghost use Rattle.causal_base.specs.Types.{TypeTable};
ghost use Rattle.raw_reader.specs.Texts.{IsGoodText, events_of};
ghost use Rattle.raw_reader.specs.declared.limits.TheConstants.{MOST_INPUT};

/// A text with a line for each of these events, within the limit of an input, is good, and its
/// batches have these events.
pub fn lines_are_read_back()
    ensures { (types : TypeTable) (events : List Event) → All (IsFit types) events
        → length (flat_map (λ e. spelling types e ++ 10 ∷ []) events) ≤ MOST_INPUT
        → (batches : List (List Event))
        × IsGoodText types (flat_map (λ e. spelling types e ++ 10 ∷ []) events) batches
        × (events_of batches ≡ events) }
{}
