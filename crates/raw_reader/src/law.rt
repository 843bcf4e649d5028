ghost use Rattle.std.specs.Prelude.{◌≡◌, ◌++◌, ℕ, List};
ghost use Rattle.causal_base.specs.declared.event.Event.{Event};
ghost use Rattle.causal_base.specs.Types.{TypeTable};
ghost use Rattle.causal_base.specs.TypeTables.{IsTypeTable};
ghost use Rattle.raw_reader.specs.declared.cause.LineError.{LineError};
ghost use Rattle.raw_reader.specs.Texts.{TextLine, IsKnownAfter, IsOpenText, BeginsWithBatches, IsGoodText, HasFault};

/// A text has at most one first fault, behind the same good lines.
pub fn first_fault_is_one()
    ensures { (types : TypeTable) → IsTypeTable types → (bytes : List ℕ)
        → (lines others : List TextLine) (error other : LineError)
        → IsKnownAfter types bytes lines error → IsKnownAfter types bytes others other
        → (lines ≡ others) × (error ≡ other) }
{}

/// The fault that is known of a text is that of every text that goes on from it.
pub fn known_fault_stays()
    ensures { (types : TypeTable) (bytes more : List ℕ) (lines : List TextLine) (error : LineError)
        → IsKnownAfter types bytes lines error → IsKnownAfter types (bytes ++ more) lines error }
{}

/// No fault is known of an open text.
pub fn open_text_has_no_fault()
    ensures { (types : TypeTable) → IsTypeTable types
        → (bytes : List ℕ) (batches : List (List Event)) → IsOpenText types bytes batches
        → (lines : List TextLine) (error : LineError)
        → IsKnownAfter types bytes lines error → ⊥ }
{}

/// No whole text is good and has a first fault, and it has its batches and its first fault in one
/// way; so has an open text its batches.
pub fn text_is_read_in_one_way()
    ensures open_text { (types : TypeTable) → IsTypeTable types
        → (bytes : List ℕ) (batches others : List (List Event))
        → IsOpenText types bytes batches → IsOpenText types bytes others → batches ≡ others }
    ensures good { (types : TypeTable) → IsTypeTable types
        → (bytes : List ℕ) (batches others : List (List Event))
        → IsGoodText types bytes batches → IsGoodText types bytes others → batches ≡ others }
    ensures faulty { (types : TypeTable) → IsTypeTable types
        → (bytes : List ℕ) (batches others : List (List Event)) (error other : LineError)
        → HasFault types bytes batches error → HasFault types bytes others other
        → (batches ≡ others) × (error ≡ other) }
    ensures not_both { (types : TypeTable) → IsTypeTable types
        → (bytes : List ℕ) (batches others : List (List Event)) (error : LineError)
        → IsGoodText types bytes batches → HasFault types bytes others error → ⊥ }
{}

/// The batches that good lines close, with which a text begins, are the first of all its batches.
pub fn closed_batches_come_first()
    ensures good { (types : TypeTable) → IsTypeTable types
        → (bytes : List ℕ) (first batches : List (List Event))
        → BeginsWithBatches types bytes first → IsGoodText types bytes batches
        → (rest : List (List Event)) × (batches ≡ first ++ rest) }
    ensures faulty { (types : TypeTable) → IsTypeTable types
        → (bytes : List ℕ) (first batches : List (List Event)) (error : LineError)
        → BeginsWithBatches types bytes first → HasFault types bytes batches error
        → (rest : List (List Event)) × (batches ≡ first ++ rest) }
{}
