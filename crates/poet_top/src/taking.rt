//! Takes the events of a text into a plain list, while the text is read.

ghost use Rattle.std.specs.Prelude.{◌≡◌, ◌≢◌, ◌⊎◌, ◌<◌, ℕ, List, [], ◌∷◌, ◌++◌, None, IfErr, IfSome, OnOk, MatchResult};
ghost use Rattle.std.specs.List.{AllByRecursion};
ghost use Rattle.causal_base.specs.declared.event.Event.{Event};
ghost use Rattle.causal_base.specs.Event.{IsFit};
ghost use Rattle.poet_io.specs.Takes.{LeavesRest};
ghost use Rattle.raw_reader.specs.ReaderState.{HasRead, HasReadToEnd};
ghost use Rattle.causal_base.specs.declared.limits.TheConstants.{MOST_PLAIN_EVENTS};
ghost use Rattle.poet_top.specs.Ask.{count_of_ids, HasManyIds};
ghost use Rattle.poet_top.specs.FaultOutcome.{ShowsFault, HasNoAnswer, CountsFault};
ghost use Rattle.poet_top.specs.Taking.{HasTaken, HasTakenFrom, HasTakenAll};

use crate::fault::Fault;
use crate::limits::MOST_READ;
use causal_base::{Event, Plain, Refusal};
use poet_io::Source;
use raw_reader::{Batch, Reader};

/// Takes the events of a whole source, which was opened by this name, from a new reader into a new
/// list. It ends at the first fault, at the first event that the list is full for, and where a read
/// fails or memory runs out.
pub fn take_events<'a, S: Source>(
    name: &'a str,
    source: &mut S,
    reader: &mut Reader<'_>,
    plain: &mut Plain,
) -> Result<(), Fault<'a>>
    requires new { HasTakenFrom HasRead reader.old [] plain.old.journal }
    requires going { reader.old.refusal ≡ None }
    requires none_waits { reader.old.waiting ≡ [] }
    requires types { reader.old.types ≡ plain.old.types }

    ensures ok { OnOk result (IfSome (S.state source.old).left
        (λ bytes. HasTakenAll plain.old.types bytes plain.new.journal)) }
    ensures at_end { OnOk result (IfSome (S.state source.new).left (λ left. left ≡ [])) }
    ensures err { IfErr result (λ fault. IfSome (S.state source.old).left
        (λ bytes. IfSome (S.state source.new).left
        (λ left. HasNoAnswer plain.old.types bytes left fault))) }
    ensures same_types { plain.new.types ≡ plain.old.types }

    ensures rest { LeavesRest (S.state source.old).left (S.state source.new).left }
    ensures same_name { (S.state source.new).name ≡ (S.state source.old).name }
    ensures faults { MatchResult result
        (λ _. (S.state source.new).faults ≡ (S.state source.old).faults)
        (λ fault. CountsFault name.now fault
        (S.state source.old).faults (S.state source.new).faults) }
{
    let mut buffer = [0u8; MOST_READ];
    loop {
        let Ok(count) = source.read(&mut buffer) else {
            return Err(Fault::Read(name));
        };
        if count == 0 {
            return take_end(reader, plain);
        }
        take_piece(&buffer[..count], reader, plain)?;
    }
}

/// Takes the next piece of the text, and the events of the batches that it closes.
fn take_piece<'a>(piece: &[u8], reader: &mut Reader<'_>, plain: &mut Plain) -> Result<(), Fault<'a>>
    requires fed { (fed : List ℕ) × HasTakenFrom HasRead reader.old fed plain.old.journal }
    requires types { reader.old.types ≡ plain.old.types }

    ensures ok { OnOk result ((fed : List ℕ) → HasTakenFrom HasRead reader.old fed plain.old.journal
        → HasTakenFrom HasRead reader.new (fed ++ piece.now) plain.new.journal) }
    ensures going { OnOk result (reader.new.refusal ≡ None) }
    ensures none_waits { OnOk result (reader.new.waiting ≡ []) }

    // Whatever follows.
    ensures err { IfErr result (λ fault. (fed more : List ℕ)
        → HasTakenFrom HasRead reader.old fed plain.old.journal
        → ShowsFault plain.old.types (fed ++ piece.now ++ more) fault) }
    ensures no_count { IfErr result (λ fault. (name : List ℕ) (count : ℕ)
        → CountsFault name fault count count) }
    ensures same_types { plain.new.types ≡ plain.old.types }
    ensures its_types { reader.new.types ≡ reader.old.types }
{
    let fed = reader.feed(piece);
    offer_waiting(reader, plain)?;
    match fed {
        Ok(()) => Ok(()),
        Err(error) => Err(Fault::of_line(error)),
    }
}

/// Takes the end of the text, and the events of the batches that wait then.
fn take_end<'a>(reader: &mut Reader<'_>, plain: &mut Plain) -> Result<(), Fault<'a>>
    requires fed { (fed : List ℕ) × HasTakenFrom HasRead reader.old fed plain.old.journal }
    requires types { reader.old.types ≡ plain.old.types }

    ensures ok { OnOk result ((fed : List ℕ) → HasTakenFrom HasRead reader.old fed plain.old.journal
        → HasTakenAll plain.old.types fed plain.new.journal) }
    ensures err { IfErr result (λ fault. (fed : List ℕ)
        → HasTakenFrom HasRead reader.old fed plain.old.journal
        → ShowsFault plain.old.types fed fault) }
    ensures no_count { IfErr result (λ fault. (name : List ℕ) (count : ℕ)
        → CountsFault name fault count count) }
    ensures same_types { plain.new.types ≡ plain.old.types }
{
    let ended = reader.end();
    offer_waiting(reader, plain)?;
    match ended {
        Ok(()) => Ok(()),
        Err(error) => Err(Fault::of_line(error)),
    }
}

/// Offers the events of all batches that wait.
fn offer_waiting<'a>(reader: &mut Reader<'_>, plain: &mut Plain) -> Result<(), Fault<'a>>
    requires fed { (fed : List ℕ) × (HasTakenFrom HasRead reader.old fed plain.old.journal
        ⊎ HasTakenFrom HasReadToEnd reader.old fed plain.old.journal) }
    requires types { reader.old.types ≡ plain.old.types }

    ensures none_waits { OnOk result (reader.new ≡ record reader.old { waiting = [] }) }
    ensures going_on { OnOk result ((fed : List ℕ)
        → HasTakenFrom HasRead reader.old fed plain.old.journal
        → HasTakenFrom HasRead reader.new fed plain.new.journal) }
    ensures at_end { OnOk result ((fed : List ℕ)
        → HasTakenFrom HasReadToEnd reader.old fed plain.old.journal
        → HasTakenFrom HasReadToEnd reader.new fed plain.new.journal) }

    // Full for an event of these batches: so many ids, whatever follows.
    ensures err { IfErr result (λ fault. (fault ≡ Fault.Memory) ⊎ ((fault ≡ Fault.Full)
        × ((fed more : List ℕ) → HasTakenFrom HasRead reader.old fed plain.old.journal
        → HasManyIds plain.old.types (fed ++ more))
        × ((fed : List ℕ) → HasTakenFrom HasReadToEnd reader.old fed plain.old.journal
        → HasManyIds plain.old.types fed))) }
    ensures same_types { plain.new.types ≡ plain.old.types }
    ensures its_types { reader.new.types ≡ reader.old.types }
{
    while let Some(batch) = reader.take_batch() {
        offer_all(plain, batch)?;
    }
    Ok(())
}

/// Offers the events of a batch in turn, and passes over repeats and clashes.
fn offer_all<'a>(plain: &mut Plain, batch: Batch) -> Result<(), Fault<'a>>
    requires { AllByRecursion (IsFit plain.old.types) batch }
    ensures types { plain.new.types ≡ plain.old.types }
    ensures taken { OnOk result ((events : List Event)
        → HasTaken plain.old.types events plain.old.journal
        → HasTaken plain.old.types (events ++ batch) plain.new.journal) }
    ensures err { IfErr result (λ fault. (fault ≡ Fault.Memory) ⊎ ((fault ≡ Fault.Full)
        × ((events others : List Event) → HasTaken plain.old.types events plain.old.journal
        → MOST_PLAIN_EVENTS < count_of_ids (events ++ (batch ++ others))))) }
{
    for event in batch.into_vec() {
        offer(plain, event)?;
    }
    Ok(())
}

/// Offers one event, and passes over a repeat and a clash.
pub fn offer<'a>(plain: &mut Plain, event: Event) -> Result<(), Fault<'a>>
    requires { IsFit plain.old.types event }
    ensures types { plain.new.types ≡ plain.old.types }
    ensures taken { OnOk result ((events : List Event)
        → HasTaken plain.old.types events plain.old.journal
        → HasTaken plain.old.types (events ++ event ∷ []) plain.new.journal) }
    ensures err { IfErr result (λ fault. (fault ≡ Fault.Memory) ⊎ ((fault ≡ Fault.Full)
        × ((events others : List Event) → HasTaken plain.old.types events plain.old.journal
        → MOST_PLAIN_EVENTS < count_of_ids (events ++ event ∷ others)))) }
{
    match plain.offer(event) {
        Ok(()) => Ok(()),
        Err(Refusal::Repeat) => Ok(()),
        Err(Refusal::Clash) => Ok(()),
        Err(Refusal::Full) => Err(Fault::Full),
        Err(Refusal::Oom) => Err(Fault::Memory),
    }
}
