ghost use Rattle.std.specs.Prelude.{◌≡◌, ◌≢◌, ◌⊎◌, ◌<◌, ◌≤◌, ℕ, length, Some, slice_get, IfOk, IfErr, OnOk, IfSome, IfNone};
ghost use Rattle.target_desc.specs.Drafts.{AreDistinct, MatesAgree, mate_refusals};
ghost use Rattle.target_desc.specs.Reading.{HasStray, IsReadAs, IsRefusedWith, IsTargetOf, refusals_of};
ghost use Rattle.causal_base.specs.Refusals.{ArePassed, IsFirst};
ghost use Rattle.toml.specs.View.{table_view};

use crate::draft::{Draft, drafts_of};
use crate::fields::array_under;
use crate::keys::has_stray;
use crate::limits::MOST_BYTES;
use crate::mates::check_mates;
use crate::rows::rows_of;
use crate::target_error::TargetError;
use crate::traces::trace_names;
use causal_base::{MOST_TYPES, Text, Types};
use std::alloc::Global;
use std::marker::Model;
use toml::Table;

/// What a target file names: the traces of a distributed program, and its types of events.
#[derive(Debug, Drop)]
pub struct Target {
    traces: Vec<Text>,
    types: Types,
}

impl Model for Target {
    ghost use Rattle.target_desc.specs.Target.{TargetState, AreTraceNames};

    ghost Value = { TargetState };

    ghost view = { λ t. record { traces = t.traces.items; types = t.types } };

    ghost invariant = { λ t. AreTraceNames t.traces.items t.types.traces };
}

impl Target {
    ghost use Rattle.target_desc.specs.Target.{AreTraceNames};

    /// The target that the bytes of a file say: trace number i is trace i of the file, and type
    /// number i is its entry i.
    ///
    /// Each refusal comes exactly where it is the first that applies, in the order of
    /// [`TargetError`]. `Oom` comes where memory runs out, at any place.
    pub fn read(alloc: Global, bytes: &[u8]) -> Result<Target, TargetError>
        ensures ok { IfOk result (IsReadAs bytes.now) }
        ensures err { IfErr result (λ error. (error ≡ TargetError.Oom)
            ⊎ IsRefusedWith bytes.now error) }
    {
        if bytes.len() > MOST_BYTES {
            return Err(TargetError::TooLong);
        }
        match toml::table_from_slice(alloc, bytes) {
            Ok(document) => target_of(alloc, &document),
            Err(error) if error.is_memory() => Err(TargetError::Oom),
            Err(_) => Err(TargetError::NotToml),
        }
    }

    /// The types of events, over so many traces as there are.
    pub fn types(&self) -> &Types
        ensures types { result.now ≡ self.now.types }
        ensures names { AreTraceNames self.now.traces self.now.types.traces }
    {
        &self.types
    }

    /// The name of the trace with this number.
    pub fn trace_name(&self, trace: u32) -> &[u8]
        requires { trace < self.now.types.traces }
        ensures { slice_get self.now.traces trace ≡ Some result.now }
    {
        self.traces[trace as usize].bytes()
    }

    /// The number of the trace with this name, or none where no trace has it.
    pub fn trace_of(&self, name: &[u8]) -> Option<u32>
        ensures named { IfSome result (λ trace. slice_get self.now.traces trace ≡ Some name.now) }
        ensures only { IfSome result (λ trace. (other : ℕ)
            → slice_get self.now.traces other ≡ Some name.now → other ≡ trace) }
        ensures none { IfNone result ((trace : ℕ)
            → slice_get self.now.traces trace ≢ Some name.now) }
    {
        for trace in 0..self.types.traces() {
            if self.trace_name(trace) == name {
                return Some(trace);
            }
        }
        None
    }
}

/// The target that a document says.
fn target_of(alloc: Global, document: &Table) -> Result<Target, TargetError>
    ensures good { OnOk result (ArePassed (refusals_of (table_view document.now))) }
    ensures says { IfOk result (IsTargetOf (table_view document.now)) }
    ensures err { IfErr result (λ error. (error ≡ TargetError.Oom)
        ⊎ IsFirst (refusals_of (table_view document.now)) error) }
{
    let traces = trace_names(alloc, array_under(document, "traces"))?;
    let drafts = drafts_of(alloc, array_under(document, "event"))?;
    check_mates_and_keys(document, &drafts)?;
    let Ok(rows) = rows_of(alloc, drafts) else {
        return Err(TargetError::Oom);
    };
    Ok(Target {
        types: Types::new(traces.len() as u32, rows),
        traces,
    })
}

/// Refuses the first entry whose mate is unknown or not mutual, and then a key that says nothing.
fn check_mates_and_keys(document: &Table, drafts: &[Draft]) -> Result<(), TargetError>
    requires few { length drafts.now ≤ MOST_TYPES }
    requires distinct { AreDistinct drafts.now }
    ensures mates { OnOk result (MatesAgree drafts.now) }
    ensures keys { OnOk result (HasStray (table_view document.now) → ⊥) }
    ensures err { IfErr result (λ error. IsFirst (mate_refusals drafts.now) error
        ⊎ (MatesAgree drafts.now × HasStray (table_view document.now)
        × (error ≡ TargetError.StrayKey))) }
{
    check_mates(drafts)?;
    if has_stray(document) {
        return Err(TargetError::StrayKey);
    }
    Ok(())
}
