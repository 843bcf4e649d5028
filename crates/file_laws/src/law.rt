ghost use Rattle.std.specs.Prelude.{◌≡◌, ℕ, Bool, List};
ghost use Rattle.causal_base.specs.Types.{TypeTable};
ghost use Rattle.causal_base.specs.TypeTables.{IsTypeTable};
ghost use Rattle.client_session.specs.declared.command.Command.{Command};
ghost use Rattle.client_session.specs.declared.script_error.ScriptError.{ScriptError};
ghost use Rattle.client_session.specs.Scripts.{IsRefused, IsScript};
ghost use Rattle.target_desc.specs.declared.target_error.TargetError.{TargetError};
ghost use Rattle.target_desc.specs.Reading.{IsReadAs, IsRefusedWith};
ghost use Rattle.target_desc.specs.Target.{TargetState};

/// A file is one target, or it is none for one reason: no bytes are read as a target and refused,
/// they are read as one target, and they are refused with one error.
pub fn target_is_read_in_one_way()
    ensures one_target { (bytes : List ℕ) (target other : TargetState)
        → IsReadAs bytes target → IsReadAs bytes other → target ≡ other }
    ensures not_both { (bytes : List ℕ) (target : TargetState) (error : TargetError)
        → IsReadAs bytes target → IsRefusedWith bytes error → ⊥ }
    ensures one_fault { (bytes : List ℕ) (error other : TargetError)
        → IsRefusedWith bytes error → IsRefusedWith bytes other → error ≡ other }
{}

/// A file is one script, or it is none for one reason: no bytes are a script and refused, they are
/// the lines of one list of commands, and they are refused at one line for one cause.
///
/// It is so for a table of types, which has at most 256 traces: a trace of 10^18 or more would have
/// events whose ids are spelled as no id is.
pub fn script_is_read_in_one_way()
    ensures one_script { (types : TypeTable) → IsTypeTable types
        → (closing : Bool) (bytes : List ℕ) (commands others : List Command)
        → IsScript types closing bytes commands → IsScript types closing bytes others
        → commands ≡ others }
    ensures not_both { (types : TypeTable) → IsTypeTable types
        → (closing : Bool) (bytes : List ℕ) (commands : List Command) (error : ScriptError)
        → IsScript types closing bytes commands → IsRefused types closing bytes error → ⊥ }
    ensures one_fault { (types : TypeTable) → IsTypeTable types
        → (closing : Bool) (bytes : List ℕ) (error other : ScriptError)
        → IsRefused types closing bytes error → IsRefused types closing bytes other
        → error ≡ other }
{}
