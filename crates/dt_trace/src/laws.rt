//! What whoever keeps a trace rests on. Each function has an empty body and is called for its contract
//! alone.
ghost use Rattle.std.specs.Prelude.{◌≡◌, List, Ok, ℕ};
ghost use Rattle.dt_text.specs.InputLines.{lines_of};
ghost use Rattle.dt_trace.specs.Inputs.{Input, trace_text};
ghost use Rattle.dt_trace.specs.Spelling.{SpellInputs};
ghost use Rattle.dt_trace.specs.Standing.{Stand, noted_all};
ghost use Rattle.dt_trace.specs.Traces.{Recorded, nothing, trace_of};

/// What is written of inputs that may stand as they do is read back as these inputs.
pub fn traces_are_read_back()
    ensures { (inputs : List Input) → Stand 1 nothing inputs → trace_of (trace_text inputs) ≡ Ok (noted_all nothing inputs) }
{}

/// A trace that is read spells its inputs: each of its lines is the words of one of them, up to the case
/// of hexadecimal digits, they may stand as they do, and they come to what is recorded.
pub fn traces_that_are_read_spell_their_inputs()
    ensures { (octets : List ℕ) (trace : Recorded) → trace_of octets ≡ Ok trace → SpellInputs 1 nothing (lines_of octets) trace }
{}
