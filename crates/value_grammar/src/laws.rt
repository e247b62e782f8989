//! Laws of the texts of values: functions of no parameters, whose contracts speak of the definitions alone.
ghost use Rattle.std.specs.Prelude.{◌≡◌, ◌⊎◌, ℕ, List};
ghost use Rattle.typed_value.specs.Values.{Plain};
ghost use Rattle.value_text.specs.Writes.{TextWrites};
ghost use Rattle.value_grammar.specs.declared.cause.Cause.{Cause};
ghost use Rattle.value_grammar.specs.Reading.{Finishes, Stops};
ghost use Rattle.value_grammar.specs.Refused.{TextRefused};

/// A whole value to which the steps lead at the end of a text is one that the text writes.
pub fn finished_is_written()
    ensures { (file : List ℕ) (v : Plain) → Finishes file v → TextWrites file v }
{}

/// Where the steps stop, the text has its first refusal.
pub fn stop_is_refusal()
    ensures { (file : List ℕ) (cause : Cause) (byte : ℕ) → Stops file cause byte → TextRefused file cause byte }
{}

/// Where a text has its first refusal, the steps stop with it.
pub fn refused_is_stopped()
    ensures { (file : List ℕ) (cause : Cause) (byte : ℕ) → TextRefused file cause byte → Stops file cause byte }
{}

/// The steps lead through a text that writes a value to that value.
pub fn written_is_finished()
    ensures { (file : List ℕ) (v : Plain) → TextWrites file v → Finishes file v }
{}

/// A text writes at most one value.
pub fn at_most_one_value()
    ensures { (file : List ℕ) (v w : Plain) → TextWrites file v → TextWrites file w → v ≡ w }
{}

/// A text has at most one first refusal.
pub fn at_most_one_refusal()
    ensures { (file : List ℕ) (cause other : Cause) (byte further : ℕ) → TextRefused file cause byte
        → TextRefused file other further → (cause ≡ other) × (byte ≡ further) }
{}

/// A text that has a refusal writes no value.
pub fn refused_writes_none()
    ensures { (file : List ℕ) (v : Plain) (cause : Cause) (byte : ℕ) → TextWrites file v
        → TextRefused file cause byte → ⊥ }
{}

/// Each text writes a value or has a refusal.
pub fn value_or_refusal()
    ensures { (file : List ℕ) → ((v : Plain) × TextWrites file v)
        ⊎ ((cause : Cause) × (byte : ℕ) × TextRefused file cause byte) }
{}

/// The steps don't both lead through a text to a value and stop in it.
pub fn finish_or_stop()
    ensures { (file : List ℕ) (v : Plain) (cause : Cause) (byte : ℕ) → Finishes file v → Stops file cause byte → ⊥ }
{}
