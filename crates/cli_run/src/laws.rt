//! Laws of the outcome: functions of no parameters, whose contracts speak of the definitions alone.
ghost use Rattle.std.specs.Prelude.{◌≡◌, List};
ghost use Rattle.tlb_edge.specs.Files.{Files, Name};
ghost use Rattle.cli_refusals.specs.Refusal.{Verdict};
ghost use Rattle.cli_commands.specs.Forms.{HoldsAll, files_of, form_of};
ghost use Rattle.cli_run.specs.Outcome.{IsOutcome};

use cli_commands::laws::each_command_answers_once;

/// A command has one outcome at most over files that hold each file that it names.
pub fn at_most_one_outcome()
    ensures { (words : List Name) (held : Files) (v w : Verdict) → HoldsAll held (files_of (form_of words))
        → IsOutcome words held v → IsOutcome words held w → v ≡ w }
{
    each_command_answers_once();
}

/// A command has an outcome over files that hold each file that it names.
pub fn some_outcome()
    ensures { (words : List Name) (held : Files) → HoldsAll held (files_of (form_of words))
        → (v : Verdict) × IsOutcome words held v }
{
    each_command_answers_once();
}
