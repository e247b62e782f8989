//! Laws of the commands: functions of no parameters, whose contracts speak of the definitions alone.
ghost use Rattle.cli_commands.specs.Check.{ChecksAccepted};
ghost use Rattle.cli_commands.specs.Laws.{EachCommandAnswersOnce};

use cli_stages::laws::{each_stage_answers_once, gives_accepted};

/// Each command comes to exactly one answer for words and the bytes of files.
pub fn each_command_answers_once()
    ensures { EachCommandAnswersOnce }
{
    each_stage_answers_once();
}

/// `check` puts counts exactly where the text writes an accepted schema, and they are its own.
pub fn check_is_accepted()
    ensures { ChecksAccepted }
{
    gives_accepted();
}
