//! Laws of outcomes: functions of no parameters, whose contracts speak of the definitions alone.
ghost use Rattle.command_laws.specs.Laws.{BuildThenRead, ProveThenView, ReadThenBuild, TidyAgain, TidyFits, TidyIsStrict};

use accepted_building::laws::accepted_is_buildable;
use bag_cells::laws::{held_is_good, held_is_small};
use bag_lines::laws::line_holds;
use building_laws::laws::tree_is_built;
use cli_stages::laws::{each_stage_answers_once, gives_accepted};
use proof_laws::laws::laid_is_read;
use reading_texts::laws::reading_is_writable;
use strict_laws::laws::{lax_has_one_tree, lax_in_range, strict_stays};
use type_word::laws::named_is_closed;

/// What `build` puts is read as the value that the text writes.
pub fn build_then_read()
    ensures { BuildThenRead }
{
    line_holds();
}

/// What `read` puts of a bag of bytes is built to the tree that the bag holds.
pub fn read_then_build()
    ensures { ReadThenBuild }
{
    held_is_good();
    held_is_small();
    each_stage_answers_once();
    named_is_closed();
    reading_is_writable();
}

/// Each value that `tidy` reads in a bag of bytes fits a tree; what is put is that of the one tree in its shortest
/// form; and what was put stays.
pub fn tidy_is_strict()
    ensures fits { TidyFits }
    ensures strict { TidyIsStrict }
    ensures again { TidyAgain }
{
    held_is_good();
    held_is_small();
    line_holds();
    each_stage_answers_once();
    gives_accepted();
    accepted_is_buildable();
    lax_has_one_tree();
    lax_in_range();
    tree_is_built();
    strict_stays();
}

/// What `prove` puts is viewed with the hash of the bag's tree, and as its value with just the references unknown that
/// no path keeps.
pub fn prove_then_view()
    ensures { ProveThenView }
{
    held_is_good();
    line_holds();
    each_stage_answers_once();
    gives_accepted();
    laid_is_read();
    accepted_pruning::laws::prove_then_view();
}
