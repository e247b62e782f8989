//! Laws of the stages: functions of no parameters, whose contracts speak of the definitions alone.
ghost use Rattle.cli_stages.specs.Schema.{GivesAccepted};
ghost use Rattle.cli_stages.specs.Stages.{Stages};

use accepted_building::laws::accepted_is_buildable;
use accepted_pruning::laws::one_prove_answer;
use accepted_schema::laws::{accepted_has_no_refusal, accepted_or_refused, accepted_stays};
use accepted_spelling::laws::read_or_stuck;
use building_laws::laws::{no_tree_where_unfit, one_place, one_tree, tree_or_place};
use proof_laws::laws::laid_is_read;
use tlb_grammar::laws::{at_most_one_answer, written_or_refused};
use tlb_kinds::laws::{kept_stays_within, kinded_stays, passed_over};
use tlb_syntax::laws::written_within_limits;
use type_word::laws::one_answer;
use value_grammar::laws::{
    at_most_one_refusal, at_most_one_value, refused_writes_none, value_or_refusal,
};
use value_text::laws::{at_least_one_path, at_most_one_path};

/// Each stage refuses or gives something, once, and a word writes at most one path.
pub fn each_stage_answers_once()
    ensures { Stages }
{
    at_most_one_answer();
    written_or_refused();
    written_within_limits();
    kept_stays_within();
    kinded_stays();
    passed_over();
    accepted_or_refused();
    accepted_has_no_refusal();
    accepted_stays();
    one_answer();
    bag_cells::laws::at_most_one();
    bag_cells::laws::at_least_one();
    read_or_stuck();
    at_most_one_value();
    at_most_one_refusal();
    refused_writes_none();
    value_or_refusal();
    accepted_is_buildable();
    one_tree();
    one_place();
    no_tree_where_unfit();
    tree_or_place();
    at_most_one_path();
    at_least_one_path();
    one_prove_answer();
    laid_is_read();
}

/// The stage of a schema gives it exactly where the text writes it and it is accepted.
pub fn gives_accepted()
    ensures { GivesAccepted }
{
    written_within_limits();
    kept_stays_within();
    kinded_stays();
    passed_over();
    accepted_or_refused();
    accepted_has_no_refusal();
    accepted_stays();
}
