//! Laws of words for types: functions of no parameters, whose contracts speak of the definitions alone.
ghost use Rattle.type_word.specs.Laws.{AtLeastOneAnswer, AtMostOneAnswer, NamedIsClosed, NoAnswerOfMemory};

use tlb_grammar::laws::{at_most_one_answer, written_or_refused};
use tlb_lexer::laws::at_most_one;
use tlb_syntax::laws::word_within_limits;

/// A word has exactly one answer: a closed type or a refusal. Out of memory is none.
pub fn one_answer()
    ensures at_most { AtMostOneAnswer }
    ensures at_least { AtLeastOneAnswer }
    ensures memory { NoAnswerOfMemory }
{
    at_most_one_answer();
    written_or_refused();
    at_most_one();
}

/// The closed type that a word names in a schema is one of the schema and has at most 4,096 nodes.
pub fn named_is_closed()
    ensures { NamedIsClosed }
{
    word_within_limits();
}
