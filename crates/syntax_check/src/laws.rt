//! Laws of refusals: functions of no parameters, whose contracts speak of the definitions alone.
ghost use Rattle.tlb_syntax.specs.Written.{SchemaRefusal, WordRefusal};
ghost use Rattle.std.specs.Prelude.{List};
ghost use Rattle.tlb_syntax.specs.Lexeme.{Lexeme};
ghost use Rattle.syntax_check.specs.Verdict.{OneFirst, SchemaOneAnswer, SchemaSomeAnswer, WordOneAnswer};
ghost use Rattle.syntax_check.specs.Verdict.{WordSomeAnswer};

/// Lexemes that write a schema within the limits have no refusal, and a first refusal is one.
pub fn one_answer()
    ensures schema { SchemaOneAnswer }
    ensures word { WordOneAnswer }
    ensures schema_first { (ls : List Lexeme) → OneFirst (SchemaRefusal ls) }
    ensures word_first { (ls : List Lexeme) → OneFirst (WordRefusal ls) }
{}

/// Lexemes write a schema within the limits, or have a first refusal; and likewise a type word.
pub fn some_answer()
    ensures schema { SchemaSomeAnswer }
    ensures word { WordSomeAnswer }
{}
