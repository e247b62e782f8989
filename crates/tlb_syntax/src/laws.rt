//! Laws of the limits: functions of no parameters, whose contracts speak of the definitions alone.
ghost use Rattle.std.specs.Prelude.{ℕ, List};
ghost use Rattle.tlb_lexer.specs.Tokenization.{Tokenizes};
ghost use Rattle.tlb_lexer.specs.declared.Token.{Token};
ghost use Rattle.tlb_syntax.specs.Grammar.{Declarations};
ghost use Rattle.tlb_syntax.specs.Lexeme.{Lexeme, lexemes};
ghost use Rattle.tlb_syntax.specs.Limits.{AreOfText, IsWithinLimits, IsWordWithinLimits};
ghost use Rattle.tlb_syntax.specs.Tree.{ExprView, SchemaView};
ghost use Rattle.tlb_syntax.specs.Written.{WithinCounts, Writes, WritesWord, standard};

/// Lexemes of tokens write only schemas within the limits, where the counts of constructors are kept.
pub fn productions_keep_limits()
    ensures { (ls : List Lexeme) (s : SchemaView) → Declarations standard ls s → AreOfText ls → WithinCounts s
        → IsWithinLimits s }
{}

/// The tokens of a text are such lexemes.
pub fn tokens_give_lexemes()
    ensures { (text : List ℕ) (tokens : List Token) → Tokenizes text tokens → AreOfText (lexemes text tokens) }
{}

/// The expression that a text writes as a type word is within the limits.
pub fn word_within_limits()
    ensures { (text : List ℕ) (e : ExprView) → WritesWord text e → IsWordWithinLimits e }
{}

/// A schema that a text writes is within the limits.
pub fn written_within_limits()
    ensures { (text : List ℕ) (s : SchemaView) → Writes text s → IsWithinLimits s }
{}
