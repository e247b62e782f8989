//! Laws of tokenizing: functions of no parameters, whose contracts speak of the definitions alone.
ghost use Rattle.std.specs.Prelude.{◌≡◌, ◌∷◌, ◌⊎◌, ℕ, List};
ghost use Rattle.tlb_lexer.specs.Tokenization.{Tokenizes, TokenRefusal, Longest, PlacedFrom};
ghost use Rattle.tlb_lexer.specs.Stretch.{class};
ghost use Rattle.tlb_lexer.specs.declared.Token.{Token};
ghost use Rattle.tlb_lexer.specs.declared.TokenKind.TheVariants as kinds;
ghost use Rattle.tlb_lexer.specs.declared.bytes.Class.TheVariants as classes;
ghost use Rattle.tlb_lexer.specs.declared.LexError.{LexError};

/// A text has at most one list of tokens, at most one refusal, and not both.
pub fn at_most_one()
    ensures tokenized { (text : List ℕ) (a b : List Token) → Tokenizes text a → Tokenizes text b → a ≡ b }
    ensures refusal { (text : List ℕ) (a b : LexError) → TokenRefusal text a → TokenRefusal text b → a ≡ b }
    ensures not_both { (text : List ℕ) (ts : List Token) (e : LexError) → Tokenizes text ts → TokenRefusal text e → ⊥ }
{}

/// A text has tokens or a refusal.
pub fn at_least_one()
    ensures { (text : List ℕ) → ((ts : List Token) × Tokenizes text ts) ⊎ ((e : LexError) × TokenRefusal text e) }
{}

/// The tokens of a text stand in order within it, and their bytes spell their kinds.
pub fn in_order()
    ensures { (text : List ℕ) (ts : List Token) → Tokenizes text ts → PlacedFrom text 0 ts }
{}

/// A symbol that begins no longer one is a token, whatever follows.
pub fn signs_stand_alone()
    ensures { (b : ℕ) (bs : List ℕ) → class b ≡ classes.Sign → Longest kinds.Symbol 1 (b ∷ bs) }
{}
