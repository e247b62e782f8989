//! Names that the schema language has for itself.
ghost use Rattle.std.specs.Prelude.{◌≡◌, is_some, nat_lt};
ghost use Rattle.std.specs.List.{list_all, list_any};
ghost use Rattle.std.specs.Char.{is_ascii_digit};
ghost use Rattle.tlb_syntax.specs.Lexeme.{decimal_onto};
ghost use Rattle.kind_terms.specs.Classes.{is_built_in as is_built_in_name, is_dictionary as is_dictionary_name};
ghost use Rattle.kind_terms.specs.Classes.{dictionary_class as class_of_dictionary, numbered_class as class_of_numbered};
ghost use Rattle.kind_terms.specs.Classes.{word_class as class_of_word};
ghost use Rattle.kind_terms.specs.Closed.{exceeds as is_past, is_wide_in as is_wide_of};
ghost use Rattle.kind_terms.specs.Words.{families, family_word, is_at_least, is_plain_number as is_plain, number_after};
ghost use Rattle.kind_terms.specs.Words.{widest as widest_of, width_in};

fn are_digits(bytes: &[u8]) -> bool
    ensures { result ≡ list_all is_ascii_digit bytes.now }
{
    bytes.iter().all(|byte| byte.is_ascii_digit())
}

// A decimal number without leading zeros.
#[tactic(auto, using(crate::proofs::PlainNumbers::is_plain_number_of_more))]
fn is_plain_number(digits: &[u8]) -> bool
    ensures { result ≡ is_plain digits.now }
{
    match digits {
        [] => false,
        [digit] => digit.is_ascii_digit(),
        [first, rest @ ..] => first.is_ascii_digit() && *first != b'0' && are_digits(rest),
    }
}

// Whether the name is the word and then such a number.
fn is_numbered(word: &[u8], name: &[u8]) -> bool
    ensures { result ≡ is_some (number_after word.now name.now) }
{
    name.starts_with(word) && is_plain_number(&name[word.len()..])
}

// Whether the decimal number is greater.
#[tactic(auto, using(crate::proofs::PlainNumbers::onto_grows))]
fn exceeds(digits: &[u8], most: u32) -> bool
    ensures { result ≡ nat_lt most (decimal_onto 0 digits.now) }
{
    let mut number: u64 = 0;
    for digit in digits {
        number = 10 * number + u64::from(digit.saturating_sub(b'0'));
        if number > u64::from(most) {
            return true;
        }
    }
    false
}

fn is_wide_in(word: &[u8], most: u32, name: &[u8]) -> bool
    ensures { result ≡ is_past most (number_after word.now name.now) }
{
    name.starts_with(word)
        && is_plain_number(&name[word.len()..])
        && exceeds(&name[word.len()..], most)
}

/// A word whose types have every width, up to the greatest.
#[derive(Clone, Copy, Debug, PartialEq, Eq)]
pub enum Family {
    Uint,
    Int,
    Bits,
}

impl Family {
    fn word(self) -> &'static [u8]
        ensures { result.now ≡ family_word self }
    {
        match self {
            Family::Uint => b"uint",
            Family::Int => b"int",
            Family::Bits => b"bits",
        }
    }

    /// The greatest width.
    pub fn widest(self) -> u32
        ensures { result ≡ widest_of self }
    {
        match self {
            Family::Uint => 256,
            Family::Int => 257,
            Family::Bits => 1023,
        }
    }

    /// Whether the name is the word and then a width.
    pub fn has_width(self, name: &[u8]) -> bool
        ensures { result ≡ is_some (width_in self name.now) }
    {
        is_numbered(self.word(), name)
    }

    /// Whether the name is the word and then a width that is greater.
    pub fn is_wider(self, most: u32, name: &[u8]) -> bool
        ensures { result ≡ is_past most (width_in self name.now) }
    {
        is_wide_in(self.word(), most, name)
    }

    /// Whether the name is the word and then a width that is greater than the greatest.
    pub fn is_too_wide(self, name: &[u8]) -> bool
        ensures { result ≡ is_wide_of name.now self }
    {
        self.is_wider(self.widest(), name)
    }

    /// Whether the name is the word and then a width of at least 1.
    pub fn has_some_width(self, name: &[u8]) -> bool
        ensures { result ≡ is_at_least 1 (width_in self name.now) }
    {
        self.is_wider(0, name)
    }
}

/// What a word is by itself, in any schema.
#[derive(Clone, Copy, Debug, PartialEq, Eq)]
pub enum WordClass {
    /// `Type`, which is no type.
    TypeWord,
    Any,
    Cell,
    /// `uint`, `int` or `bits`, whose width is an argument.
    Sized(Family),
    /// Such a word and then its width, in decimal digits without leading zeros.
    Numbered(Family),
    Hashmap,
    HashmapE,
    /// `HashmapNode`, which is no type where it is used.
    HashmapNode,
    /// A word that a declared type may have.
    Free,
}

fn dictionary_class(name: &[u8]) -> WordClass
    ensures { result ≡ class_of_dictionary name.now }
{
    if name == b"Hashmap".as_slice() {
        WordClass::Hashmap
    } else if name == b"HashmapE".as_slice() {
        WordClass::HashmapE
    } else if name == b"HashmapNode".as_slice() {
        WordClass::HashmapNode
    } else {
        WordClass::Free
    }
}

// What a word is that is none of the six without a width.
fn numbered_class(name: &[u8]) -> WordClass
    ensures { result ≡ class_of_numbered name.now }
{
    if Family::Uint.has_width(name) {
        WordClass::Numbered(Family::Uint)
    } else if Family::Int.has_width(name) {
        WordClass::Numbered(Family::Int)
    } else if Family::Bits.has_width(name) {
        WordClass::Numbered(Family::Bits)
    } else {
        dictionary_class(name)
    }
}

/// What a word is by itself.
#[tactic(auto, unfolding(crate::specs::Classes::word_class))]
pub fn word_class(name: &[u8]) -> WordClass
    ensures { result ≡ class_of_word name.now }
{
    if name == b"Type".as_slice() {
        WordClass::TypeWord
    } else if name == b"Any".as_slice() {
        WordClass::Any
    } else if name == b"Cell".as_slice() {
        WordClass::Cell
    } else if name == b"uint".as_slice() {
        WordClass::Sized(Family::Uint)
    } else if name == b"int".as_slice() {
        WordClass::Sized(Family::Int)
    } else if name == b"bits".as_slice() {
        WordClass::Sized(Family::Bits)
    } else {
        numbered_class(name)
    }
}

/// Whether the width after the name of a family is beyond its greatest.
pub fn is_wide(name: &[u8]) -> bool
    ensures { result ≡ list_any (is_wide_of name.now) families }
{
    Family::Uint.is_too_wide(name)
        || Family::Int.is_too_wide(name)
        || Family::Bits.is_too_wide(name)
}

/// Type, Any, Cell, and the families without a width and with one.
pub fn is_built_in(name: &[u8]) -> bool
    ensures { result ≡ is_built_in_name name.now }
{
    match word_class(name) {
        WordClass::TypeWord
        | WordClass::Any
        | WordClass::Cell
        | WordClass::Sized(_)
        | WordClass::Numbered(_) => true,
        WordClass::Hashmap | WordClass::HashmapE | WordClass::HashmapNode | WordClass::Free =>
            false,
    }
}

/// Hashmap, HashmapNode and HashmapE.
pub fn is_dictionary(name: &[u8]) -> bool
    ensures { result ≡ is_dictionary_name name.now }
{
    matches!(
        word_class(name),
        WordClass::Hashmap | WordClass::HashmapE | WordClass::HashmapNode
    )
}
