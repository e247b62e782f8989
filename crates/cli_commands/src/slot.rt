//! The slots of a command.
ghost use Rattle.std.specs.Prelude.{◌≡◌};
ghost use Rattle.cli_commands.specs.Slots.{count_more, count_of, is_formed, limit_of, root_hash as hash_of_word, takes, zero_alone};

use hex::FromHex;

/// What a word after the verb is.
#[derive(Clone, Copy, Debug, PartialEq, Eq)]
pub enum Slot {
    Schema,
    TypeWord,
    Bag,
    Text,
    RootHash,
    Path,
    Count,
}

const WORD_LIMIT: usize = 1_048_576;

impl Slot {
    /// The most bytes of the file that its word names, where it names one.
    pub fn limit(self) -> Option<u32>
        ensures { result ≡ limit_of self }
    {
        match self {
            Slot::Schema => Some(1_048_576),
            Slot::TypeWord => None,
            Slot::Bag | Slot::Text => Some(134_217_728),
            Slot::RootHash | Slot::Path | Slot::Count => None,
        }
    }

    /// Whether the word may stand in it.
    pub fn takes(self, word: &str) -> bool
        ensures { result ≡ takes self word.now }
    {
        word.len() <= WORD_LIMIT && self.is_formed(word)
    }

    fn is_formed(self, word: &str) -> bool
        ensures { result ≡ is_formed self word.now }
    {
        match self {
            Slot::RootHash => root_hash(word).is_some(),
            Slot::Count => count(word).is_some(),
            Slot::Schema | Slot::TypeWord | Slot::Bag | Slot::Text | Slot::Path => true,
        }
    }
}

/// The hash that a word of 64 hexadecimal digits writes.
pub fn root_hash(word: &str) -> Option<[u8; 32]>
    ensures { result ≡ hash_of_word word.now }
{
    match <[u8; 32]>::from_hex(word) {
        Ok(hash) => Some(hash),
        Err(_) => None,
    }
}

/// The number up to 10,000 that a word of decimal digits writes without leading zeros.
pub fn count(word: &str) -> Option<u32>
    ensures { result ≡ count_of word.now }
{
    let digits = word.as_bytes();
    let [first, others @ ..] = digits else {
        return None;
    };
    if *first == b'0' {
        return zero_alone(others);
    }
    count_of_digits(digits)
}

// 0 where no digit comes after it.
fn zero_alone(others: &[u8]) -> Option<u32>
    ensures { result ≡ zero_alone others.now }
{
    match others {
        [] => Some(0),
        _ => None,
    }
}

// The number that digits write.
fn count_of_digits(digits: &[u8]) -> Option<u32>
    ensures { result ≡ count_more 0 digits.now }
{
    let mut number = 0u32;
    'digits: for (_place, digit) in digits.iter().enumerate() {
        if !digit.is_ascii_digit() {
            return None;
        }
        number = 10 * number + u32::from(*digit - b'0');
        if number > 10_000 {
            return None;
        }
    }
    Some(number)
}
