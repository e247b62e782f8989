//! Names of fields, types and constructors.
ghost use Rattle.std.specs.Prelude.{◌≡◌, ◌↔◌, IsTrue, IfOk};
ghost use Rattle.std.specs.List.{list_all};
ghost use Rattle.std.specs.Char.{is_ascii_digit};
ghost use Rattle.bit_slice.specs.Names.{IsName, is_name_byte, is_count};

use std::alloc::Global;
use std::marker::Model;
use tlb_memory::NoMemory;

/// A name: a letter and then letters, digits and `_`; or `_` alone; or `_` and a number
/// without leading zero.
#[derive(Debug, Drop)]
pub struct Name {
    text: Vec<u8>,
}

impl Model for Name {
    ghost use Rattle.std.specs.Prelude.{List, ℕ};
    ghost use Rattle.bit_slice.specs.Names.{IsName};

    ghost Value = { List ℕ };

    ghost view = { λ n. n.text.items };

    ghost invariant = { λ n. IsName n.text.items };
}

/// Whether each byte may stand in a name after a letter.
fn are_name_bytes(bytes: &[u8]) -> bool
    ensures { result ≡ list_all is_name_byte bytes.now }
{
    bytes
        .iter()
        .all(|byte| byte.is_ascii_alphanumeric() || *byte == b'_')
}

fn are_digits(bytes: &[u8]) -> bool
    ensures { result ≡ list_all is_ascii_digit bytes.now }
{
    bytes.iter().all(|byte| byte.is_ascii_digit())
}

/// Whether there are only digits, the first of which is not `0`.
#[tactic(auto, using(crate::proofs::NameLists::names))]
fn is_count(digits: &[u8]) -> bool
    ensures { result ≡ is_count digits.now }
{
    match digits {
        [] => true,
        [first, rest @ ..] => first.is_ascii_digit() && *first != b'0' && are_digits(rest),
    }
}

/// Whether the text is a name.
#[tactic(auto, using(crate::proofs::NameLists::names))]
pub fn is_name(text: &[u8]) -> bool
    ensures { IsTrue result ↔ IsName text.now }
{
    match text {
        [] => false,
        [b'_', digits @ ..] => is_count(digits),
        [first, rest @ ..] => first.is_ascii_alphabetic() && are_name_bytes(rest),
    }
}

impl PartialEq for Name {
    ghost use Rattle.std.specs.Prelude.{nat_eq};
    ghost use Rattle.std.specs.Cmp.Lexicographic.{pointwise};
    ghost use Rattle.std.specs.Cmp.{partial_equiv_from_equiv};
    ghost use Rattle.std.proofs.lemmas.Cmp.{nat_list_eq_equiv};

    ghost eq = { pointwise nat_eq };

    ghost laws = { partial_equiv_from_equiv nat_list_eq_equiv };

    fn eq(&self, other: &Name) -> bool {
        self.text() == other.text()
    }
}

impl Eq for Name {
    ghost use Rattle.std.proofs.lemmas.Cmp.{nat_list_eq_equiv};

    ghost laws = { nat_list_eq_equiv };
}

impl Name {
    /// Copies a name. `is_name` tells whether the text is one.
    pub fn new(alloc: Global, text: &[u8]) -> Result<Name, NoMemory>
        requires { IsName text.now }
        ensures { IfOk result (λ n. n ≡ text.now) }
    {
        let text = text.to_vec(alloc)?;
        Ok(Name { text })
    }

    /// The bytes of the name.
    pub fn text(&self) -> &[u8]
        ensures value { result.now ≡ self.now }
        ensures name { IsName result.now }
    {
        self.text.as_slice()
    }

    /// The same name once more.
    pub fn copy(&self, alloc: Global) -> Result<Name, NoMemory>
        ensures { IfOk result (λ n. n ≡ self.now) }
    {
        Name::new(alloc, self.text())
    }

    /// Whether both names have the same bytes.
    pub fn same(&self, other: &Name) -> bool
        ensures { IsTrue result ↔ (self.now ≡ other.now) }
    {
        self.text() == other.text()
    }
}
