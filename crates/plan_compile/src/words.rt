//! Names of types.
ghost use Rattle.std.specs.Prelude.{◌≡◌, IfOk, IfSome, map};
ghost use Rattle.tlb_syntax.specs.Lexeme.{decimal_onto};
ghost use Rattle.tlb_syntax.specs.View.{constructor as constructor_view};
ghost use Rattle.kind_terms.specs.Words.{family_word, width_in};
ghost use Rattle.schema_core.specs.Names.{type_called, width_or_0};
ghost use Rattle.plan_compile.specs.Views.{type_name_by};

use bit_slice::Name;
use kind_terms::{Family, TermKind, Types, WordClass, word_class};
use sqlite_items::Items;
use tlb_memory::NoMemory;

/// What a name may be as a type.
#[derive(Clone, Copy)]
pub enum TypeName<'t> {
    NoType,
    TypeWord,
    /// `Any` and `Cell`.
    Anything,
    /// `uint`, `int` and `bits`, with their width as an argument.
    Family(Family),
    /// The same with their width in the name.
    FamilyOf(Family, u32),
    Hashmap,
    HashmapE,
    /// A declared type, with the kinds of its parameters.
    Declared(&'t Items<TermKind>),
}

fn word_of(family: Family) -> &'static [u8]
    ensures { result.now ≡ family_word family }
{
    match family {
        Family::Uint => b"uint",
        Family::Int => b"int",
        Family::Bits => b"bits",
    }
}

// The number of these digits, unless it is beyond the type's.
fn decimal(digits: &[u8]) -> Option<u32>
    ensures { IfSome result (λ n. decimal_onto 0 digits.now ≡ n) }
{
    let mut number: u32 = 0;
    for digit in digits {
        let value = u32::from(digit.saturating_sub(b'0'));
        number = number.checked_mul(10)?.checked_add(value)?;
    }
    Some(number)
}

// The width after the word of a family. In an accepted schema it is at most 1023.
fn width(family: Family, name: &[u8]) -> Result<u32, NoMemory>
    ensures { IfOk result (λ n. width_or_0 (width_in family name.now) ≡ n) }
{
    let word = word_of(family);
    if !family.has_width(name) || name.len() < word.len() {
        return Ok(0);
    }
    decimal(&name[word.len()..]).ok_or(NoMemory)
}

/// What a name is as a type.
pub fn type_name<'t>(types: &'t Types<'_>, name: &Name) -> Result<TypeName<'t>, NoMemory>
    ensures { IfOk result (λ t. type_name_by t ≡ type_called (map constructor_view types.now) name.now) }
{
    match word_class(name.text()) {
        WordClass::TypeWord => Ok(TypeName::TypeWord),
        WordClass::Any | WordClass::Cell => Ok(TypeName::Anything),
        WordClass::Sized(family) => Ok(TypeName::Family(family)),
        WordClass::Numbered(family) => {
            let width = width(family, name.text())?;
            Ok(TypeName::FamilyOf(family, width))
        }
        WordClass::Hashmap => Ok(TypeName::Hashmap),
        WordClass::HashmapE => Ok(TypeName::HashmapE),
        WordClass::HashmapNode => Ok(TypeName::NoType),
        WordClass::Free => match types.declared(name.text()) {
            None => Ok(TypeName::NoType),
            Some(found) => Ok(TypeName::Declared(&found.kinds)),
        },
    }
}
