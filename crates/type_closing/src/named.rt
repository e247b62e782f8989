//! What a name is as a type.
ghost use Rattle.std.specs.Prelude.{◌≡◌};
ghost use Rattle.kind_terms.specs.Types.{basic as is_basic_with, declared as is_declared_with};
ghost use Rattle.kind_terms.specs.Types.{family_kinds as kinds_of_family, no_type as is_no_type};
ghost use Rattle.kind_terms.specs.Views.{named_by};
ghost use Rattle.type_index.specs.Index.{kinds_at};
ghost use Rattle.type_closing.specs.Faults.{type_called};

use kind_terms::{Family, Sort, TermKind, TypeNamed, WordClass, no_type, word_class};
use type_index::TypeIndex;

const OF_UINT: &[TermKind] = &[TermKind::NumberIn(256)];

const OF_INT: &[TermKind] = &[TermKind::NumberIn(257)];

const OF_BITS: &[TermKind] = &[TermKind::NumberIn(1023)];

const OF_DICTIONARY: &[TermKind] = &[TermKind::NumberIn(1023), TermKind::TypeIn];

const OF_NOTHING: &[TermKind] = &[];

fn basic_type(kinds: &[TermKind]) -> TypeNamed<'_>
    ensures { named_by result ≡ is_basic_with kinds.now }
{
    TypeNamed {
        sort: Sort::Basic,
        kinds,
    }
}

fn declared_type(kinds: &[TermKind]) -> TypeNamed<'_>
    ensures { named_by result ≡ is_declared_with kinds.now }
{
    TypeNamed {
        sort: Sort::Declared,
        kinds,
    }
}

fn family_kinds<'t>(family: Family) -> &'t [TermKind]
    ensures { result.now ≡ kinds_of_family family }
{
    match family {
        Family::Uint => OF_UINT,
        Family::Int => OF_INT,
        Family::Bits => OF_BITS,
    }
}

/// What a name is as a type, in a type word. `Type` is none.
pub fn type_called<'t>(types: &'t TypeIndex, name: &[u8]) -> TypeNamed<'t>
    ensures { named_by result ≡ type_called (kinds_at types.now) name.now }
{
    match word_class(name) {
        WordClass::TypeWord | WordClass::HashmapNode => no_type(),
        WordClass::Any | WordClass::Cell | WordClass::Numbered(_) => basic_type(OF_NOTHING),
        WordClass::Sized(family) => basic_type(family_kinds(family)),
        WordClass::Hashmap | WordClass::HashmapE => declared_type(OF_DICTIONARY),
        WordClass::Free => match types.find(name) {
            None => no_type(),
            Some(found) => declared_type(found.kinds.as_slice()),
        },
    }
}
