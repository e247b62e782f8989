//! The types of a schema by numbers: a type's number is the place of its first constructor.
ghost use Rattle.std.specs.Prelude.{◌≡◌, ℕ, ◌*◌, List, IfOk, OnOk, bytes_eq, length, slice_get, if◌then◌else◌};
ghost use Rattle.std.specs.HashMap.{get_by};
ghost use Rattle.std.specs.Option.{option_or};
ghost use Rattle.tlb_syntax.specs.View.{constructor as constructor_view};
ghost use Rattle.kind_terms.specs.Params.{kinds};
ghost use Rattle.tlb_guard.specs.DeclaredTypes.{has_empty_tag, is_type_kind, is_type_parameter};
ghost use Rattle.tlb_guard.specs.Numbering.{number_of, parameter_at, place_of, views, width as width_of};

use bit_slice::Name;
use kind_terms::{TermKind, WordClass, kind_of, word_class};
use sqlite_items::at;
use std::alloc::{AllocError, Global};
use std::collections::HashMap;
use std::marker::Model;
use tlb_memory::NoMemory;
use tlb_syntax::{Constructor, Tag};

/// The types that constructors declare. Contracts see it as these constructors.
#[derive(Drop)]
pub struct Types<'a> {
    constructors: &'a [Constructor],
    first: HashMap<&'a [u8], usize>,
    /// The number of parameters that a result has at most.
    width: usize,
}

impl<'a> Model for Types<'a> {
    ghost use Rattle.std.specs.Prelude.{List};
    ghost use Rattle.std.specs.Coded.{codes, coded_list};
    ghost use Rattle.tlb_syntax.specs.declared.tree.Constructor.{Constructor};
    ghost use Rattle.tlb_syntax.specs.contracts.tree.Constructor as e;

    ghost Value = { List Constructor };

    ghost coded = { coded_list (Prim.hlevel (codes, e.the_row.coded)) };

    ghost use Rattle.tlb_guard.specs.Numbers.{AreNumbers};

    ghost view = { λ t. t.constructors.now };

    ghost invariant = { AreNumbers };
}

fn greatest_width(constructors: &[Constructor]) -> usize
    ensures { result ≡ width_of (views constructors.now) }
{
    let mut width = 0;
    for constructor in constructors {
        if constructor.params.len() > width {
            width = constructor.params.len();
        }
    }
    width
}

// Adds the word's number, unless it has one.
fn add_first<'a>(
    first: &mut HashMap<&'a [u8], usize>,
    word: &'a [u8],
    number: usize,
) -> Result<(), AllocError>
    ensures { OnOk result ((x : List ℕ) → get_by (λ k. bytes_eq x k.now) first.new ≡ option_or (get_by (λ k. bytes_eq x k.now) first.old) (if bytes_eq word.now x then Some number else None)) }
{
    if first.contains_key(word) {
        return Ok(());
    }
    first.insert(word, number)?;
    Ok(())
}

impl<'a> Types<'a> {
    pub fn new(alloc: Global, constructors: &'a [Constructor]) -> Result<Types<'a>, NoMemory>
        ensures { IfOk result (λ types. types ≡ constructors.now) }
    {
        let mut first = HashMap::new(alloc);
        for (number, constructor) in constructors.iter().enumerate() {
            add_first(&mut first, constructor.result.text(), number)?;
        }
        Ok(Types {
            constructors,
            first,
            width: greatest_width(constructors),
        })
    }

    pub fn constructors(&self) -> &'a [Constructor]
        ensures { result.now ≡ self.now }
    {
        self.constructors
    }

    /// The place of the first constructor of the type.
    pub fn place(&self, name: &Name) -> Option<usize>
        ensures { result ≡ place_of (views self.now) name.now }
    {
        self.first.get(name.text()).copied()
    }

    /// The number of a declared type, by its name where that is a free one.
    pub fn number(&self, name: &Name) -> Option<usize>
        ensures { result ≡ number_of (views self.now) name.now }
    {
        match word_class(name.text()) {
            WordClass::Free => self.place(name),
            WordClass::TypeWord
            | WordClass::Any
            | WordClass::Cell
            | WordClass::Sized(_)
            | WordClass::Numbered(_)
            | WordClass::Hashmap
            | WordClass::HashmapE
            | WordClass::HashmapNode => None,
        }
    }

    /// The number of parameters, where each type has as many as any.
    pub fn parameter_count(&self) -> Result<usize, NoMemory>
        ensures { IfOk result (λ n. n ≡ length self.now * width_of (views self.now)) }
    {
        self.constructors
            .len()
            .checked_mul(self.width)
            .ok_or(NoMemory)
    }

    /// The number of a type's parameter, unless no type has one at that place. A number that is too large counts as out of memory.
    pub fn parameter(&self, of: usize, place: usize) -> Result<Option<usize>, NoMemory>
        ensures { IfOk result (λ n. n ≡ parameter_at (width_of (views self.now)) place (Some of)) }
    {
        if place < self.width {
            let before = of.checked_mul(self.width).ok_or(NoMemory)?;
            Ok(Some(before.checked_add(place).ok_or(NoMemory)?))
        } else {
            Ok(None)
        }
    }

    /// Whether the type's parameter at that place is a type, by its first constructor.
    pub fn is_type_parameter(&self, of: usize, place: usize) -> bool
        ensures { (x : List ℕ) → place_of (views self.now) x ≡ Some of → result ≡ is_type_parameter (views self.now) (record { of = x; place = place }) }
    {
        match at(self.constructors, of) {
            None => false,
            Some(constructor) => is_input_type(constructor, place),
        }
    }
}

// Whether the parameter at that place is a type.
fn is_input_type(constructor: &Constructor, place: usize) -> bool
    ensures { result ≡ is_type_kind (slice_get (kinds (constructor_view constructor.now)) place) }
{
    match constructor.params.get(place) {
        None => false,
        Some(e) => TermKind::TypeIn.is_same(kind_of(constructor.items.as_slice(), e)),
    }
}

/// A constructor called `_` without a tag has the empty tag.
pub fn has_empty_tag(constructor: &Constructor) -> bool
    ensures { result ≡ has_empty_tag (constructor_view constructor.now) }
{
    match &constructor.tag {
        Tag::Computed => constructor.name.is_none(),
        Tag::Given(bits) => bits.slice().len() == 0,
    }
}
