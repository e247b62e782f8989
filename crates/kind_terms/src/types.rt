//! The types of a schema by their names.
ghost use Rattle.std.specs.Prelude.{◌≡◌, [], ◌∷◌, ◌++◌, map, option_map, IfOk, OnOk};
ghost use Rattle.tlb_syntax.specs.View.{constructor};
ghost use Rattle.tlb_syntax.specs.Tree.{SchemaView};
ghost use Rattle.kind_terms.specs.Dictionaries.{of_type};
ghost use Rattle.kind_terms.specs.Types.{basic as is_basic_with, declared as is_declared_with};
ghost use Rattle.kind_terms.specs.Types.{family_kinds as kinds_of_family, first_kinds};
ghost use Rattle.kind_terms.specs.Types.{no_type as is_no_type, parameters as parameters_of, type_named};
ghost use Rattle.kind_terms.specs.Views.{constructors_by, kinds_by, named_by};
ghost use Rattle.kind_terms.specs.TypeIndex.{IsTypeIndex};

use crate::kind::{TermKind, kinds};
use crate::words::{Family, WordClass, word_class};
use sqlite_items::Items;
use std::alloc::{AllocError, Global};
use std::collections::HashMap;
use std::marker::Model;
use tlb_syntax::Constructor;

const OF_UINT: &[TermKind] = &[TermKind::NumberIn(256)];

const OF_INT: &[TermKind] = &[TermKind::NumberIn(257)];

const OF_BITS: &[TermKind] = &[TermKind::NumberIn(1023)];

const OF_DICTIONARY: &[TermKind] = &[TermKind::NumberIn(1023), TermKind::TypeIn];

const OF_NOTHING: &[TermKind] = &[];

/// The declarations of a type so far, and the kinds of the parameters, which the first of them fixes.
#[derive(Drop)]
pub struct Declared<'a> {
    pub kinds: Items<TermKind>,
    pub constructors: Items<&'a Constructor>,
}

/// What sort of type a name is.
#[derive(Clone, Copy, Debug, PartialEq, Eq)]
pub enum Sort {
    NoType,
    /// A basic type: other arguments than its parameters are a mismatch of kinds.
    Basic,
    /// A declared type or a dictionary: other arguments than its parameters are a fault of arity.
    Declared,
}

/// What a name is as a type, with its parameters.
#[derive(Clone, Copy)]
pub struct TypeNamed<'t> {
    pub sort: Sort,
    pub kinds: &'t [TermKind],
}

impl<'t> TypeNamed<'t> {
    /// The kinds of its parameters; what is no type has none.
    pub fn parameters(self) -> &'t [TermKind]
        ensures { result.now ≡ parameters_of (named_by self.entry) }
    {
        match self.sort {
            Sort::NoType => OF_NOTHING,
            Sort::Basic => self.kinds,
            Sort::Declared => self.kinds,
        }
    }
}

fn basic_type(kinds: &[TermKind]) -> TypeNamed<'_>
    ensures { named_by result ≡ is_basic_with kinds.now }
{
    TypeNamed {
        sort: Sort::Basic,
        kinds,
    }
}

fn declared_type(kinds: &[TermKind]) -> TypeNamed<'_>
    ensures { named_by result ≡ is_declared_with kinds.now }
{
    TypeNamed {
        sort: Sort::Declared,
        kinds,
    }
}

/// A name that is no type.
pub fn no_type<'t>() -> TypeNamed<'t>
    ensures { named_by result ≡ is_no_type }
{
    TypeNamed {
        sort: Sort::NoType,
        kinds: OF_NOTHING,
    }
}

// The parameters of a family of basic types.
fn family_kinds<'t>(family: Family) -> &'t [TermKind]
    ensures { result.now ≡ kinds_of_family family }
{
    match family {
        Family::Uint => OF_UINT,
        Family::Int => OF_INT,
        Family::Bits => OF_BITS,
    }
}

/// The types that the declarations seen so far declare. Contracts see it as these declarations, in order.
#[derive(Drop)]
pub struct Types<'a> {
    constructors: Items<&'a Constructor>,
    by_name: HashMap<&'a [u8], Declared<'a>>,
}

impl<'a> Model for Types<'a> {
    ghost use Rattle.std.specs.Prelude.{List, map};
    ghost use Rattle.std.specs.Coded.{codes, coded_list};
    ghost use Rattle.tlb_syntax.specs.declared.tree.Constructor.{Constructor};
    ghost use Rattle.tlb_syntax.specs.contracts.tree.Constructor as e;
    ghost use Rattle.tlb_syntax.specs.View.{constructor};
    ghost use Rattle.kind_terms.specs.TypeIndex.{IsTypeIndex};

    ghost Value = { List Constructor };

    ghost coded = { coded_list (Prim.hlevel (codes, e.the_row.coded)) };

    ghost view = { λ t. map (λ c. c.now) t.constructors };

    ghost invariant = { λ t. IsTypeIndex t.by_name (map constructor (map (λ c. c.now) t.constructors)) };
}

// The first declaration of its type.
fn first_declared<'a>(
    alloc: Global,
    by_name: &mut HashMap<&'a [u8], Declared<'a>>,
    added: &'a Constructor,
) -> Result<(), AllocError>
    ensures { OnOk result
        ((s : SchemaView) → of_type s added.now.result ≡ [] → IsTypeIndex by_name.old s
        → IsTypeIndex by_name.new (s ++ constructor added.now ∷ [])) }
{
    let kinds = kinds(alloc, added)?;
    let mut constructors = Items::new(alloc);
    constructors.push(added)?;
    let declared = Declared {
        kinds,
        constructors,
    };
    by_name.insert(added.result.text(), declared)?;
    Ok(())
}

fn add_to<'a>(
    alloc: Global,
    by_name: &mut HashMap<&'a [u8], Declared<'a>>,
    added: &'a Constructor,
) -> Result<(), AllocError>
    ensures { OnOk result
        ((s : SchemaView) → IsTypeIndex by_name.old s → IsTypeIndex by_name.new (s ++ constructor added.now ∷ [])) }
{
    match by_name.get_mut(added.result.text()) {
        None => first_declared(alloc, by_name, added),
        Some(declared) => declared.constructors.push(added),
    }
}

impl<'a> Types<'a> {
    pub fn new(alloc: Global) -> Types<'a>
        ensures { result ≡ [] }
    {
        Types {
            constructors: Items::new(alloc),
            by_name: HashMap::new(alloc),
        }
    }

    /// The types of a whole schema.
    pub fn of(alloc: Global, constructors: &'a [Constructor]) -> Result<Types<'a>, AllocError>
        ensures { IfOk result (λ types. types ≡ constructors.now) }
    {
        let mut types = Types::new(alloc);
        for constructor in constructors {
            types = types.with(alloc, constructor)?;
        }
        Ok(types)
    }

    /// The declarations of a type.
    pub fn declared(&self, name: &[u8]) -> Option<&Declared<'a>>
        ensures constructors { constructors_by result ≡ of_type (map constructor self.now) name.now }
        ensures kinds { kinds_by result ≡ first_kinds (of_type (map constructor self.now) name.now) }
    {
        self.by_name.get(name)
    }

    /// One more declaration.
    pub fn with(self, alloc: Global, added: &'a Constructor) -> Result<Types<'a>, AllocError>
        ensures { IfOk result (λ types. types ≡ self.entry ++ added.now ∷ []) }
    {
        let Types {
            mut constructors,
            mut by_name,
        } = self;
        constructors.push(added)?;
        add_to(alloc, &mut by_name, added)?;
        Ok(Types {
            constructors,
            by_name,
        })
    }

    /// What a name is as a type, with arguments or without.
    #[tactic(auto, unfolding(crate::specs::Types::type_named))]
    pub fn named(&self, name: &[u8], has_arguments: bool) -> TypeNamed<'_>
        ensures { named_by result ≡ type_named (map constructor self.now) name.now has_arguments }
    {
        match word_class(name) {
            WordClass::TypeWord => {
                if has_arguments {
                    basic_type(OF_NOTHING)
                } else {
                    no_type()
                }
            }
            WordClass::Any | WordClass::Cell | WordClass::Numbered(_) => basic_type(OF_NOTHING),
            WordClass::Sized(family) => basic_type(family_kinds(family)),
            WordClass::Hashmap | WordClass::HashmapE => declared_type(OF_DICTIONARY),
            WordClass::HashmapNode => no_type(),
            WordClass::Free => match self.declared(name) {
                None => no_type(),
                Some(found) => declared_type(found.kinds.as_slice()),
            },
        }
    }
}
