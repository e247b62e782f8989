//! Names in scope, and literals.
ghost use Rattle.std.specs.Prelude.{◌≡◌, ◌≤◌, ◌++◌, ℕ, Bool, List, OnOk, length, map, take, unwrap_or};
ghost use Rattle.tlb_syntax.specs.View.{expr, exprs, item};
ghost use Rattle.kind_terms.specs.Scopes.{field_names};
ghost use Rattle.kind_terms.specs.Words.{is_at_least};
ghost use Rattle.tlb_guard.specs.Scoping.{IsScopePrefix, names};
ghost use Rattle.tlb_guard.specs.Empty.{literal as literal_of, literal_argument, may_be_empty_type};
ghost use Rattle.tlb_guard.specs.NameLaws.{is_variable as is_a_variable};

use bit_slice::Name;
use kind_terms::{WordClass, field_name, is_among, word_class};
use sqlite_items::Items;
use tlb_memory::NoMemory;
use tlb_syntax::{Expr, Item};

/// Whether a name stands alone and is in scope.
pub fn is_variable(scope: &[&Name], name: &Name, args: &[Expr]) -> bool
    ensures { result ≡ is_a_variable (names scope.now) name.now (exprs args.now) }
{
    args.is_empty() && is_among(scope, name)
}

// The number that is written out.
fn literal(e: &Expr) -> Option<u32>
    ensures { result ≡ literal_of (expr e.now) }
{
    match e {
        Expr::Lit(number) => Some(*number),
        Expr::Sum(_, _, _) => None,
        _ => None,
    }
}

/// Whether the first argument is a literal of at least that size.
pub fn is_at_least(least: u32, args: &[Expr]) -> bool
    ensures { result ≡ is_at_least least (literal_argument (exprs args.now)) }
{
    match args {
        [] => false,
        [first, ..] => match literal(first) {
            None => false,
            Some(number) => number >= least,
        },
    }
}

/// Whether a type of that name may take nothing, where its word is no free one.
pub fn may_built_in_be_empty(name: &Name, args: &[Expr]) -> Option<bool>
    ensures { (empty : List ℕ → Bool)
        → may_be_empty_type empty name.now (exprs args.now) ≡ unwrap_or result (empty name.now) }
{
    match word_class(name.text()) {
        WordClass::Any | WordClass::Cell => Some(true),
        WordClass::Sized(_) => Some(!is_at_least(1, args)),
        WordClass::Numbered(family) => Some(!family.has_some_width(name.text())),
        WordClass::Hashmap | WordClass::HashmapE => Some(false),
        WordClass::TypeWord | WordClass::HashmapNode => Some(false),
        WordClass::Free => None,
    }
}

/// Brings the name of an item into scope.
pub fn enter<'a>(scope: &mut Items<&'a Name>, i: &'a Item) -> Result<(), NoMemory>
    ensures names { OnOk result (names scope.new ≡ names scope.old ++ field_names (item i.now)) }
    ensures prefix { OnOk result (IsScopePrefix scope.old scope.new) }
{
    if let Some(name) = field_name(i) {
        scope.push(name)?;
    }
    Ok(())
}

/// Ends the scope of the names after the first `count`.
pub fn leave(scope: &mut Items<&Name>, count: usize)
    requires { count ≤ length scope.old }
    ensures { scope.new ≡ take count scope.old }
{
    while scope.len() > count {
        scope.pop();
    }
}
