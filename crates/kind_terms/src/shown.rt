//! How items are shown in a path.
ghost use Rattle.std.specs.Prelude.{◌≡◌};
ghost use Rattle.tlb_syntax.specs.View.{item as item_view};
ghost use Rattle.kind_terms.specs.Positions.{is_unnamed as is_unnamed_item, part_at};
ghost use Rattle.kind_terms.specs.Views.{part_by};

use bit_slice::Name;
use tlb_syntax::Item;

/// The shown part of a path.
#[derive(Clone, Copy)]
pub enum Shown<'a> {
    Named(&'a Name),
    /// The unnamed field that so many unnamed fields come before.
    Unnamed(u32),
    Check(u32),
    Result,
}

/// How an item at this place of its record is shown, where so many unnamed fields come before.
pub fn show_item(item: &Item, place: u32, unnamed: u32) -> Shown<'_>
    ensures { part_by result ≡ part_at place unnamed (item_view item.now) }
{
    match item {
        Item::Implicit(name, _) => Shown::Named(name),
        Item::Check(_, _, _) => Shown::Check(place),
        Item::Explicit(None, _) => Shown::Unnamed(unnamed),
        Item::Explicit(Some(name), _) => Shown::Named(name),
    }
}

/// Whether the item is a field without a name.
pub fn is_unnamed(item: &Item) -> bool
    ensures { result ≡ is_unnamed_item (item_view item.now) }
{
    matches!(item, Item::Explicit(None, _))
}
