//! Laws of bags: functions of no parameters, whose contracts speak of the definitions alone.
ghost use Rattle.std.specs.Prelude.{◌≡◌, ◌<◌, ◌≤◌, ◌^◌, ◌⊎◌, ℕ, List, Err, Some, None, ◌-◌, slice_get, length, reverse};
ghost use Rattle.cell_nodes.specs.declared.tree.Tree.{Tree};
ghost use Rattle.cell_nodes.specs.Good.{IsGood};
ghost use Rattle.cell_nodes.specs.Tree.{unfolded};
ghost use Rattle.bag_cells.specs.Form.{raw_of_hex, IsBadHex};
ghost use Rattle.bag_cells.specs.declared.error.BagError.TheVariants as refusals;
ghost use Rattle.bag_cells.specs.Bag.{BagHolds, BagRefused, refusal};
ghost use Rattle.bag_cells.specs.ByUnfolding.{IsFirstRefusal, IsAcceptedTree};
ghost use Rattle.bag_cells.specs.Numbers.{AreBytes};
ghost use Rattle.bag_cells.specs.Trees.{trees};
ghost use Rattle.cell_pool.specs.Post.{post};
ghost use Rattle.bag_cells.specs.Header.{cells, root};
ghost use Rattle.bag_cells.specs.Unfolds.{Unfolds};
ghost use Rattle.bag_cells.specs.Written.{width_of, bag_of};
ghost use Rattle.bag_cells.specs.declared.error.BagError.{BagError as Refusal};

/// A file holds at most one tree, has at most one refusal, and not both.
pub fn at_most_one()
    ensures tree { (file : List ℕ) (a b : Tree) → BagHolds file a → BagHolds file b → a ≡ b }
    ensures refusal { (file : List ℕ) (a b : Refusal) → BagRefused file a → BagRefused file b → a ≡ b }
    ensures not_both { (file : List ℕ) (t : Tree) (e : Refusal) → BagHolds file t → BagRefused file e → ⊥ }
{}

/// A file holds a tree or has a refusal.
pub fn at_least_one()
    ensures { (file : List ℕ) → ((t : Tree) × BagHolds file t) ⊎ ((e : Refusal) × BagRefused file e) }
{}

/// A hexadecimal text of an odd length is reported by its length, another by the place of its first byte that is no
/// digit.
pub fn bad_hex_place()
    ensures { (text : List ℕ) (place : ℕ) → raw_of_hex text ≡ Err (refusals.BadHex place) → IsBadHex text place }
{}

/// A number fits into its bytes, and into no fewer; it has at least one.
pub fn width_is_least()
    ensures some { (n : ℕ) → 1 ≤ width_of n }
    ensures fits { (n : ℕ) → n < 256 ^ width_of n }
    ensures least { (n w : ℕ) → 1 ≤ w → n < 256 ^ w → width_of n ≤ w }
{}

/// The bag that is written for a good tree of at most 262,144 cells holds that tree.
pub fn written_bag_holds()
    ensures { (t : Tree) → IsGood t → unfolded t ≤ 262144 → BagHolds (bag_of t) t }
{}

/// The bag that is written lists each distinct cell exactly once: it has as many cells as the tree has distinct
/// subtrees, and its cells unfold to them, the last one first.
pub fn each_cell_once()
    ensures count { (t : Tree) → IsGood t → unfolded t ≤ 262144 → cells (bag_of t) ≡ length (post t) }
    ensures cells { (t u : Tree) (i : ℕ) → IsGood t → unfolded t ≤ 262144 → slice_get (reverse (post t)) i ≡ Some u
        → Unfolds (bag_of t) i u }
{}

/// What a file holds unfolds to at most 262,144 cells.
pub fn held_is_small()
    ensures { (file : List ℕ) (t : Tree) → BagHolds file t → unfolded t ≤ 262144 }
{}

/// What a file of bytes holds is good.
pub fn held_is_good()
    ensures { (file : List ℕ) (t : Tree) → AreBytes file → BagHolds file t → IsGood t }
{}

/// A cell has at most one unfolding, and each cell of bytes that nothing refuses has one.
pub fn one_unfolding()
    ensures once { (raw : List ℕ) (i : ℕ) (a b : Tree) → Unfolds raw i a → Unfolds raw i b → a ≡ b }
    ensures some { (raw : List ℕ) (i : ℕ) → refusal raw ≡ None → i < cells raw → (t : Tree) × Unfolds raw i t }
{}

/// The refusal of raw bytes is the first row that holds, where the rows on kinds, masks, depths and size speak of the
/// unfolding of each cell by itself; and what nothing refuses is what no such row refuses.
pub fn refusals_by_unfolding()
    ensures first { (raw : List ℕ) (e : Refusal) → refusal raw ≡ Some e → IsFirstRefusal raw e }
    ensures reported { (raw : List ℕ) (e : Refusal) → IsFirstRefusal raw e → refusal raw ≡ Some e }
    ensures accepted { (raw : List ℕ) (t : Tree) → refusal raw ≡ None → Unfolds raw (root raw) t
        → IsAcceptedTree raw t }
    ensures held { (raw : List ℕ) (t : Tree) → IsAcceptedTree raw t → refusal raw ≡ None }
{}

/// The trees that the rows on kinds, masks, depths and size are computed from are the unfoldings of their cells, where
/// the bytes are accepted: the tree at place `p` of the list is that of the cell before the last `p` ones.
pub fn trees_are_unfoldings()
    ensures { (raw : List ℕ) (p : ℕ) (t : Tree) → refusal raw ≡ None → slice_get (trees raw (cells raw)) p ≡ Some t
        → Unfolds raw (cells raw - 1 - p) t }
{}
