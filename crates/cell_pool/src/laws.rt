//! Laws of the list of distinct subtrees: functions of no parameters, whose contracts speak of the definitions alone.
ghost use Rattle.std.specs.Prelude.{◌≡◌, ℕ, Some, slice_get, true};
ghost use Rattle.cell_nodes.specs.declared.tree.Tree.{Tree};
ghost use Rattle.cell_pool.specs.Post.{same, post, IsSubtree};

/// The list of distinct subtrees has each subtree, has nothing else, and has none twice.
pub fn each_subtree_once()
    ensures each { (t u : Tree) → IsSubtree u t → (i : ℕ) × (slice_get (post t) i ≡ Some u) }
    ensures only { (t u : Tree) (i : ℕ) → slice_get (post t) i ≡ Some u → IsSubtree u t }
    ensures once { (t u : Tree) (i j : ℕ) → slice_get (post t) i ≡ Some u → slice_get (post t) j ≡ Some u → i ≡ j }
{}

/// The test for equal trees is equality.
pub fn same_is_equality()
    ensures equal { (t u : Tree) → same t u ≡ true → t ≡ u }
    ensures itself { (t : Tree) → same t t ≡ true }
{}
