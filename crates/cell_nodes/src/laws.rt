//! Laws of cells: functions of no parameters, whose contracts speak of the definitions alone.
ghost use Rattle.std.specs.Prelude.{◌≡◌, ◌%◌, ◌^◌, ◌<◌, ◌≤◌, ℕ};
ghost use Rattle.cell_nodes.specs.declared.tree.Tree.{Tree};
ghost use Rattle.cell_nodes.specs.Good.{IsGood};
ghost use Rattle.cell_nodes.specs.Prunes.{Prunes};
ghost use Rattle.cell_nodes.specs.Tree.{depth, hash, mask};

/// Pruning below i proofs keeps the hashes and depths at all levels up to i, and the lowest i bits of the mask.
pub fn pruning_keeps()
    ensures hash { (t p : Tree) (i : ℕ) → IsGood t → IsGood p → mask t < 2 ^ i → Prunes t p i
        → (l : ℕ) → l ≤ i → hash p l ≡ hash t l }
    ensures depth { (t p : Tree) (i : ℕ) → IsGood t → IsGood p → mask t < 2 ^ i → Prunes t p i
        → (l : ℕ) → l ≤ i → depth p l ≡ depth t l }
    ensures mask { (t p : Tree) (i : ℕ) → IsGood t → IsGood p → mask t < 2 ^ i → Prunes t p i
        → mask p % 2 ^ i ≡ mask t }
{}

/// Pruning below i proofs keeps a tree good.
pub fn pruning_keeps_good()
    ensures { (t p : Tree) (i : ℕ) → IsGood t → mask t < 2 ^ i → i ≤ 3 → Prunes t p i → IsGood p }
{}
