//! A pool of cells.
use crate::cells::over;
use cell_nodes::Kind;
use cell_pool::Pool;

// A cell over two equal leaves has two nodes, the leaf's first.
#[test]
fn equal_leaves_have_one_number(rt: HostRuntime) {
    let leaf = over(&rt, rt.alloc(), &[]);
    let twin = over(&rt, rt.alloc(), &[]);
    let root = over(&rt, rt.alloc(), &[leaf, twin]);
    let mut pool = Pool::new(rt.alloc()).expect(&rt, "memory");
    assert!(rt; root.unfolded() <= 262_144 && pool.count() == 0);
    let id = pool.intern(&root).expect(&rt, "memory");
    assert!(rt; pool.count() == 2 && id.number() == 1);
    let node = pool.get(id);
    assert!(rt; node.kind() == Kind::Ordinary && node.mask() == 0 && node.bits().len() == 0);
    let children = node.children();
    assert!(rt; children.len() == 2 && children[0].number() == 0 && children[1].number() == 0);
    let order = pool.order(rt.alloc(), id).expect(&rt, "memory");
    assert!(rt; order.len() == 2 && order[0] == id && order[1].number() == 0);
}
