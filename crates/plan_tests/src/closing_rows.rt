//! Closed types of types of a plan, at the limit of nodes.
ghost use Rattle.std.specs.Prelude.{◌≡◌};
ghost use Rattle.flat_form.specs.Sound.{IsFlat};

use crate::texts::{plan, schema};
use closed_type::{ClosedArg, ClosedType, Name};
use flat_form::Flat;
use nat_solver::Env;
use plan_closing::{CloseError, close_type};
use plan_compile::compile_constructors;
use sqlite_items::Items;
use std::alloc::Global;
use std::process::Abort;

// Its types are, by their numbers: X, ^X, X, n * X, uint (n + 1). X has slot 0, and n has slot 1.
static TEXT: &str = "r$_ {X:Type} {n:#} x:^X y:(n * X) z:(uint (n + 1)) = R X n;";

// A type of that number of TEXT, the number n if it is set, how many nodes X has, and what comes.
static ROWS: [(u32, Option<u32>, u32, Result<(), CloseError>); 9] = [
    (1, None, 4095, Ok(())),
    (1, None, 4096, Err(CloseError::BigType)),
    (0, None, 4096, Ok(())),
    (3, Some(7), 4095, Ok(())),
    (3, Some(7), 4096, Err(CloseError::BigType)),
    (3, None, 1, Err(CloseError::Overflow)),
    (3, None, 4096, Err(CloseError::Overflow)),
    (4, Some(4_294_967_294), 1, Ok(())),
    (4, Some(4_294_967_295), 1, Err(CloseError::Overflow)),
];

// A type of that many nodes: a name and numbers.
fn of_nodes(rt: &impl Abort, alloc: Global, name: &Name, nodes: u32) -> ClosedType {
    let name = name.copy(alloc).expect(rt, "memory");
    let mut args = Items::new(alloc);
    for _node in 1..nodes {
        args.push(ClosedArg::Nat(0)).expect(rt, "memory");
    }
    ClosedType::Named(name, args)
}

fn flat(rt: &impl Abort, alloc: Global) -> Flat
    ensures { IsFlat result }
{
    let schema = schema(rt, alloc, TEXT);
    compile_constructors(alloc, schema.constructors.as_slice())
        .expect(rt, "memory")
        .flat
}

fn closes(
    rt: &impl Abort,
    alloc: Global,
    row: &(u32, Option<u32>, u32, Result<(), CloseError>),
) -> bool {
    let lists = flat(rt, alloc);
    let (ty, n, nodes, wanted) = row;
    assert!(rt; (*ty as usize) < lists.types.len());
    let mut env = Env::new(alloc, 2).expect(rt, "memory");
    if let Some(n) = n {
        env.set(1, *n);
    }
    let name = lists.names.get(0).expect(rt, "a field has a name");
    let types = [Some(of_nodes(rt, alloc, name, *nodes)), None];
    match (close_type(alloc, &lists, *ty, &env, &types), wanted) {
        (Ok(_), Ok(_)) => true,
        (Err(found), Err(wanted)) => found == *wanted,
        _ => false,
    }
}

#[test]
fn closed_types_have_at_most_4096_nodes(rt: HostRuntime) {
    for row in ROWS.iter() {
        assert!(rt; closes(&rt, rt.alloc(), row), "at {}", row.0);
    }
}

// Each turn doubles the argument of T.
static DOUBLED: &str =
    "both$_ {X:Type} {Y:Type} first:X second:Y = Both X Y; a$0 {X:Type} x:(T (Both X X)) = T X; b$1 {X:Type} = T X;";

// The number of its type `T (Both X X)`: X, Y, X, X and `Both X X` stand before it.
const DOUBLING: u32 = 5;

fn argument(rt: &impl Abort, alloc: Global, closed: ClosedType) -> ClosedType {
    let ClosedType::Named(_, args) = closed else {
        return ClosedType::Whole;
    };
    match args.get(0) {
        Some(ClosedArg::Ty(inner)) => inner.copy(alloc).expect(rt, "memory"),
        _ => ClosedType::Whole,
    }
}

#[test]
fn the_twelfth_type_that_doubles_is_too_large(rt: HostRuntime) {
    let plan = plan(&rt, rt.alloc(), DOUBLED);
    assert!(rt; (DOUBLING as usize) < plan.types().len());
    let env = Env::new(rt.alloc(), 1).expect(&rt, "memory");
    let mut x = ClosedType::Uint(8);
    for turn in 1..13u32 {
        match plan.close_type(rt.alloc(), DOUBLING, &env, &[Some(x)]) {
            Ok(closed) => x = argument(&rt, rt.alloc(), closed),
            Err(error) => {
                assert!(rt; turn == 12 && error == CloseError::BigType);
                return;
            }
        }
    }
    assert!(rt; false);
}
