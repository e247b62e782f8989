//! Counts of nodes.
ghost use Rattle.std.specs.Prelude.{◌≡◌, ◌≤◌};
ghost use Rattle.core_form.specs.Closed.{arg_nodes, nodes};
ghost use Rattle.closed_type.specs.Nodes.{an_arg_nodes, more};
ghost use Rattle.closed_type.specs.View.{closed_arg, closed_args, closed_type};

use crate::tree::{ClosedArg, ClosedType};

/// The number of nodes that a closed type may have.
pub const MOST_NODES: u32 = 4096;

// A count and one more, up to one past the most.
fn one_more(count: u32) -> u32
    ensures { result ≡ more count 1 }
{
    count.saturating_add(1).min(MOST_NODES + 1)
}

impl ClosedType {
    /// A count and the nodes of this type, up to one past the most.
    pub fn counted(&self, count: u32) -> u32
        ensures { result ≡ more count (nodes (closed_type self.now)) }
    {
        count_type(self, count)
    }
}

#[cycle(count)]
fn count_type(t: &ClosedType, count: u32) -> u32
    ensures { result ≡ more count (nodes (closed_type t.now)) }
{
    let count = one_more(count);
    match t {
        ClosedType::Ref(inner)
        | ClosedType::Repeat(_, inner)
        | ClosedType::Dict(_, inner)
        | ClosedType::DictE(_, inner) => count_type(inner.get(), count),
        ClosedType::Named(_, args) => count_args(args.as_slice(), count),
        ClosedType::Nat32
        | ClosedType::Bits(_)
        | ClosedType::Below(_)
        | ClosedType::UpTo(_)
        | ClosedType::Uint(_)
        | ClosedType::Int(_)
        | ClosedType::BitStr(_)
        | ClosedType::Whole => count,
    }
}

#[cycle(count)]
fn count_args(args: &[ClosedArg], so_far: u32) -> u32
    requires { so_far ≤ 4097 }
    ensures { result ≡ more so_far (arg_nodes (closed_args args.now)) }
{
    let mut count = so_far;
    for arg in args {
        if count > MOST_NODES {
            return count;
        }
        count = count_arg(arg, count);
    }
    count
}

#[cycle(count)]
fn count_arg(arg: &ClosedArg, count: u32) -> u32
    requires { count ≤ 4097 }
    ensures { result ≡ more count (an_arg_nodes (closed_arg arg.now)) }
{
    match arg {
        ClosedArg::Nat(_) => one_more(count),
        ClosedArg::Ty(t) => count_type(t, count),
    }
}
