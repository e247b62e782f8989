//! The widths of basic types.
ghost use Rattle.std.specs.Prelude.{◌≡◌};
ghost use Rattle.closed_type.specs.View.{closed_type as type_view};
ghost use Rattle.spelling.specs.Goals as goals;

use closed_type::ClosedType;

/// Whether the width of the type is in the table of basic types, for a dictionary that of its keys.
pub fn in_table(t: &ClosedType) -> bool
    ensures { result ≡ goals.in_table (type_view t.now) }
{
    match t {
        ClosedType::Bits(n) => *n <= 32,
        ClosedType::Uint(n) => *n <= 256,
        ClosedType::Int(n) => *n <= 257,
        ClosedType::BitStr(n) => *n <= 1023,
        ClosedType::Dict(n, _) | ClosedType::DictE(n, _) => *n <= 1023,
        ClosedType::Named(_, _)
        | ClosedType::Nat32
        | ClosedType::Below(_)
        | ClosedType::UpTo(_)
        | ClosedType::Ref(_)
        | ClosedType::Repeat(_, _)
        | ClosedType::Whole => true,
    }
}
