//! Words for types, in the schema of a plan.
ghost use Rattle.std.specs.Prelude.{◌≤◌, IfOk, length};
ghost use Rattle.closed_type.specs.View.{closed_type as type_view};
ghost use Rattle.core_form.specs.Closed.{ClosedOf, nodes};
ghost use Rattle.schema_leads.specs.Tags.{cores};
ghost use Rattle.tlb_syntax.specs.View.{schema as schema_view};
ghost use Rattle.type_word.specs.InSchema.{kinds_of};
ghost use Rattle.type_word.specs.Resolving.{Answers};

use crate::plan::Plan;
use closed_type::ClosedType;
use std::alloc::Global;
use type_word::TypeError;
use type_word::laws::named_is_closed;

/// The closed type that a word of at most 1,048,576 bytes names in the schema of a plan, which has at most 4,096 nodes,
/// or the word's first refusal. Work grows with the word, and with the logarithm of the number of the schema's types for
/// each name in it.
pub fn resolve(alloc: Global, plan: &Plan, word: &str) -> Result<ClosedType, TypeError>
    requires { length word.now ≤ 1048576 }
    ensures answer { Answers (kinds_of (schema_view plan.now.0)) word.now result }
    ensures closed { IfOk result (λ t. ClosedOf (cores (schema_view plan.now.0)) (type_view t)) }
    ensures few { IfOk result (λ t. nodes (type_view t) ≤ 4096) }
{
    named_is_closed();
    type_word::resolve(alloc, plan.index(), word)
}
