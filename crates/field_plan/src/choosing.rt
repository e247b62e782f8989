//! Constructors of a type.
ghost use Rattle.std.specs.Prelude.{◌≡◌, ◌↔◌, ◌<◌, ℕ, IfSome, IsTrue, Some, is_some, length, map, slice_get};
ghost use Rattle.std.specs.Option.{option_copied};
ghost use Rattle.tlb_syntax.specs.View.{schema as schema_view};
ghost use Rattle.closed_type.specs.View.{closed_arg, closed_args};
ghost use Rattle.core_form.specs.Core.{Declaration, Word};
ghost use Rattle.core_form.specs.Fit.{meet_all};
ghost use Rattle.core_form.specs.Scope.{Scope};
ghost use Rattle.flat_form.specs.Stands.{input_of};
ghost use Rattle.schema_leads.specs.Leads.{begins as begins_bits, some_begins as some_lead_begins};
ghost use Rattle.schema_leads.specs.Tags.{cores};
ghost use Rattle.field_plan.specs.Choosing.{AreSmall, Enters, IsNamed, IsShownAt, IsSmall, input_meets};

use crate::plan::Plan;
use bit_slice::{BitSlice, BitString, Name};
use closed_type::ClosedArg;
use flat_form::PlanInput;
use nat_solver::pattern_fit;

// Whether the input meets the argument.
fn meets(input: &PlanInput, arg: &ClosedArg) -> bool
    ensures value { result ≡ input_meets (input_of input.now) (closed_arg arg.now) }
    ensures small { IsTrue result → IsSmall (closed_arg arg.now) }
{
    match (input, arg) {
        (PlanInput::Nat(pattern), ClosedArg::Nat(number)) => pattern_fit(
            pattern, *number,
        ).is_some(),
        (PlanInput::Ty(_), ClosedArg::Ty(_)) => true,
        (PlanInput::Nat(_), ClosedArg::Ty(_)) | (PlanInput::Ty(_), ClosedArg::Nat(_)) => false,
    }
}

/// Whether the inputs meet the arguments, one by one.
pub(crate) fn fits(inputs: &[PlanInput], args: &[ClosedArg]) -> bool
    ensures value { (scope : Scope)
        → result ≡ is_some (meet_all (map input_of inputs.now) (closed_args args.now) scope) }
    ensures small { IsTrue result → AreSmall (map closed_arg args.now) }
{
    if inputs.len() != args.len() {
        return false;
    }
    for (place, input) in inputs.iter().enumerate() {
        if !meets(input, &args[place]) {
            return false;
        }
    }
    true
}

// Whether the lead begins the bits.
fn begins(lead: &BitString, bits: &BitSlice<'_>) -> bool
    ensures { result ≡ begins_bits lead.now bits.now }
{
    bits.begins_with(lead.slice())
}

// Whether one of the leads begins the bits.
fn some_begins(leads: &[BitString], bits: &BitSlice<'_>) -> bool
    ensures { result ≡ some_lead_begins leads.now bits.now }
{
    leads.iter().any(|lead| begins(lead, bits))
}

impl Plan {
    /// The constructor that fits and of which a lead begins the bits that are left: of an accepted schema there is at most
    /// one. It goes through the constructors of the type, and compares the bits with the leads of those that fit.
    pub fn choose(&self, type_name: &Name, args: &[ClosedArg], prefix: BitSlice<'_>) -> Option<u32>
        ensures there { IfSome result (λ c. c < length (cores (schema_view self.now.0))) }
        ensures enters { (c : ℕ) (d : Declaration) → slice_get (cores (schema_view self.now.0)) c ≡ Some d
            → result ≡ Some c
            → Enters (cores (schema_view self.now.0)) type_name.now (closed_args args.now) prefix.entry d }
        ensures only { (c : ℕ) (d : Declaration) → slice_get (cores (schema_view self.now.0)) c ≡ Some d
            → Enters (cores (schema_view self.now.0)) type_name.now (closed_args args.now) prefix.entry d
            → result ≡ Some c }
    {
        for c in self.of_type(type_name) {
            if self.fits(*c, args) && some_begins(self.leads(*c), &prefix) {
                return Some(*c);
            }
        }
        None
    }

    /// The constructor that fits and is shown by this name: of an accepted schema there is at most one. It goes through the
    /// constructors of the type.
    pub fn named(&self, type_name: &Name, args: &[ClosedArg], shown: &Name) -> Option<u32>
        ensures there { IfSome result (λ c. c < length (cores (schema_view self.now.0))) }
        ensures named { (c : ℕ) (d : Declaration) → slice_get (cores (schema_view self.now.0)) c ≡ Some d
            → result ≡ Some c → IsNamed type_name.now (closed_args args.now) shown.now d }
        ensures only { (c : ℕ) (d : Declaration) → slice_get (cores (schema_view self.now.0)) c ≡ Some d
            → IsNamed type_name.now (closed_args args.now) shown.now d → result ≡ Some c }
    {
        for c in self.of_type(type_name) {
            if self.shown_name(*c).same(shown) && self.fits(*c, args) {
                return Some(*c);
            }
        }
        None
    }

    /// The shown name of the constructor at this place in its type, from 1: by one look-up of the type.
    pub fn shown(&self, type_name: &Name, number: u32) -> Option<&Name>
        ensures { (name : Word) → (option_copied result ≡ Some name)
            ↔ IsShownAt (cores (schema_view self.now.0)) type_name.now number name }
    {
        let place = number.checked_sub(1)?;
        let c = self.of_type(type_name).get(place as usize)?;
        Some(self.shown_name(*c))
    }
}
