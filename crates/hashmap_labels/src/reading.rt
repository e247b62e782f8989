//! Reads a label.
ghost use Rattle.std.specs.Prelude.{◌≡◌, ◌≢◌, ◌-◌, ◌≤◌, ℕ, ◌↔◌, List, length, drop, IfOk, nat_lt, if◌then◌else◌, take, Ok, Err};
ghost use Rattle.hashmap_labels.specs.Labels.{IsLabel, EndsEarly, IsTooLong, HasOtherForm, required_form};
ghost use Rattle.hashmap_labels.specs.Reading.{read_any, read_bits, read_label, first_bits, may_have};
ghost use Rattle.hashmap_labels.specs.Views.{FindsAny, Gives, Reads, bits_of};

use crate::forms::{Forms, LabelForm, choose, form_for, length_width};
use crate::heads::{Head, read_head};
use crate::labels::{Label, LabelBits, LabelError};
use bit_slice::BitSlice;

/// A label in any form, and what follows it.
#[derive(Drop)]
struct Found<'a> {
    form: LabelForm,
    bits: LabelBits<'a>,
    rest: BitSlice<'a>,
}

/// The first `count` bits as the label.
fn first_bits<'a>(form: LabelForm, count: u32, rest: BitSlice<'a>) -> Result<Found<'a>, LabelError>
    ensures { FindsAny result (first_bits form count rest.entry) }
{
    match rest.take(count) {
        None => Err(LabelError::LabelShort),
        Some((bits, rest)) => Ok(Found {
            form,
            bits: LabelBits::Part(bits),
            rest,
        }),
    }
}

/// The bits of a label whose form and length were read.
fn read_bits(head: Head<'_>) -> Result<Found<'_>, LabelError>
    ensures { FindsAny result (read_bits head.entry.form head.entry.repeated head.entry.len head.entry.rest) }
{
    match head.form {
        LabelForm::Same => Ok(Found {
            form: LabelForm::Same,
            bits: LabelBits::Same(head.repeated, head.len),
            rest: head.rest,
        }),
        LabelForm::Short => first_bits(LabelForm::Short, head.len, head.rest),
        LabelForm::Long => first_bits(LabelForm::Long, head.len, head.rest),
    }
}

/// A label of at most `n` bits in any form.
fn read_any<'a>(s: BitSlice<'a>, n: u32) -> Result<Found<'a>, LabelError>
    ensures { FindsAny result (read_any n s.entry) }
{
    let Some(head) = read_head(s, length_width(n)) else {
        return Err(LabelError::LabelShort);
    };
    if head.len > n {
        return Err(LabelError::LabelLong);
    }
    read_bits(head)
}

/// The form that a label's bits must have.
#[tactic(auto, using(crate::proofs::BitScans::replicated))]
fn required_form(bits: &LabelBits<'_>, n: u32) -> LabelForm
    requires within { length (bits_of bits.now) ≤ n }
    requires short { n ≤ 1023 }
    ensures { result ≡ required_form n (bits_of bits.now) }
{
    match bits {
        LabelBits::Part(bits) => choose(bits.again(), n),
        LabelBits::Same(_, count) => form_for(*count, true, n),
    }
}

/// Whether a label that was found may have its form.
fn may_have(found: &Found<'_>, n: u32, forms: Forms) -> bool
    requires within { length (bits_of found.now.bits) ≤ n }
    requires short { n ≤ 1023 }
    ensures { result ≡ may_have forms n (bits_of found.now.bits) found.now.form }
{
    match forms {
        Forms::Every => true,
        Forms::Required => found.form == required_form(&found.bits, n),
    }
}

/// A label of at most `n` bits in one of the forms that it may have.
#[tactic(auto, using(crate::specs::ReadingLaws::found_laws))]
fn read_in<'a>(s: BitSlice<'a>, n: u32, forms: Forms) -> Result<Label<'a>, LabelError>
    requires { n ≤ 1023 }
    ensures read { Reads result s.entry (read_label forms n s.entry) }
    ensures within { IfOk result (λ label. label.taken ≤ length s.entry) }
{
    let len = s.len();
    let found = read_any(s, n)?;
    if !may_have(&found, n, forms) {
        return Err(LabelError::LabelForm);
    }
    let taken = len - found.rest.len();
    Ok(Label {
        bits: found.bits,
        taken,
    })
}

/// Reads a label of at most `n` bits in its required form, which the bits begin with.
pub fn read_label<'a>(s: BitSlice<'a>, n: u32) -> Result<Label<'a>, LabelError>
    requires { n ≤ 1023 }
    ensures label { (bits rest : List ℕ) → Gives result s.entry bits rest ↔ IsLabel Forms.Required n bits s.entry rest }
    ensures within { IfOk result (λ label. label.taken ≤ length s.entry) }
    ensures short { (result ≡ Err LabelError.LabelShort) ↔ EndsEarly n s.entry }
    ensures long { (result ≡ Err LabelError.LabelLong) ↔ IsTooLong n s.entry }
    ensures form { (result ≡ Err LabelError.LabelForm) ↔ HasOtherForm n s.entry }
{
    read_in(s, n, Forms::Required)
}

/// Reads a label of at most `n` bits in any of the three forms, which the bits begin with.
pub fn read_label_any<'a>(s: BitSlice<'a>, n: u32) -> Result<Label<'a>, LabelError>
    requires { n ≤ 1023 }
    ensures label { (bits rest : List ℕ) → Gives result s.entry bits rest ↔ IsLabel Forms.Every n bits s.entry rest }
    ensures within { IfOk result (λ label. label.taken ≤ length s.entry) }
    ensures short { (result ≡ Err LabelError.LabelShort) ↔ EndsEarly n s.entry }
    ensures long { (result ≡ Err LabelError.LabelLong) ↔ IsTooLong n s.entry }
    ensures form { result ≢ Err LabelError.LabelForm }
{
    read_in(s, n, Forms::Every)
}
