//! What is read of a label, or why none is.
ghost use Rattle.std.specs.Prelude.{◌≡◌, ◌≤◌, ◌+◌, ◌<◌, ◌↔◌, ◌++◌, length, replicate, OnOk, OnErr};
ghost use Rattle.std.specs.Result.{IsErr};
ghost use Rattle.bit_slice.specs.Bits.{bit_number};
ghost use Rattle.hashmap_labels.specs.Views.{bits_of};

use bit_slice::{BitSlice, BitWriter, Full};

/// The bits of a label.
#[derive(Drop)]
pub enum LabelBits<'a> {
    /// They stand in the label.
    Part(BitSlice<'a>),
    /// One bit, so many times.
    Same(bool, u32),
}

/// A label at the beginning of bits.
#[derive(Drop)]
pub struct Label<'a> {
    pub bits: LabelBits<'a>,
    /// How many bits the label takes.
    pub taken: u32,
}

/// Why bits begin with no label.
#[derive(Clone, Copy, Debug, PartialEq, Eq)]
pub enum LabelError {
    /// They end before the form, the length or the label's bits are read.
    LabelShort,
    /// The length is above the greatest one.
    LabelLong,
    /// A label was read whose form is not the required one.
    LabelForm,
}

impl<'a> LabelBits<'a> {
    /// How many bits there are.
    #[tactic(auto, using(std::proofs::lemmas::Grind::common_steps, crate::proofs::BitScans::replicated))]
    pub fn len(&self) -> u32
        ensures { result ≡ length (bits_of self.now) }
    {
        match self {
            LabelBits::Part(bits) => bits.len(),
            LabelBits::Same(_, count) => *count,
        }
    }

    /// Adds the bits to what was written.
    pub fn push_onto(&self, writer: &mut BitWriter) -> Result<(), Full>
        ensures ok { OnOk result (writer.new ≡ writer.old ++ bits_of self.now) }
        ensures err { OnErr result (writer.new ≡ writer.old) }
        ensures full { IsErr result ↔ (1023 < length writer.old + length (bits_of self.now)) }
    {
        match self {
            LabelBits::Part(bits) => writer.push_bits(bits.again()),
            LabelBits::Same(bit, count) => push_copies(writer, *bit, *count),
        }
    }
}

/// Adds a bit `count` times.
#[tactic(auto, using(crate::proofs::BitScans::replicated))]
fn push_copies(writer: &mut BitWriter, bit: bool, count: u32) -> Result<(), Full>
    ensures ok { OnOk result (writer.new ≡ writer.old ++ replicate count (bit_number bit)) }
    ensures err { OnErr result (writer.new ≡ writer.old) }
    ensures full { IsErr result ↔ (1023 < length writer.old + length (replicate count (bit_number bit))) }
{
    if count > 1023 - writer.len() {
        return Err(Full);
    }
    'copies: for i in 0..count {
        writer.push_number(u128::from(bit), 1)?;
    }
    Ok(())
}
