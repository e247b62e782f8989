//! What follows from the definitions alone. Each function states one law; its body is empty.
ghost use Rattle.hashmap_labels.specs.Laws.{HasSize, HasSpelling, IsShortest, KeepsBits, LabelOrRefusal, OneLabel, OneSpelling};

/// The bits of a label have one spelling in the required form.
pub fn one_spelling()
    ensures { OneSpelling }
{}

/// Each list of at most n bits has a spelling in the required form.
pub fn has_spelling()
    ensures { HasSpelling }
{}

/// Bits begin with one label at most.
pub fn one_label()
    ensures { OneLabel }
{}

/// Bits begin with a label in its required form, or there is a reason why not.
pub fn label_or_refusal()
    ensures { LabelOrRefusal }
{}

/// A label takes as many bits as its form's size says.
pub fn has_size()
    ensures { HasSize }
{}

/// The required form is the first of the shortest.
pub fn is_shortest()
    ensures { IsShortest }
{}

/// Labels of bits are bits.
pub fn keeps_bits()
    ensures { KeepsBits }
{}
