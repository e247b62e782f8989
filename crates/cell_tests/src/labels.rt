//! Labels of a dictionary's edges. The rows are worked out by hand from the lines of HmLabel in block.tlb: a label of k
//! bits takes 2k + 2 bits in the short form, k + 2 and the width of n in the long one, and 3 and that width in the same
//! one. The form of the fewest bits is required, and of two such forms the one that stands first here.
use crate::bits::{bits, shows};
use bit_slice::BitWriter;
use hashmap_labels::{
    Label, LabelError, LabelForm, choose, length_width, read_label, read_label_any,
};
use std::alloc::Global;
use std::process::Abort;

// The most bits of a label, the width of such a length, the label's bits, and the form that is required.
static FORMS: [(u32, u32, &str, LabelForm); 10] = [
    (0, 0, "", LabelForm::Short),
    (1, 1, "C_", LabelForm::Short),
    (2, 2, "E_", LabelForm::Same),
    (2, 2, "6_", LabelForm::Short),
    (7, 3, "E_", LabelForm::Short),
    (7, 3, "F_", LabelForm::Same),
    (7, 3, "B_", LabelForm::Short),
    (7, 3, "A", LabelForm::Long),
    (1023, 10, "FF", LabelForm::Same),
    (1023, 10, "A5A", LabelForm::Long),
];

#[test]
fn the_shortest_form_is_required(rt: HostRuntime) {
    for (n, width, text, form) in FORMS.iter() {
        let data = bits(&rt, rt.alloc(), text);
        assert!(rt; data.slice().len() <= *n && *n <= 1023);
        assert!(rt; choose(data.slice(), *n) == *form, "at {n} {text}");
        assert!(rt; length_width(*n) == *width);
    }
}

// The most bits of a label, the bits that are read, how many of them the label takes, and the label's bits.
static READ: [(u32, &str, u32, &str); 8] = [
    (0, "2_", 2, ""),
    (1, "5", 4, "C_"),
    (2, "D4A", 5, "2_"),
    (7, "62_", 6, "2_"),
    (7, "A54_", 9, "A"),
    (7, "EE_", 6, "F_"),
    (1023, "E044_", 13, "FF"),
    (1023, "80CA5A", 24, "A5A"),
];

fn is_label(rt: &impl Abort, alloc: Global, label: &Label<'_>, taken: u32, text: &str) -> bool {
    let mut writer = BitWriter::new(alloc).expect(rt, "memory");
    label.bits.push_onto(&mut writer).expect(rt, "room");
    let found = writer.finish();
    label.taken == taken
        && label.bits.len() == found.slice().len()
        && shows(rt, alloc, found.slice(), text)
}

#[test]
fn labels_are_read(rt: HostRuntime) {
    for (n, text, taken, label) in READ.iter() {
        assert!(rt; *n <= 1023);
        let data = bits(&rt, rt.alloc(), text);
        let found = read_label(data.slice(), *n).ok().expect(&rt, "a label");
        assert!(rt;
            is_label(&rt, rt.alloc(), &found, *taken, label),
            "at {text}"
        );
        let found = read_label_any(data.slice(), *n).ok();
        let found = found.expect(&rt, "a label");
        assert!(rt;
            is_label(&rt, rt.alloc(), &found, *taken, label),
            "at {text}"
        );
    }
}

// The most bits of a label, the bits that are read, and the refusals where one form or each may stand.
static REFUSED: [(u32, &str, LabelError, Option<LabelError>); 6] = [
    (0, "", LabelError::LabelShort, Some(LabelError::LabelShort)),
    (
        1,
        "C_",
        LabelError::LabelShort,
        Some(LabelError::LabelShort),
    ),
    (2, "B", LabelError::LabelLong, Some(LabelError::LabelLong)),
    (2, "62_", LabelError::LabelForm, None),
    (7, "CA_", LabelError::LabelForm, None),
    (
        1023,
        "BFFE_",
        LabelError::LabelShort,
        Some(LabelError::LabelShort),
    ),
];

#[test]
fn what_begins_with_no_label_is_refused(rt: HostRuntime) {
    for (n, text, required, any) in REFUSED.iter() {
        assert!(rt; *n <= 1023);
        let data = bits(&rt, rt.alloc(), text);
        let found = read_label(data.slice(), *n).err();
        assert!(rt; found == Some(*required), "at {text}");
        assert!(rt; read_label_any(data.slice(), *n).err() == *any, "at {text}");
    }
}
