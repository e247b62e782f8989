//! What follows from the definitions alone. Each function states one law.
ghost use Rattle.reading_texts.specs.Laws.{ReadingIsWritable};

use tlb_kinds::laws::kept_stays_within;

/// The reading of a good tree of at most 262,144 cells, in mode Whole and an accepted schema, has a text.
pub fn reading_is_writable()
    ensures { ReadingIsWritable }
{
    kept_stays_within();
}
