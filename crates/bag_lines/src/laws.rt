//! Laws of the lines of bags: functions of no parameters, whose contracts speak of the definitions alone.
ghost use Rattle.bag_lines.specs.Laws.{LineHolds};

use bag_cells::laws::{width_is_least, written_bag_holds};

/// A file that holds the line of a tree's bag holds the tree, and is no longer than a bag may be.
pub fn line_holds()
    ensures { LineHolds }
{
    written_bag_holds();
    width_is_least();
}
