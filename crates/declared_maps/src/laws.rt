//! What follows from the definitions alone. Each function states one law.
ghost use Rattle.declared_maps.specs.Laws.{LinesAreAccepted, LinesAreThere, MapsAreDeclared, MapsHaveRecords};

use accepted_schema::laws::accepted_without_cause;

/// A schema of the lines is accepted.
pub fn lines_are_accepted()
    ensures { LinesAreAccepted }
{
    accepted_without_cause();
}

/// The lines have their core forms in each schema that begins with them.
pub fn lines_are_there()
    ensures { LinesAreThere }
{}

/// A content spells a map exactly where it spells a record of the declared lines with the required form of each label.
pub fn maps_are_declared()
    ensures { MapsAreDeclared }
{}

/// The record that a content spells in place of a map is a function of the map.
pub fn maps_have_records()
    ensures { MapsHaveRecords }
{}
