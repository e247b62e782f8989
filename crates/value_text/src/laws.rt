//! Laws of texts: functions of no parameters, whose contracts speak of the definitions alone.
ghost use Rattle.value_text.specs.LexemeLaws.{OneLexeme};
ghost use Rattle.value_text.specs.PathLaws.{OneBadPlace, OnePath, PathOrPlace, SomePathOrPlace};

/// A text writes at most one path, has at most one bad place, and not both.
pub fn at_most_one_path()
    ensures path { OnePath }
    ensures place { OneBadPlace }
    ensures not_both { PathOrPlace }
{}

/// A text writes a path or has a bad place.
pub fn at_least_one_path()
    ensures { SomePathOrPlace }
{}

/// At most one lexeme stands at the beginning of a text.
pub fn at_most_one_lexeme()
    ensures { OneLexeme }
{}
