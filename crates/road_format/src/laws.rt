//! Laws of the definitions that the contracts of this crate cite. Each law is the contract of a function that does
//! nothing.

ghost use Rattle.road_format.specs.CutLaws.{LinesGoOn, CutLosesNothing, LinesHaveNoNewline};
ghost use Rattle.road_format.specs.EditLaws.{EditsReadBack};
ghost use Rattle.road_format.specs.FieldsLaws.{NoOtherField};
ghost use Rattle.road_format.specs.RepliesLaws.{RepliesAreLines};

/// Show that the lines of an input read so far are the first lines of every longer input.
pub fn lines_go_on()
    ensures { LinesGoOn }
{}

/// Show that the lines of an input, each followed by a newline, and then its last piece make up the whole input.
pub fn cut_loses_nothing()
    ensures { CutLosesNothing }
{}

/// Show that no line of an input contains a newline.
pub fn lines_have_no_newline()
    ensures { LinesHaveNoNewline }
{}

/// Show that an object has no other field if it has as many fields as there are names, all names are different, and
/// there is a field of each name.
pub fn no_other_field()
    ensures { NoOtherField }
{}

/// Show that a reply is one line: it ends with a newline, and contains no other.
pub fn replies_are_lines()
    ensures { RepliesAreLines }
{}

/// Show that the values of a reply for edits, read as those of an `import`, are the edits that were written. The law is
/// about these values, not about their text.
pub fn edits_read_back()
    ensures { EditsReadBack }
{}
