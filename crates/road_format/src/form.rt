//! The forms of edits from outside.

ghost use Rattle.std.specs.Prelude.{◌≡◌, not};
ghost use Rattle.std.specs.List.{list_all};
ghost use Rattle.road_plan.specs.Objects.{is_start};
ghost use Rattle.road_format.specs.Forms as forms;

use road_scenario::Edit;

/// The first form, which has no edits of kind `start`.
pub const FIRST_FORM: u64 = 1;

/// The last form. Replies are written in it.
pub const LAST_FORM: u64 = 2;

// Return whether a form is known.
pub(crate) fn is_known(form: u64) -> bool
    ensures { result ≡ forms.is_known form }
{
    FIRST_FORM <= form && form <= LAST_FORM
}

// Return whether a command of this form may contain these edits.
pub(crate) fn are_of_form(form: u64, edits: &[Edit]) -> bool
    ensures { result ≡ forms.are_of_form form edits.now }
{
    form != FIRST_FORM || have_no_start(edits)
}

// Return whether none of these edits is of kind `start`.
fn have_no_start(edits: &[Edit]) -> bool
    ensures { result ≡ list_all (λ e. not (is_start e.object)) edits.now }
{
    edits.iter().all(|edit| !edit.object.is_start())
}
