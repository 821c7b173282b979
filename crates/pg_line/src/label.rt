//! Labels by their spellings.
ghost use Rattle.std.specs.Prelude.{◌≡◌};
ghost use Rattle.pg_line.specs.Forms.{label_of as label_spelled};

use crate::form::Label;

/// The label that is spelled so, if one is.
#[tactic(auto, unfolding(crate::specs::Forms::label_of, crate::specs::Forms::labels))]
pub(crate) fn label_of(text: &[u8]) -> Option<Label>
    ensures { result ≡ label_spelled text.now }
{
    if text == b"snapped".as_slice() {
        Some(Label::Snapped)
    } else if text == b"found".as_slice() {
        Some(Label::Found)
    } else if text == b"locked".as_slice() {
        Some(Label::Locked)
    } else if text == b"placed".as_slice() {
        Some(Label::Placed)
    } else if text == b"claimed".as_slice() {
        Some(Label::Claimed)
    } else if text == b"acted".as_slice() {
        Some(Label::Acted)
    } else {
        None
    }
}
