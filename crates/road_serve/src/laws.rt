//! A law of the answers, as the contract of a function that does nothing.

ghost use Rattle.road_serve.specs.Laws.{AnswersGoOn};

use road_format::laws::lines_go_on;

/// Show that the answers to an input read so far are a prefix of the answers to every longer input: a reply that was
/// written stays right, whatever comes next.
pub fn answers_go_on()
    ensures { AnswersGoOn }
{
    lines_go_on();
}
