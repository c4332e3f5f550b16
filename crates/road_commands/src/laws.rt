//! A law of all laboratories and commands, as the contract of a function that does nothing.

ghost use Rattle.std.specs.Prelude.{◌≡◌};
ghost use Rattle.road_format.specs.CommandGrammar.{Command};
ghost use Rattle.road_commands.specs.Laboratory.{Laboratory, answer_to, laboratory_after, laboratory_of_winners};

/// Show that the winners suffice. The laboratory whose replicas and messages hold only the winners answers every
/// command as the laboratory of all edits does, and afterwards both have the same winners.
pub fn winners_suffice()
    ensures answer { (laboratory : Laboratory) (command : Command) →
        answer_to (laboratory_of_winners laboratory) command ≡ answer_to laboratory command }
    ensures after { (laboratory : Laboratory) (command : Command) →
        laboratory_of_winners (laboratory_after (laboratory_of_winners laboratory) command)
        ≡ laboratory_of_winners (laboratory_after laboratory command) }
{}
