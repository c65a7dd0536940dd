// What is claimed of the definitions, each claim the clause of a function that does nothing.

ghost use Rattle.biasflint.specs.Claims.{RefusedKeeps};
ghost use Rattle.biasflint.specs.History.{HostLogTheorem};

/// A refused call leaves every field of the record that was lent (rule 10.31).
pub fn refused_changes_nothing()
    ensures left { RefusedKeeps }
{}

/// The log decides the answers after every list of cards from every accepted set-up card (rules 11.5, 11.6, 13.6).
pub fn log_decides()
    ensures cards { HostLogTheorem }
{}
