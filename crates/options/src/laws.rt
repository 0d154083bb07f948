//! The law of the definition of a command.

ghost use Rattle.std.specs.Prelude.{◌≡◌, ℕ, List};
ghost use Rattle.options.specs.Command.{Asked, IsCommand};

/// Words ask for one thing at most.
pub fn one_command()
    ensures { (words : List (List ℕ)) (a b : Asked) → IsCommand words a → IsCommand words b → a ≡ b }
{}
