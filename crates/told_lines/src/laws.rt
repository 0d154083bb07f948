//! Laws of the lines that are told, as functions that do nothing.

ghost use Rattle.std.specs.Prelude.{◌≡◌, ℕ, List, Ok};
ghost use Rattle.c_token.specs.declared.token.Token.{Token};
ghost use Rattle.c_lexer.specs.Cutting.{IsCutInto, bytes_of};
ghost use Rattle.c_pre.specs.Calls.{IsExpansion};
ghost use Rattle.c_tree.specs.Statements.{Externals};
ghost use Rattle.c_tree.specs.Files.{IsFile};
ghost use Rattle.words.specs.declared.check.Check.{Check};
ghost use Rattle.core_tree.specs.Trees.{TypedFile};
ghost use Rattle.core_tree.specs.Ranges.{Limits};
ghost use Rattle.interleave.specs.Inputs.{InputLists};
ghost use Rattle.interleave.specs.Replay.{Replays};
ghost use Rattle.c_meaning.specs.Source.{source_world};
ghost use Rattle.c_elab_decl.specs.Files.{elaborated};
ghost use Rattle.told_lines.specs.TypedLines.{IsLine, InFile};
ghost use Rattle.told_lines.specs.TreeLines.{InExternals};
ghost use Rattle.told_lines.specs.TokenLines.{InTokens};

/// Each token's line is at least 1: lines count from 1.
pub fn token_lines()
    ensures { (file : List ℕ) (tokens : List Token) → IsCutInto file (Ok tokens) → InTokens IsLine tokens }
{}

/// Where each token's line is at least 1, so is that of each token that the directives expand them into.
pub fn expanded_lines()
    ensures { (bytes : List ℕ) (tokens found : List Token) → IsExpansion bytes tokens (Ok found) → InTokens IsLine tokens → InTokens IsLine found }
{}

/// Where each token's line is at least 1, so is each line that typing hands on from their tree.
pub fn tree_lines()
    ensures { (bytes : List ℕ) (tokens : List Token) (tree : Externals) → IsFile bytes tokens tree → InTokens IsLine tokens → InExternals IsLine tree }
{}

/// Where each line that typing hands on from a tree is at least 1, so is each line that its typed file carries.
pub fn typed_lines()
    ensures { (tree : Externals) (core : TypedFile) → elaborated tree ≡ Ok core → InExternals IsLine tree → InFile IsLine core }
{}

/// Where each line that a typed file carries is at least 1, so is that of each check that a run of the file breaks.
pub fn run_lines()
    ensures { (core : TypedFile) (limits : Limits) (inputs : InputLists) (schedule : List ℕ) (check : Check) → InFile IsLine core → Replays (source_world core limits) inputs schedule check → IsLine check.line }
{}

/// The line of each check that a run of a file's program breaks is at least 1, where the bytes are cut into tokens, the
/// directives expand these, and the typed file is the typing of a tree of what they become.
pub fn told_lines()
    ensures { (file bytes : List ℕ) (cutting tokens : List Token) (tree : Externals) (core : TypedFile) (limits : Limits) (inputs : InputLists) (schedule : List ℕ) (check : Check)
        → IsCutInto file (Ok cutting) → IsExpansion (bytes_of file) cutting (Ok tokens) → IsFile bytes tokens tree → elaborated tree ≡ Ok core
        → Replays (source_world core limits) inputs schedule check → IsLine check.line }
{
    token_lines();
    expanded_lines();
    tree_lines();
    typed_lines();
    run_lines();
}
