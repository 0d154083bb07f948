//! Laws about the definitions that the clauses of the top call cite.

ghost use Rattle.std.specs.Prelude.{◌≡◌, ◌⊎◌, ℕ, List};
ghost use Rattle.core_tree.specs.Trees.{TypedFile};
ghost use Rattle.core_tree.specs.Ranges.{Limits};
ghost use Rattle.cbmc_top.specs.Programs.{IsFileOf, IsAccepted, IsCheckable};
ghost use Rattle.properties.specs.Properties.{properties_of};
ghost use Rattle.report.specs.Report.{Failure};
ghost use Rattle.run_search.specs.Answers.{Answer, successful, failed, listed};
ghost use Rattle.cbmc_top.specs.Command.{Purpose, checking, listing};
ghost use Rattle.cbmc_top.specs.Answers.{AfterCounts, IsOfSearch, Decides};
ghost use Rattle.run_search.specs.declared.used.Used.{Used};

use c_lexer::one_cutting;
use c_parse_decl::{one_file, one_place};
use c_pre::one_expansion;

/// A file has at most one program.
pub fn one_program()
    ensures { (bytes : List ℕ) (some others : TypedFile) → IsFileOf bytes some → IsFileOf bytes others → some ≡ others }
{
    one_cutting();
    one_expansion();
    one_file();
}

/// What stops a file is determined by its bytes, and where nothing does the search of its runs alone answers. Whether that
/// is by what the runs do or by a budget that is used up isn't determined: both may be allowed.
pub fn one_answer()
    ensures { (purpose : Purpose) (bytes : List ℕ) (a b : Answer) → Decides purpose bytes a → Decides purpose bytes b → (a ≡ b) ⊎ (IsOfSearch a × IsOfSearch b) }
{
    one_cutting();
    one_expansion();
    one_file();
    one_place();
}

/// A success and a failure exclude one another, also under two budgets.
pub fn one_verdict()
    ensures { (limits : Limits) (budget other : ℕ) (bytes : List ℕ) (used : Used) (f : Failure) → Decides (checking limits budget) bytes (successful used) → Decides (checking limits other) bytes (failed f) → ⊥ }
{
    one_cutting();
    one_expansion();
    one_file();
}

/// A file in the profile of which no count passes its limit is answered by the search of its runs: by what they do, or by
/// a log that has used up the budget.
pub fn runs_answer()
    ensures { (limits : Limits) (budget : ℕ) (bytes : List ℕ) (core : TypedFile) (a : Answer) → IsCheckable limits bytes core → Decides (checking limits budget) bytes a → AfterCounts limits budget core a }
{
    one_cutting();
    one_expansion();
    one_file();
}

/// The loops and assertions of the tree of a file in the profile are listed where they are asked for.
pub fn listing_answers()
    ensures { (bytes : List ℕ) (core : TypedFile) (file : IsAccepted bytes core) (a : Answer) → Decides listing bytes a → a ≡ listed (properties_of file.program.tree) }
{
    one_cutting();
    one_expansion();
    one_file();
}
