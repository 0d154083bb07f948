//! A complete search for a model of a form, as that of `cdcl_core`, with activities, saved values and restarts.
#![tactic(auto)]

ghost use Rattle.std.specs.Prelude.{◌≤◌, IfOk};
ghost use Rattle.cdcl_core.specs.Answers.{IsAnswer};

mod activities;
mod restarts;

use crate::activities::Activities;
pub use cdcl_core::Answer;
use cdcl_core::solve_by;
use sat_form::Cnf;
use std::alloc::{AllocError, Global};

/// A model of the form; a refutation of it by at most `budget` learned clauses, each a unit of the
/// budget, and then the empty clause; or as many units as the budget, where these did not decide it.
pub fn solve(alloc: Global, cnf: &Cnf, budget: u64) -> Result<Answer, AllocError>
    requires { 1 ≤ budget }
    ensures { IfOk result (IsAnswer cnf.now budget) }
{
    let mut order = Activities::new(alloc, cnf.variables())?;
    solve_by(alloc, cnf, &mut order, budget)
}
