//! What a search has used.

use sat_form::{Cnf, Log};

/// The clauses that were searched, and the log of the search: a refutation of them, or one that has used up the budget.
#[derive(Drop)]
pub struct Used {
    pub form: Cnf,
    pub log: Log,
}
