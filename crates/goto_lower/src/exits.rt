//! Where `break`, `continue`, `return` and `goto` lead.

ghost use Rattle.std.specs.Prelude.{◌≡◌, ◌+◌, [], None, IfOk};
ghost use Rattle.goto_lower.specs.Statements.{function_exits, loop_exits, switch_exits, block_exits};

use c_types::IntegerType;
use code_draft::more;
use std::alloc::{AllocError, Global};

/// How many places lie behind the nodes in front of which code is put, and behind the places where `break`
/// and `continue` lead, each up to the end of the function; and how many of the latest objects die on these
/// ways, and on that out of the function.
#[derive(Clone, Copy)]
pub(crate) struct Exits {
    pub(crate) base: usize,
    pub(crate) break_at: usize,
    pub(crate) break_deaths: usize,
    pub(crate) continue_at: usize,
    pub(crate) continue_deaths: usize,
    pub(crate) return_deaths: usize,
}

/// A `case` with its line and its value, and how many places lie behind its place.
#[derive(Clone, Copy)]
pub(crate) struct CasePlace {
    pub(crate) line: u32,
    pub(crate) type_: IntegerType,
    pub(crate) bits: u64,
    pub(crate) place: usize,
}

/// The cases among items, the last of which comes first, and how many places lie behind that of `default`.
#[derive(Drop)]
pub(crate) struct Cases {
    pub(crate) places: Vec<CasePlace>,
    pub(crate) otherwise: Option<usize>,
}

pub(crate) fn no_cases(alloc: Global) -> Cases
    ensures places { result.places.items ≡ [] }
    ensures otherwise { result.otherwise ≡ None }
{
    Cases {
        places: Vec::new(alloc),
        otherwise: None,
    }
}

/// From the body of a function, around which so many objects live.
pub(crate) fn of_function(count: usize) -> Exits
    ensures { result ≡ function_exits count }
{
    Exits {
        base: 1,
        break_at: 2,
        break_deaths: count,
        continue_at: 2,
        continue_deaths: count,
        return_deaths: count,
    }
}

/// Within a loop behind which so many places lie, where the code that ends a round has so many.
pub(crate) fn within_loop(exits: Exits, behind: usize, count: usize) -> Result<Exits, AllocError>
    ensures { IfOk result (λ x. x ≡ loop_exits exits behind count) }
{
    let base = more(behind, 1)?;
    let continue_at = more(base, count)?;
    Ok(Exits {
        base,
        break_at: behind,
        break_deaths: 0,
        continue_at,
        continue_deaths: 0,
        return_deaths: exits.return_deaths,
    })
}

/// Within a `switch` behind which so many places lie.
pub(crate) fn within_switch(exits: Exits, behind: usize) -> Exits
    ensures { result ≡ switch_exits exits behind }
{
    Exits {
        base: exits.base,
        break_at: behind,
        break_deaths: 0,
        continue_at: exits.continue_at,
        continue_deaths: exits.continue_deaths,
        return_deaths: exits.return_deaths,
    }
}

/// Within a block, of whose variables so many have objects.
pub(crate) fn within_block(exits: Exits, count: usize) -> Result<Exits, AllocError>
    ensures { IfOk result (λ x. x ≡ block_exits exits count) }
{
    Ok(Exits {
        base: exits.base,
        break_at: exits.break_at,
        break_deaths: more(count, exits.break_deaths)?,
        continue_at: exits.continue_at,
        continue_deaths: more(count, exits.continue_deaths)?,
        return_deaths: more(count, exits.return_deaths)?,
    })
}
