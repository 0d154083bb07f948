//! Typed files in which variables have an address.

// The file of a text, where all variables or every second one of each function have an address, though none is taken. They are
// objects then, and what a run of the file comes to stays the same.

ghost use Rattle.std.specs.Prelude.{◌≤◌};

use core_check::core_of;
use core_tree::{Core, Variable};
use std::alloc::{AllocError, Global};

// The address of a variable stands in a further one, of 8 bytes.
fn give_home(variables: &mut Vec<Variable>, place: usize) -> Result<(), AllocError> {
    let home = u32::try_from(variables.len()).ok();
    if let Some(variable) = variables.get_mut(place) {
        variable.home = home;
    }
    variables.push(Variable {
        size: 8,
        readonly: false,
        home: None,
    })?;
    Ok(())
}

fn give_homes(
    alloc: Global,
    variables: &[Variable],
    every: usize,
) -> Result<Vec<Variable>, AllocError>
    requires { 1 ≤ every }
{
    let mut all = Vec::from_slice(alloc, variables)?;
    for place in 0..variables.len() {
        if place % every == 0 {
            give_home(&mut all, place)?;
        }
    }
    Ok(all)
}

// The file where each variable has an address whose number in its function is a multiple of this.
pub fn with_homes(alloc: Global, core: Core, every: usize) -> Result<Option<Core>, AllocError>
    requires { 1 ≤ every }
{
    let (mut functions, objects, literals) = core.into_parts();
    for place in 0..functions.len() {
        let variables = give_homes(alloc, &functions[place].variables, every)?;
        functions[place].variables = variables;
    }
    Ok(core_of(functions, objects, literals, true))
}
