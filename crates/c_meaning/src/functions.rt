//! The number of the function `main`.

ghost use Rattle.std.specs.Prelude.{◌≡◌, codes};
ghost use Rattle.std.specs.Str.{bytes_eq};
ghost use Rattle.core_tree.specs.Trees.{view_functions};
ghost use Rattle.c_meaning.specs.Source.{main_number};

use core_tree::{Function, Name};

fn is_main(name: &Name) -> bool
    ensures { result ≡ bytes_eq name.now.bytes.items (codes "main") }
{
    name.bytes.as_slice() == b"main".as_slice()
}

/// The number of the first function named `main`, or how many functions there are.
pub fn number_of_main(functions: &[Function]) -> usize
    ensures { result ≡ main_number (view_functions functions.now) }
{
    let mut number = 0;
    for function in functions {
        if is_main(&function.name) {
            return number;
        }
        number += 1;
    }
    number
}
