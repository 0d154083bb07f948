//! The laws of lowered code, as functions that do nothing.

ghost use Rattle.lowered_code.specs.Laws.{FitsTogether, IsStatic, KeepsMeaning};

/// What the code of an admitted file does as strict code, under the bounds of a command, is what the file means under them.
pub fn lowering_keeps_meaning()
    ensures { KeepsMeaning }
{}

/// The registers, blocks and places that lowered code names are there, of the types that are asked for.
pub fn lowered_code_fits()
    ensures { FitsTogether }
{}

/// The code of a file in which no form over pointers may stand has no operations on pointers.
pub fn lowered_code_is_static()
    ensures { IsStatic }
{}
