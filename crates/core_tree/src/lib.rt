//! The typed tree of a C file: names are resolved, each conversion is a node, each node has the line of
//! its own token.
#![tactic(auto)]

mod bounds;
mod expression;
mod functions;
mod operators;
mod refusal;
mod statement;
mod typing;

pub use bounds::{Bounds, LoopBound};
pub use expression::{CoreArgument, CoreExpr, CorePart, CoreStructure, Place};
pub use functions::{
    Address, Core, Function, Literal, Name, PassedType, StaticObject, Target, Variable,
    function_name,
};
pub use operators::{
    ArithmeticOperator, Comparison, LogicalOperator, SignOperator, StepOperator, drawn_width,
    step_operation,
};
pub use refusal::{Limit, Refusal};
pub use statement::{CoreItem, CoreStatement};
pub use typing::{
    names_variable, place_names_variable, structure_names_variable, structure_size, type_of,
};
