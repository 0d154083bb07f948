//! What declarations are typed by and no expression is part of: scopes, tags, and what suffixes make of types (C11 6.2.1, 6.7.2, 6.7.6).
#![tactic(auto)]

mod derivations;
mod members;
mod names;
mod naming;
mod regions;
mod sizes;
mod slots;
mod tagging;

pub use derivations::{
    Derivation, Derived, Parameter, copied_function, derive, full_line, name_line, parameter_line,
    parts_line,
};
pub use members::{
    add_field, add_parameter, has_untagged, is_anonymous, lone_tag, parameter_type, role_of,
    typed_type_part, with_lone, with_member,
};
pub use names::Names;
pub use naming::{function_typedef_node, is_too_long, name_of, typedef_node};
pub use regions::{Region, Role, built_in_function, earlier, is_built_in_function};
pub use sizes::{
    Object, complete_type, declare, declare_parameter, is_open, sized_type, state_lengths,
};
pub use slots::{object_bytes, slot};
pub use tagging::{Braces, closed, enumeration_closed, kind_of, opened, reopened};
