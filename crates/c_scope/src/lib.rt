//! What the names and tags in scope mean, and the types that they say (C11 6.2.1 to 6.2.3, 6.7.2, 6.7.6.2).
#![tactic(auto)]

mod built_ins;
mod comparing;
mod declarators;
mod fault;
mod flow;
mod functions;
mod meaning;
mod members;
mod places;
mod scope;
mod specifiers;
mod type_words;

pub use built_ins::built_in;
pub use comparing::{same_ctype, same_flag, same_function};
pub use declarators::{
    array_of, array_type, declared_line, element_type, element_type_on, object_size, one_array,
    type_size,
};
pub use fault::{Broken, TypingError};
pub use flow::{Cases, Flow};
pub use functions::{Callable, FunctionType, Functions};
pub use meaning::{BuiltInFunction, Meaning};
pub use members::{Field, member_at, part_at};
pub use scope::{ObjectEntry, QualifiedType, Scope, is_incomplete};
pub use specifiers::{Specified, parts_type, tag_type, typedef_of};
pub use type_words::words_type;
