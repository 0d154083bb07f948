//! What a token of a C file is, and how keywords and marks are spelled (C11 6.4).
#![tactic(auto)]

mod token;

pub use token::{
    CONSTANT_TYPES, Constant, ConstantType, Keyword, Kind, Mark, Token, each_keyword_is_spelled,
    each_mark_is_spelled, keyword_of, mark_of,
};
