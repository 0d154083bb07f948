//! The texts of the answers, and a run that breaks a check as they tell it.
#![tactic(auto)]

mod failing;
mod laws;
mod lines;
mod properties;
mod reading;
mod runs;
mod text;
mod texts;

pub use failing::{Row, Rows, trace_is_told};
pub use laws::one_reading;
pub use properties::{Property, properties_text};
pub use reading::{TraceError, TraceText, read_trace};
pub use text::Text;
pub use texts::{Head, budget_text, failure_text, limit_text, refusal_text, success_text};
