//! Expressions of the whole language as tokens, and how deep they are.
//!
//! What spells an expression is a row of parts: tokens, and the expressions inside it. The rows of all forms stand in `parts.rt`, `forms.rt` and
//! `lists.rt`; going down into the expressions inside is left to the few functions of `printing.rt`.
#![tactic(auto)]

mod depths;
mod forms;
mod lists;
mod made;
mod part;
mod parts;
mod printing;

pub use depths::depth;
pub use printing::tokens_of_expr;
