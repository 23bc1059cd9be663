// The breaker and paging crate: what callers use. No function here asks anything of its caller.
#![tactic(auto)]

mod index;
mod paragraph;

pub use index::set_index;
pub use paragraph::{penalty_alone, set_paragraph};
