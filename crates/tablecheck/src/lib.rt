// What a call on the tables tests before it answers: lengths, soundness, spans and mapped pages.
#![tactic(auto)]

mod soundness;
mod spans;
mod walking;

pub use crate::soundness::{right_lengths, tables_sound};
pub use crate::spans::{all_mapped, any_mapped, is_span};
