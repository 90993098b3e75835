// A page looked up in a translation unit and in its page word, and what the unit holds afterwards. Units are taken and given by value.
#![tactic(auto)]

pub mod entries;
pub mod found;
pub mod install;
