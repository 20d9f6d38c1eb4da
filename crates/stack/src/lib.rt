// A stack of values in slots that the caller lends.
#![tactic(auto)]

mod stack;

pub use stack::Stack;
