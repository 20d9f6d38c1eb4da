// Scripts of calls, as text: reading a line into a call, writing an answer.
#![tactic(auto)]

mod answer;
mod arguments;
mod call;
mod reading;
mod texts;
mod words;

pub use answer::Answer;
pub use call::{Call, Line};
pub use reading::read_line;
pub use texts::text;
