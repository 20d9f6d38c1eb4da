ghost use Rattle.std.specs.Prelude.{◌≡◌, IfOk, Some, string_bytes};
ghost use Rattle.script.specs.Texts.{answer_text};

use super::answer::Answer;
use std::alloc::{AllocError, Global};
use std::fmt;

impl fmt::Display for Answer {
    ghost output = { λ answer. Some (answer_text answer) };

    fn fmt<W: fmt::Write>(&self, f: &mut fmt::Formatter<W>) -> fmt::Result {
        match self {
            Answer::Kept(states) => write!(f, "states {states}"),
            Answer::Verdict(yes) => f.write_str(if *yes { "yes" } else { "no" }),
            Answer::Measured { nodes, height } => write!(f, "nodes {nodes} height {height}"),
            Answer::Number(n) => write!(f, "{n}"),
            Answer::Nothing => f.write_str("none"),
            Answer::Refused(refusal) => {
                let notice = refusal.notice();
                write!(
                    f,
                    "refused {} at {} in {}",
                    notice.number, notice.place, notice.layer
                )
            }
            Answer::NoCall => f.write_str("no call"),
        }
    }
}

// The line that is printed for an answer, without its line feed. It fails only for want of memory.
pub fn text(heap: Global, answer: Answer) -> Result<String, AllocError>
    ensures { IfOk result (λ s. string_bytes s ≡ answer_text answer) }
{
    answer.to_string(heap)
}
