// Reads a script from standard input, line by line, and prints the answer to each call.
#![tactic(auto)]

use anyhow::ensure;
use script::Answer;
use session::Session;
use std::io::{BufRead, BufReader};

// Answers one line; whether it was no call.
fn answer_line(rt: &HostRuntime, session: &mut Session, line: &[u8]) -> anyhow::Result<bool> {
    let Some(answer) = session.respond(rt.alloc(), line)? else {
        return Ok(false);
    };
    println!(rt; "{answer}")?;
    Ok(answer == Answer::NoCall)
}

fn run(rt: &HostRuntime) -> anyhow::Result<()> {
    let mut input = BufReader::new(rt.alloc(), rt.stdin())?;
    let mut session = Session::new();
    let mut wrong = false;
    // Room for a line, made once: `split` would make it anew for each line.
    let mut line = Vec::new(rt.alloc());
    for _ in 0..u64::MAX {
        line.clear();
        if input.read_until(b'\n', &mut line)? == 0 {
            break;
        }
        wrong |= answer_line(rt, &mut session, line.as_slice())?;
    }
    ensure!(!wrong, "a line of the script is no call");
    Ok(())
}

fn main(rt: HostRuntime) -> anyhow::Result<()> {
    run(&rt)
}
