// Answers every request of the file `cases`, one to a line, as sheet_records does, and prints each after its request.
#![tactic(auto)]

use record_answer::unanswered::Unanswered;
use record_reply::{Failure, reply};
use std::alloc::AllocError;
use std::fs;

// One request and its answer.
fn one_case(rt: &HostRuntime, line: &str) -> anyhow::Result<()> {
    let heap = rt.alloc();
    println!(rt; "> {line}")?;
    // between two spaces that follow one another stands a word too, the empty one, as it may stand among arguments
    let mut words = Vec::new(heap);
    for word in line.split(' ') {
        words.push(String::from_str(heap, word)?)?;
    }
    match reply(rt, words.as_slice()) {
        Ok(text) => print!(rt; "{text}")?,
        Err(Failure::Unread(_, e)) => return Err(e.into()),
        Err(Failure::Unanswered(Unanswered::NoMemory)) => return Err(AllocError.into()),
        Err(e) => println!(rt; "{e}")?,
    }
    Ok(())
}

fn main(rt: HostRuntime) -> anyhow::Result<()> {
    let cases = fs::read_to_string(&rt, "cases")?;
    for line in cases.as_str().lines() {
        if !line.is_empty() {
            one_case(&rt, line)?;
        }
    }
    Ok(())
}
