// Finds the records of a MiraMon file that meet a window, and prints each record and its list with their places.
#![tactic(auto)]

use record_answer::unanswered::Unanswered;
use record_reply::{Failure, reply};
use std::env;
use std::process::ExitCode;

// A refusal is a reply too; what else is wrong is said in one line on standard error. Both end with status 1.
fn main(rt: HostRuntime) -> anyhow::Result<ExitCode> {
    let words: Vec<String> = env::args(&rt)?.skip(1).collect(rt.alloc())?;
    match reply(&rt, words.as_slice()) {
        Ok(text) => {
            print!(rt; "{text}")?;
            Ok(ExitCode::SUCCESS)
        }
        Err(Failure::Unanswered(Unanswered::Refused(e))) => {
            println!(rt; "{e}")?;
            Ok(ExitCode::FAILURE)
        }
        Err(e) => {
            eprintln!(rt; "sheet_records: {e}")?;
            Ok(ExitCode::FAILURE)
        }
    }
}
