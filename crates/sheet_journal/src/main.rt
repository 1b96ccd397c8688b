// Starts a blank map, plays the lines of standard input on it, and answers each call on standard output.
#![tactic(auto)]

use journal::playing::play_bytes;
use journal_settings::reading::read_settings;
use journal_settings::settings::Settings;
use std::env;
use std::fmt::Display;
use std::io::{self, BufRead, BufReader, Write};
use std::process::ExitCode;
use topology::map::Map;
use topology::side::Side;
use topology::vertex::Vertex;

// Says what is wrong in one line on standard error, and ends with status 1.
fn stop(rt: &HostRuntime, what: &(impl Display + Drop)) -> anyhow::Result<ExitCode> {
    eprintln!(rt; "sheet_journal: {what}")?;
    Ok(ExitCode::FAILURE)
}

// Plays one line as it was read, with its end, and writes its answer.
fn answer(rt: &HostRuntime, map: &mut Map, read: io::Result<Vec<u8>>) -> anyhow::Result<()> {
    if let Some(text) = play_bytes(rt.alloc(), map, read?.as_slice())? {
        rt.stdout().write_all(text.as_slice())?;
    }
    Ok(())
}

// Plays the lines of standard input.
// Stays: this and `run` are nearly `play` and `run` of `journal_vectors`, where a fault is told and the lines go on. One function for both would take the reader and a closure for what a fault does, around one `for`, and is no plainer.
fn play(rt: &HostRuntime, map: &mut Map) -> anyhow::Result<ExitCode> {
    let mut input = BufReader::new(rt.alloc(), rt.stdin())?;
    // Stays: `split` gives each line without its line feed, and what `play_bytes` promises of the end of a line would not bear on what is done here. So each is read with its end, and a range numbers them.
    for number in 1..u64::MAX {
        let mut bytes = Vec::new(rt.alloc());
        let read = input.read_until(b'\n', &mut bytes);
        if matches!(read, Ok(0)) {
            break;
        }
        if let Err(fault) = answer(rt, map, read.map(|_| bytes)) {
            return stop(rt, &format_args!("line {number}: {fault}"));
        }
    }
    Ok(ExitCode::SUCCESS)
}

// A blank map over tables of its own, and the lines played on it.
fn run(rt: &HostRuntime, settings: Settings) -> anyhow::Result<ExitCode> {
    let heap = rt.alloc();
    let Ok(mut sides) = vec![in heap; Side::default(); settings.sides] else {
        return stop(rt, &"no memory for so many sides");
    };
    let Ok(mut vertices) = vec![in heap; Vertex::default(); settings.vertices] else {
        return stop(rt, &"no memory for so many vertices");
    };
    let mut map = Map::start(settings.hand, sides.as_mut_slice(), vertices.as_mut_slice());
    play(rt, &mut map)
}

fn main(rt: HostRuntime) -> anyhow::Result<ExitCode> {
    let words: Vec<String> = env::args(&rt)?.skip(1).collect(rt.alloc())?;
    match read_settings(words.as_slice()) {
        Ok(settings) => run(&rt, settings),
        Err(fault) => stop(&rt, &fault),
    }
}
