// Plays the journals that the file `cases` names, one run to a line with its options, as sheet_journal does, and prints the answers after each. A line that is no call is told, and the run goes on.
#![tactic(auto)]

use journal::playing::play_bytes;
use journal_settings::reading::read_settings;
use journal_settings::settings::Settings;
use line_words::splitting::split_words;
use line_words::texts::{after, text_at};
use std::fs;
use std::io::{BufRead, BufReader, Write};
use topology::map::Map;
use topology::side::Side;
use topology::vertex::Vertex;

// One line, with its end, and its answer.
fn answer(rt: &HostRuntime, map: &mut Map, number: u64, bytes: &[u8]) -> anyhow::Result<()> {
    match play_bytes(rt.alloc(), map, bytes) {
        Ok(Some(text)) => rt.stdout().write_all(text.as_slice())?,
        Ok(None) => {}
        Err(fault) => println!(rt; "line {number}: {fault}")?,
    }
    Ok(())
}

// The lines of a journal, played on a map.
// Stays: this and `run` are nearly `play` and `run` of `sheet_journal`, which stop at the first fault and say what is wrong where tables find no memory; here faults are told between the answers, and an error ends the program. One function for both would take the reader and a closure for what a fault does, around one `for`, and is no plainer.
fn play(rt: &HostRuntime, map: &mut Map, path: &str) -> anyhow::Result<()> {
    let mut input = BufReader::new(rt.alloc(), fs::open(rt, path)?)?;
    // Stays: `split` gives each line without its line feed, and what `play_bytes` promises of the end of a line would not bear on what is done here. So each is read with its end, and a range numbers them.
    for number in 1..u64::MAX {
        let mut bytes = Vec::new(rt.alloc());
        if input.read_until(b'\n', &mut bytes)? == 0 {
            break;
        }
        answer(rt, map, number, bytes.as_slice())?;
    }
    Ok(())
}

// A journal, played on a blank map.
fn run(rt: &HostRuntime, path: &str, settings: Settings) -> anyhow::Result<()> {
    let heap = rt.alloc();
    let mut sides = vec![in heap; Side::default(); settings.sides]?;
    let mut vertices = vec![in heap; Vertex::default(); settings.vertices]?;
    let mut map = Map::start(settings.hand, sides.as_mut_slice(), vertices.as_mut_slice());
    play(rt, &mut map, path)
}

// One run: a journal's file, and options.
fn one_case(rt: &HostRuntime, line: &str) -> anyhow::Result<()> {
    println!(rt; "> {line}")?;
    let words = split_words(rt.alloc(), line)?;
    match read_settings(after(words.as_slice(), 1)) {
        Ok(settings) => run(rt, text_at(words.as_slice(), 0), settings),
        Err(fault) => Ok(println!(rt; "{fault}")?),
    }
}

fn main(rt: HostRuntime) -> anyhow::Result<()> {
    let cases = fs::read_to_string(&rt, "cases")?;
    for line in cases.as_str().lines() {
        one_case(&rt, line)?;
    }
    Ok(())
}
