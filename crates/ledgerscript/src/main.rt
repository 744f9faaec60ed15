// Plays a script and prints the answer to each line, and at the end how many lines there were and how many were refused.
// The script is standard input, or the file that the argument names. All that matters is in the library `script`.
#![tactic(auto)]

use script::inputs::{MAX_INPUT, play_input};
use std::alloc::Global;
use std::io::{Read, Write};
use std::{env, fs, io};

// One byte more than an input may have is enough to tell that it is too long.
const ENOUGH: u64 = MAX_INPUT as u64 + 1;

fn main(rt: HostRuntime) -> io::Result<()> {
    let input = read_input(&rt)?;
    let played = play_input(rt.alloc(), input.as_slice())?;
    rt.stdout().write_all(played.output.as_slice())
}

fn read_input(rt: &HostRuntime) -> io::Result<Vec<u8>> {
    match env::args(rt)?.nth(1) {
        None => read_all(rt.alloc(), rt.stdin()),
        Some(name) => {
            let result = read_file(rt, name.as_str());
            if result.is_err() {
                eprintln!(rt; "ledgerscript: cannot read {name}")?;
            }
            result
        }
    }
}

fn read_file(rt: &HostRuntime, name: &str) -> io::Result<Vec<u8>> {
    read_all(rt.alloc(), fs::open(rt, name)?)
}

fn read_all<R: Read + Drop>(heap: Global, source: R) -> io::Result<Vec<u8>> {
    let mut bytes = Vec::new(heap);
    source.take(ENOUGH).read_to_end(&mut bytes)?;
    Ok(bytes)
}
