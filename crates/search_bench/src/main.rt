//! Compares the quick answers of a search with those of the plain definitions, and measures both.
//!
//! What `compare` prints is stored in `stdout`, and `rt run -- compare > stdout` makes it anew. It hangs on what is drawn by
//! chance, and on nothing that may become faster or nearer.
//!
//! | Words | What it does |
//! |---|---|
//! | `compare [SEED]` | compares the bounds of blocks, floors of days, and the legality and costs of sequences, over windows of noise |
//! | `floors [SEED]` | compares floors of days, and tells how near they come |
//! | `measure SECONDS FROM TO STATION=LOG..` | counts and times what a search of the logs visits |
#![tactic(auto)]

mod chance;
mod compare;
mod counts;
mod draw;
mod fault;
mod floor_tally;
mod floors;
mod load;
mod measure;
mod noise;
mod order;
mod places;
mod pricing;
mod receivers;
mod sample;
mod searching;
mod slots;
mod tally;
mod times;
mod windows;

use compare::{compare, measure_floors};
use fault::Fault;
use measure::measure;
use std::env;
use std::process::ExitCode;
use std::rt::{Clock, Env, Files};
use std::thread::Threads;

// The seed of a comparison that isn't given one.
const FIRST_SEED: u64 = 1;

fn main(rt: HostRuntime) -> ExitCode {
    match run(&rt) {
        Ok(()) => ExitCode::SUCCESS,
        Err(fault) => {
            let _ = eprintln!(&rt; "{fault}");
            ExitCode::FAILURE
        }
    }
}

// Does what the words ask for.
fn run<R: Threads + Sync + Clock + Env + Files + Print + AllocGlobal>(rt: &R) -> Result<(), Fault> {
    let words: Vec<String> = env::args(rt)?.collect(rt.alloc())?;
    run_words(rt, &words)
}

// The same by the words, of which the first is the program's name.
fn run_words<R: Threads + Sync + Clock + Files + Print + AllocGlobal>(
    rt: &R,
    words: &[String],
) -> Result<(), Fault> {
    let [_, mode, rest @ ..] = words else {
        return Err(Fault::Words);
    };
    match mode.as_str() {
        "compare" => compare(rt, seed_of(rest)?),
        "floors" => measure_floors(rt, seed_of(rest)?),
        "measure" => measure(rt, rest),
        _ => Err(Fault::Words),
    }
}

// The seed that a comparison is given, if it is.
fn seed_of(words: &[String]) -> Result<u64, Fault> {
    let Some(word) = words.first() else {
        return Ok(FIRST_SEED);
    };
    word.as_str().parse::<u64>().map_err(|_| Fault::Words)
}
