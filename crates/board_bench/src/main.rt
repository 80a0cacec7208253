//! Measures how many questions a board answers beside a tracker that publishes as fast as it can, against the same entries
//! under a `Mutex`, and compares each answer with what the entries tell.
//!
//! | Words | What it does |
//! |---|---|
//! | `compare` | publishes some hundreds of entries beside four askers, on a board and under a lock |
//! | `measure ASKERS MILLISECONDS` | does so for a time, with 1 to 4 askers, and counts the questions and the publications |
//!
//! What `compare` prints is stored in `stdout`, and is the same whoever comes to what when. That threads run beside each other
//! isn't claimed, nor how many questions one asks while another does.
#![tactic(auto)]

ghost use Rattle.std.specs.Prelude.{◌<◌};

mod asking;
mod entries;
mod fault;
mod limit;
mod publishing;
mod ring;
mod run;

use clock_board::MOST_READERS;
use fault::Fault;
use limit::Limit;
use run::{Counts, run_board, run_lock};
use std::env;
use std::process::ExitCode;
use std::rt::{Clock, Env};
use std::sync::Wait;
use std::thread::Threads;
use std::time::{Duration, Instant};

// How much is compared: so many entries, and so many questions of each asker. They are few, since a lock that each question waits
// for may take a millisecond to change hands on a busy machine.
const ENTRIES: u64 = 300;

const QUESTIONS: u64 = 2_000;

// No measurement takes longer.
const MOST_MILLISECONDS: u64 = 10_000;

const MILLISECONDS: u64 = 1000;

fn main(rt: HostRuntime) -> ExitCode {
    match answer(&rt) {
        Ok(()) => ExitCode::SUCCESS,
        Err(fault) => {
            let _ = eprintln!(&rt; "{fault}");
            ExitCode::FAILURE
        }
    }
}

// Does what the words ask for.
fn answer<R: Threads + Wait + Sync + Clock + Env + Print + AllocGlobal>(
    rt: &R,
) -> Result<(), Fault> {
    let words: Vec<String> = env::args(rt)?.collect(rt.alloc())?;
    let [_, mode, rest @ ..] = words.as_slice() else {
        return Err(Fault::Words);
    };
    match mode.as_str() {
        "compare" => compare(rt, rest),
        "measure" => measure(rt, rest),
        _ => Err(Fault::Words),
    }
}

// Compares a fixed number of answers.
fn compare<R: Threads + Wait + Sync + Clock + Print + AllocGlobal>(
    rt: &R,
    words: &[String],
) -> Result<(), Fault> {
    if !words.is_empty() {
        return Err(Fault::Words);
    }
    let publishing = Limit::Number(ENTRIES);
    let asking = Limit::Number(QUESTIONS);
    let board = run_board(rt, rt.alloc(), MOST_READERS, &publishing, &asking)?;
    tell_compared(rt, "board", &board)?;
    let lock = run_lock(rt, rt.alloc(), MOST_READERS, &publishing, &asking)?;
    tell_compared(rt, "mutex", &lock)
}

fn tell_compared<R: Print>(rt: &R, name: &str, counts: &Counts) -> Result<(), Fault> {
    counts.refuse_difference()?;
    let Counts {
        questions,
        publications,
        ..
    } = *counts;
    println!(rt; "{name}: {publications} entries published, {questions} questions, no difference")?;
    Ok(())
}

// Counts for as long as the words say.
fn measure<R: Threads + Wait + Sync + Clock + Print + AllocGlobal>(
    rt: &R,
    words: &[String],
) -> Result<(), Fault> {
    let [askers, milliseconds] = words else {
        return Err(Fault::Words);
    };
    let askers = askers.as_str().parse::<u8>().map_err(|_| Fault::Words)?;
    let milliseconds = milliseconds
        .as_str()
        .parse::<u64>()
        .map_err(|_| Fault::Words)?;
    if askers == 0 || askers > MOST_READERS {
        return Err(Fault::Words);
    }
    if milliseconds == 0 || milliseconds > MOST_MILLISECONDS {
        return Err(Fault::Words);
    }
    let limit = limit_from_now(rt, milliseconds)?;
    let board = run_board(rt, rt.alloc(), askers, &limit, &limit)?;
    tell_measured(rt, "board", &board, milliseconds)?;
    let limit = limit_from_now(rt, milliseconds)?;
    let lock = run_lock(rt, rt.alloc(), askers, &limit, &limit)?;
    tell_measured(rt, "mutex", &lock, milliseconds)
}

fn limit_from_now<C: Clock>(clock: &C, milliseconds: u64) -> Result<Limit, Fault> {
    Ok(Limit::Time {
        begin: Instant::now(clock)?,
        span: Duration::from_millis(milliseconds),
    })
}

// Prints a name and a number a line.
fn tell_measured<R: Print>(
    rt: &R,
    name: &str,
    counts: &Counts,
    milliseconds: u64,
) -> Result<(), Fault>
    requires { 0 < milliseconds }
{
    counts.refuse_difference()?;
    let Counts {
        questions,
        publications,
        ..
    } = *counts;
    let a_second = questions.saturating_mul(MILLISECONDS) / milliseconds;
    println!(rt; "{name}_questions {questions}")?;
    println!(rt; "{name}_questions_a_second {a_second}")?;
    println!(rt; "{name}_publications {publications}")?;
    Ok(())
}
