//! What runs over files in memory are given, and how it is told what they print.

ghost use Rattle.std.specs.Prelude.{◌≤◌};

use bank_files::MemoryFiles;
use judges::judge;
use std::alloc::{AllocError, Global};
use std::test::Fail;

// The words of a line that parts them by spaces.
pub(crate) fn words(alloc: Global, line: &str) -> Result<Vec<String>, AllocError> {
    let mut words = Vec::new(alloc);
    for word in line.split(' ') {
        words.push(word.to_string(alloc)?)?;
    }
    Ok(words)
}

pub(crate) fn printed(files: &MemoryFiles, text: &str) -> bool {
    files
        .contents("-")
        .is_some_and(|found| found == text.as_bytes())
}

// A station with its one receiver, named a, whose log is a.log.
pub(crate) const JJY: &str = "station = \"jjy\"\n[[receiver]]\nname = \"a\"\nlog = \"a.log\"\n";

pub(crate) const DCF77: &str = "station = \"dcf77\"\n[[receiver]]\nname = \"a\"\nlog = \"a.log\"\n";

// The two minutes from 2024-06-10T06:16Z on, as JJY sends them.
pub(crate) const MINUTES: [&str; 2] = [
    "M00100110M000100101M000100110M001000110M000100100M001000000M",
    "M00100111M000100101M000100110M001000100M000100100M001000000M",
];

// The report of the two minutes where each rise but the first is late.
pub(crate) const SWEPT: &str =
    "decided 3570\nphase 0\nsequence 2024-06-10T06:16Z 0 no\nnext 4410\nminute 2024-06-10T06:16Z at 0\nminute 2024-06-10T06:17Z at 60000\n";

// The sweep over the hour of the minutes.
pub(crate) const HOUR: &str =
    "sweep k.toml --seconds 120 --from 2024-06-10T06:00Z --to 2024-06-10T06:59Z";

// What is low and high in the ten tenths of a second, by symbol.
pub(crate) const JJY_WAVES: [(u8, &str); 3] = [
    (b'0', "HHHHHHHHLL"),
    (b'1', "HHHHHLLLLL"),
    (b'M', "HHLLLLLLLL"),
];

// How many tenths a log has at most.
const MOST_TENTHS: u64 = 12_000;

fn wave_of(waves: &[(u8, &'static str)], symbol: u8) -> &'static str {
    for wave in waves {
        if wave.0 == symbol {
            return wave.1;
        }
    }
    "XXXXXXXXXX"
}

// How late a receiver hears what begins: all of it so many milliseconds, and this level so many more, but for the first
// record of the log.
#[derive(Clone, Copy)]
pub(crate) struct Lag {
    pub(crate) all: u16,
    pub(crate) level: u8,
    pub(crate) more: u16,
}

// So JJY's seconds begin late, all but the first, and end in time.
pub(crate) const LATE_RISES: Lag = Lag {
    all: 0,
    level: b'H',
    more: 30,
};

fn name_of(level: u8) -> &'static str {
    match level {
        b'L' => "L",
        b'H' => "H",
        _ => "X",
    }
}

// When a level is heard that begins with a tenth.
fn time_of(tenth: u64, level: u8, lag: Lag) -> u64
    requires { tenth ≤ MOST_TENTHS }
{
    let more = if level == lag.level && tenth > 0 {
        lag.more
    } else {
        0
    };
    100 * tenth + lag.all as u64 + more as u64
}

// The log of a receiver without noise that hears these minutes from millisecond 0 on, with a lag.
pub(crate) fn heard(
    alloc: Global,
    waves: &[(u8, &'static str)],
    minutes: &[&str],
    lag: Lag,
) -> Result<String, AllocError> {
    let mut text = String::new(alloc);
    let mut tenth = 0u64;
    let mut last = b'-';
    for minute in minutes {
        for symbol in minute.bytes() {
            for level in wave_of(waves, symbol).bytes() {
                // Never reached: it bounds the sums.
                if tenth >= MOST_TENTHS {
                    return Ok(text);
                }
                if level != last {
                    let time = time_of(tenth, level, lag);
                    let name = name_of(level);
                    write!(text, "{time} {name}\n")?;
                }
                last = level;
                tenth += 1;
            }
        }
    }
    let end = time_of(tenth.min(MOST_TENTHS), b'X', lag);
    write!(text, "{end} X\n")?;
    Ok(text)
}

// A configuration and its log a.log.
pub(crate) fn files_of(alloc: Global, config: &str, log: &str) -> Result<MemoryFiles, Fail> {
    let mut files = MemoryFiles::make(alloc);
    files.put("k.toml", config.as_bytes())?;
    files.put("a.log", log.as_bytes())?;
    Ok(files)
}

// Whether a judgement of these files ends with this status, and prints this text.
pub(crate) fn judgement_tells(
    alloc: Global,
    files: &mut MemoryFiles,
    line: &str,
    status: u8,
    text: &str,
) -> Result<bool, Fail> {
    let words = words(alloc, line)?;
    let ended = judge(alloc, &words, files);
    Ok(ended == status && printed(files, text))
}

// The certificate of a phase, of as many parts as workers.
pub(crate) fn certificate(alloc: Global, phase: u16, workers: u8) -> Result<String, AllocError> {
    let mut text = String::new(alloc);
    write!(
        text,
        "tsbank certificate 1\nstation dcf77\nstart 0\nphase {phase}\nseconds 60\nfrom 52595938\nto 52596000\n"
    )?;
    write!(
        text,
        "ceiling 1920000000\nfirst 52595938\nsecond -\nworker 0\n"
    )?;
    write!(text, "O Y 0 0 52595938 52596000 0\n")?;
    write!(text, "O D 0 0 52595938 52596000 0\n")?;
    write!(text, "O H 0 0 52595938 52595940 0\n")?;
    write!(text, "L M 0 0 52595938 52595939 0\n")?;
    write!(text, "E M 0 0 52595939 52595940 -\n")?;
    write!(text, "E H 0 0 52595940 52596000 -\n")?;
    for second in 1..60 {
        write!(text, "E Y 0 {second} 52595938 52596000 -\n")?;
    }
    write!(text, "O Y 1 0 52595938 52596000 0\n")?;
    write!(text, "O D 1 0 52595938 52596000 0\n")?;
    write!(text, "O H 1 0 52595938 52595940 0\n")?;
    write!(text, "E M 1 0 52595938 52595939 -\n")?;
    write!(text, "E M 1 0 52595939 52595940 -\n")?;
    write!(text, "E H 1 0 52595940 52596000 -\n")?;
    for second in 1..61 {
        write!(text, "E Y 1 {second} 52595938 52596000 -\n")?;
    }
    for worker in 1..workers {
        write!(text, "worker {worker}\n")?;
    }
    write!(text, "end\n")?;
    Ok(text)
}
