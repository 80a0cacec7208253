//! What standard error says of a run that ends without an answer. Where standard error fails, nothing changes.
use crate::command_line::NoWords;
use certificates::MOST_STEPS;
use due::Status;
use machine_files::Failure;

/// Which program speaks.
#[derive(Clone, Copy)]
pub enum Speaker {
    /// The decoder.
    Tsbank,
    /// The program that shows what was heard.
    Tsheard,
}

impl Speaker {
    /// Its name.
    pub fn name(self) -> &'static str {
        match self {
            Speaker::Tsbank => "tsbank",
            Speaker::Tsheard => "tsheard",
        }
    }

    // Which words it takes.
    fn usage(self) -> &'static str {
        match self {
            Speaker::Tsbank => USAGE,
            Speaker::Tsheard => HEARD_USAGE,
        }
    }
}

const HEARD_USAGE: &str =
    "usage: tsheard CONFIG [--start N] [--seconds N] [--from MINUTE] [--to MINUTE]\n  CONFIG     the path of the configuration, which doesn't begin with -\n  MINUTE     a UTC minute, YYYY-MM-DDThh:mmZ, from 2000-01-01T00:00Z to 2099-12-31T23:59Z\n  --start    the first millisecond of the window, from 0 to 999999999999; else where the logs begin\n  --seconds  the length of the window, from 60 to 1200; else 180\n  --from     the first minute in which the window may begin; else the first of the century\n  --to       the last of these minutes; else the last of the century";

const USAGE: &str =
    "usage: tsbank decode CONFIG [--start N] [--seconds N] [--from MINUTE] [--to MINUTE] [--workers N] [--certificate FILE]\n       tsbank check CONFIG CERTIFICATE [--start N] [--seconds N] [--from MINUTE] [--to MINUTE]\n       tsbank feed CONFIG [the options of decode but the last]\n       tsbank encode STATION MINUTE [--leap 0|1]\n       tsbank trial NUMBER [--workers N]\n       tsbank irig CONFIG [the options of feed]\n       tsbank irig-read FILE\n       tsbank follow CONFIG [the options of feed] [--step N] [--count N]\n       tsbank sweep CONFIG [the options of decode]\n       tsbank judge CONFIG NAME [the options of check]\n       tsbank board CONFIG QUERIES [the options of follow] [--readers N]\n  CONFIG     the path of the configuration, which doesn't begin with -\n  CERTIFICATE  the path of a certificate, which doesn't begin with -\n  STATION    dcf77, msf, wwvb or jjy\n  MINUTE     a UTC minute, YYYY-MM-DDThh:mmZ, from 2000-01-01T00:00Z to 2099-12-31T23:59Z\n  FILE       the path of a file, which doesn't begin with -\n  NAME       how the paths of certificates begin, which doesn't begin with -: a dot and an offset stand behind it\n  QUERIES    the path of a file of milliseconds, one on each line, which doesn't begin with -\n  NUMBER     the number of the trial, from 0 to 4294967295\n  --start    the first millisecond of the window, from 0 to 999999999999; else where the logs begin\n  --seconds  the length of the window, from 60 to 1200; else 180\n  --from     the first minute in which the window may begin; else the first of the century\n  --to       the last of these minutes; else the last of the century\n  --workers  how many workers search, from 1 to 8; else 4\n  --certificate  the file to which the certificate of the answer is written; else none is\n  --leap     1 where a leap second is announced; else 0\n  --step     how many seconds each window starts after the one before, from 1 to 1200; else 60\n  --count    how many windows are decoded, from 1 to 1000; else 10\n  --readers  how many readers ask, from 1 to 4; else 2";

/// Says why a run ended with this status: a summary of the words, the latest failure of a file, or that there
/// was no memory. After another status it says nothing.
pub fn explain<E: Eprint>(error: &E, speaker: Speaker, status: u8, failure: Option<&Failure>) {
    if status == Status::BadWords.code() {
        explain_words(error, speaker);
    } else if status == Status::NoMemory.code() {
        explain_memory(error, speaker);
    } else if status == Status::Failed.code() {
        if let Some(failure) = failure {
            let name = speaker.name();
            let _ = eprintln!(error; "{name}: {failure}");
        }
    }
}

/// Says of a certificate with so many steps that no check will take it, where that is so, and what makes a shorter one.
pub fn explain_steps<E: Eprint>(error: &E, steps: u64) {
    if steps > u64::from(MOST_STEPS) {
        let _ = eprintln!(error;
            "tsbank: a certificate has {steps} steps, and check refuses more than {MOST_STEPS}: a narrower range, a second receiver or a lower ceiling makes fewer"
        );
    }
}

/// Says why a run ended that had no words.
pub fn explain_no_words<E: Eprint>(error: &E, speaker: Speaker, why: NoWords) {
    match why {
        NoWords::NotText => {
            let name = speaker.name();
            let _ = eprintln!(error; "{name}: a word isn't UTF-8");
            explain_words(error, speaker);
        }
        NoWords::NoMemory => explain_memory(error, speaker),
    }
}

fn explain_memory<E: Eprint>(error: &E, speaker: Speaker) {
    let name = speaker.name();
    let _ = eprintln!(error; "{name}: out of memory");
}

// The summary of the words, a line at a time: a call of standard error bears a bounded number of interruptions.
fn explain_words<E: Eprint>(error: &E, speaker: Speaker) {
    for line in speaker.usage().lines() {
        let _ = error.eprintln(line);
    }
}
