//! What the words of the command line are read into: commands, values, and what is wrong with words.

use crate::OptionName;
use signal_base::Station;

/// A command, by the words that it begins with.
#[derive(Clone, Copy)]
pub enum Command {
    /// `decode CONFIG`: the cheapest sequence of the logs of a configuration.
    Decode,
    /// `check CONFIG CERTIFICATE`: whether a certificate shows it.
    Check,
    /// `feed CONFIG`: its seconds as sentences of NMEA 0183.
    Feed,
    /// `encode STATION MINUTE`: what a station sends in a minute.
    Encode {
        /// The station, whose name is the second word.
        station: Station,
    },
    /// `trial NUMBER`: a decode of logs that are made from a number.
    Trial,
    /// `follow CONFIG`: a decode of one window after the other.
    Follow,
    /// `sweep CONFIG`: a decode over several phases.
    Sweep,
    /// `judge CONFIG CERTIFICATE`: whether the certificates of a sweep show it.
    Judge,
    /// `board CONFIG QUERIES`: a clock that is asked while it is set.
    Board,
    /// `irig CONFIG`: the decoded seconds as pulses of IRIG-B.
    Irig,
    /// `irig-read FILE`: what such pulses tell.
    IrigRead,
}

/// What the text of a value may be.
#[derive(Clone, Copy)]
pub enum ValueKind {
    /// Decimal digits without a needless zero, of a number in a range.
    Number {
        /// The least number.
        least: u64,
        /// The greatest number.
        most: u64,
    },
    /// A minute of the years 2000 to 2099 as `YYYY-MM-DDThh:mmZ`.
    Minute,
}

/// Which window of the logs is asked about, and in which minutes it may begin.
#[derive(Clone, Copy)]
pub struct Asked {
    /// The millisecond of the receivers' clock at which the window starts, below 1,000,000,000,000. If none is given, the
    /// time of the first record decides.
    pub start: Option<u64>,
    /// How many seconds the window has, 60 to 1,200.
    pub seconds: u16,
    /// The first minute in which it may begin, counted from 2000-01-01T00:00Z.
    pub from: u32,
    /// The minute after the last in which it may begin, at most 52,596,000.
    pub to: u32,
}

/// All values that words can give: each of them the given one or its default.
#[derive(Clone, Copy)]
pub struct Values {
    /// NUMBER, which has no default.
    pub number: Option<u32>,
    /// MINUTE, counted from 2000-01-01T00:00Z, which has no default.
    pub minute: Option<u32>,
    /// `--start`, `--seconds`, `--from` and `--to`.
    pub asked: Asked,
    /// `--workers`.
    pub workers: u8,
    /// `--leap`.
    pub leap: bool,
    /// `--step`, in seconds.
    pub step: u16,
    /// `--count`.
    pub count: u16,
    /// `--readers`.
    pub readers: u8,
}

/// What is wrong with words.
#[derive(Clone, Copy, Debug, PartialEq, Eq)]
pub enum WordFault {
    /// They don't follow the grammar of commands, places and options.
    Usage,
    /// They do, and the first bad value is no number, or none of its range.
    BadNumber {
        /// The value.
        option: OptionName,
    },
    /// They do, and the first bad value is no minute, or none that the station can send.
    BadMinute {
        /// The value.
        option: OptionName,
    },
    /// All values are good, and `--to` is before `--from`.
    EmptyRange,
}

/// The greatest NUMBER of a trial.
pub const MOST_NUMBER: u32 = 4_294_967_295;

/// How many seconds a window has unless `--seconds` says otherwise.
pub const DEFAULT_SECONDS: u16 = 180;

/// The fewest workers.
pub const LEAST_WORKERS: u8 = 1;

/// The most workers.
pub const MOST_WORKERS: u8 = 8;

/// How many workers search unless `--workers` says otherwise.
pub const DEFAULT_WORKERS: u8 = 4;

/// The fewest seconds from one window to the next.
pub const LEAST_STEP: u16 = 1;

/// The most seconds from one window to the next.
pub const MOST_STEP: u16 = 1_200;

/// How many seconds lie from one window to the next unless `--step` says otherwise.
pub const DEFAULT_STEP: u16 = 60;

/// The fewest windows that are followed.
pub const LEAST_COUNT: u16 = 1;

/// The most windows that are followed.
pub const MOST_COUNT: u16 = 1_000;

/// How many windows are followed unless `--count` says otherwise.
pub const DEFAULT_COUNT: u16 = 10;

/// The fewest readers of a board.
pub const LEAST_READERS: u8 = 1;

/// The most readers of a board.
pub const MOST_READERS: u8 = 4;

/// How many readers a board has unless `--readers` says otherwise.
pub const DEFAULT_READERS: u8 = 2;
