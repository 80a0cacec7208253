//! What words ask for. All texts are borrowed from the words.

use formats::Asked;
use signal_base::Station;

/// What the words of a run ask for.
#[derive(Clone, Copy)]
pub enum Order<'a> {
    /// `decode CONFIG`: the cheapest sequence of the logs of a configuration.
    Decode {
        /// The name of the configuration's file.
        config: &'a str,
        /// Which window is asked about.
        asked: Asked,
        /// How many workers search, 1 to 8.
        workers: u8,
        /// The name of the file for a certificate, if one is asked for.
        certificate: Option<&'a str>,
    },
    /// `check CONFIG CERTIFICATE`: whether a certificate shows it.
    Check {
        /// The name of the configuration's file.
        config: &'a str,
        /// The name of the certificate's file.
        certificate: &'a str,
        /// Which window is asked about.
        asked: Asked,
    },
    /// `feed CONFIG`: its seconds as sentences.
    Feed {
        /// The name of the configuration's file.
        config: &'a str,
        /// Which window is asked about.
        asked: Asked,
        /// How many workers search, 1 to 8.
        workers: u8,
    },
    /// `encode STATION MINUTE`: what a station sends in a minute.
    Encode {
        /// The station.
        station: Station,
        /// The minute, counted from 2000-01-01T00:00Z, one that the station can send.
        minute: u32,
        /// Whether a leap second is announced.
        leap: bool,
    },
    /// `trial NUMBER`: a decode of logs that are made from a number.
    Trial {
        /// The number.
        number: u32,
        /// How many workers search, 1 to 8.
        workers: u8,
    },
}

/// What words beyond a run ask for.
#[derive(Clone, Copy)]
pub enum Reach<'a> {
    /// `follow CONFIG`: a decode of one window after the other.
    Follow {
        /// The name of the configuration's file.
        config: &'a str,
        /// Which window is the first.
        asked: Asked,
        /// How many workers search, 1 to 8.
        workers: u8,
        /// How many seconds each window starts after the one before, 1 to 1,200.
        step: u16,
        /// How many windows there are, 1 to 1,000.
        count: u16,
    },
    /// `sweep CONFIG`: a decode over several phases.
    Sweep {
        /// The name of the configuration's file.
        config: &'a str,
        /// Which window is asked about.
        asked: Asked,
        /// How many workers search, 1 to 8.
        workers: u8,
        /// How the names of the files for certificates begin, if these are asked for.
        certificate: Option<&'a str>,
    },
    /// `judge CONFIG CERTIFICATE`: whether the certificates of a sweep show it.
    Judge {
        /// The name of the configuration's file.
        config: &'a str,
        /// How the names of the certificates' files begin.
        certificate: &'a str,
        /// Which window is asked about.
        asked: Asked,
    },
    /// `board CONFIG QUERIES`: a clock that is asked while it is set.
    Board {
        /// The name of the configuration's file.
        config: &'a str,
        /// The name of the file with the questions.
        queries: &'a str,
        /// Which window is the first.
        asked: Asked,
        /// How many workers search, 1 to 8.
        workers: u8,
        /// How many seconds each window starts after the one before, 1 to 1,200.
        step: u16,
        /// How many windows there are, 1 to 1,000.
        count: u16,
        /// How many readers ask, 1 to 4.
        readers: u8,
    },
    /// `irig CONFIG`: the decoded seconds as pulses.
    Irig {
        /// The name of the configuration's file.
        config: &'a str,
        /// Which window is asked about.
        asked: Asked,
        /// How many workers search, 1 to 8.
        workers: u8,
    },
    /// `irig-read FILE`: what such pulses tell.
    IrigRead {
        /// The name of the file with the pulses.
        file: &'a str,
    },
}
