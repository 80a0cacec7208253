//! What each command takes, and what each value may be.

ghost use Rattle.std.specs.Prelude.{◌≡◌, ◌<◌, ◌∷◌, ◌++◌, [], ℕ, bytes_eq, nat_le, option_map};
ghost use Rattle.std.specs.List.{list_any};
ghost use Rattle.definitions.specs.time.Calendar.{century_minutes};
ghost use Rattle.formats.specs.Bytes.{station_name};
ghost use Rattle.formats.specs.Words.{certificate_option, form_of, search_options, window_options};
ghost use Rattle.formats.specs.WordValues.{kind_of, suits};
ghost use Rattle.formats.specs.declared.option.OptionName.TheVariants.{Count, Minute, Readers, Step};
ghost use Rattle.formats.specs.Options.{option_text};
ghost use Rattle.formats.specs.declared.words.Command.TheVariants.{Encode};
ghost use Rattle.bank_words.specs.Own.{own_words};

use definitions::CENTURY_MINUTES;
use formats::{
    Command, LEAST_COUNT, LEAST_READERS, LEAST_STEP, LEAST_WORKERS, MOST_COUNT, MOST_NUMBER,
    MOST_READERS, MOST_STEP, MOST_WORKERS, OptionName, ValueKind, last_minutes_suit,
};
use signal_base::{LEAST_SECONDS, MOST_SECONDS, START_LIMIT, Station};

/// The commands of one run over files.
pub const RUN_COMMANDS: [Command; 8] = [
    Command::Decode,
    Command::Check,
    Command::Feed,
    Command::Encode {
        station: Station::Dcf77,
    },
    Command::Encode {
        station: Station::Msf,
    },
    Command::Encode {
        station: Station::Wwvb,
    },
    Command::Encode {
        station: Station::Jjy,
    },
    Command::Trial,
];

/// The commands that go beyond it.
pub const REACH_COMMANDS: [Command; 6] = [
    Command::Follow,
    Command::Sweep,
    Command::Judge,
    Command::Board,
    Command::Irig,
    Command::IrigRead,
];

/// The option that names the file for a certificate.
pub const CERTIFICATE: &str = "--certificate";

// The name of a station.
fn station_name(station: Station) -> &'static str
    ensures { result.now ≡ station_name station }
{
    match station {
        Station::Dcf77 => "dcf77",
        Station::Msf => "msf",
        Station::Wwvb => "wwvb",
        Station::Jjy => "jjy",
    }
}

/// The words that a command begins with: one, or two if it names a station.
pub fn words_of(command: Command) -> (&'static str, Option<&'static str>)
    ensures { (form_of command).words ≡ own_words result.0.now (option_map (λ name. name.now) result.1) }
{
    match command {
        Command::Decode => ("decode", None),
        Command::Check => ("check", None),
        Command::Feed => ("feed", None),
        Command::Encode { station } => ("encode", Some(station_name(station))),
        Command::Trial => ("trial", None),
        Command::Follow => ("follow", None),
        Command::Sweep => ("sweep", None),
        Command::Judge => ("judge", None),
        Command::Board => ("board", None),
        Command::Irig => ("irig", None),
        Command::IrigRead => ("irig-read", None),
    }
}

/// How many places stand behind the words of a command.
pub fn places_of(command: Command) -> usize
    ensures { result ≡ (form_of command).places }
{
    match command {
        Command::Check | Command::Judge | Command::Board => 2,
        _ => 1,
    }
}

// The options of every command that reads logs.
fn is_window_option(word: &str) -> bool
    ensures { result ≡ list_any (bytes_eq word.now) window_options }
{
    match word {
        "--start" => true,
        "--seconds" => true,
        "--from" => true,
        "--to" => true,
        _ => false,
    }
}

// The options of every command that searches.
fn is_search_option(word: &str) -> bool
    ensures { result ≡ list_any (bytes_eq word.now) search_options }
{
    match word {
        "--workers" => true,
        _ => is_window_option(word),
    }
}

// The options of every command that writes a certificate, if it is asked for one.
fn is_certified_option(word: &str) -> bool
    ensures { result ≡ list_any (bytes_eq word.now) (search_options ++ certificate_option ∷ []) }
{
    is_search_option(word) || word == CERTIFICATE
}

// The options of every command that searches one window after the other.
fn is_step_option(word: &str) -> bool
    ensures { result ≡ list_any (bytes_eq word.now) (search_options ++ option_text Step ∷ option_text Count ∷ []) }
{
    match word {
        "--step" => true,
        "--count" => true,
        _ => is_search_option(word),
    }
}

// The options of a board.
fn is_board_option(word: &str) -> bool
    ensures { result ≡ list_any (bytes_eq word.now) (search_options ++ option_text Step ∷ option_text Count ∷ option_text Readers ∷ []) }
{
    match word {
        "--readers" => true,
        _ => is_step_option(word),
    }
}

/// Whether a command takes the option.
pub fn takes(command: Command, word: &str) -> bool
    ensures { result ≡ list_any (bytes_eq word.now) (form_of command).options }
{
    match command {
        Command::Decode | Command::Sweep => is_certified_option(word),
        Command::Check | Command::Judge => is_window_option(word),
        Command::Feed | Command::Irig => is_search_option(word),
        Command::Encode { .. } => word == "--leap",
        Command::Trial => word == "--workers",
        Command::Follow => is_step_option(word),
        Command::Board => is_board_option(word),
        Command::IrigRead => false,
    }
}

/// What the text of a value may be.
pub fn kind_of(name: OptionName) -> ValueKind
    ensures { result ≡ kind_of name }
{
    match name {
        OptionName::Number => ValueKind::Number {
            least: 0,
            most: MOST_NUMBER as u64,
        },
        OptionName::Minute | OptionName::From | OptionName::To => ValueKind::Minute,
        OptionName::Start => ValueKind::Number {
            least: 0,
            most: START_LIMIT - 1,
        },
        OptionName::Seconds => ValueKind::Number {
            least: LEAST_SECONDS as u64,
            most: MOST_SECONDS as u64,
        },
        OptionName::Workers => ValueKind::Number {
            least: LEAST_WORKERS as u64,
            most: MOST_WORKERS as u64,
        },
        OptionName::Leap => ValueKind::Number { least: 0, most: 1 },
        OptionName::Step => ValueKind::Number {
            least: LEAST_STEP as u64,
            most: MOST_STEP as u64,
        },
        OptionName::Count => ValueKind::Number {
            least: LEAST_COUNT as u64,
            most: MOST_COUNT as u64,
        },
        OptionName::Readers => ValueKind::Number {
            least: LEAST_READERS as u64,
            most: MOST_READERS as u64,
        },
    }
}

/// The last minute that a station can be asked to send, counted from 2000-01-01T00:00Z: the last whose year, in the
/// station's own time and where it sends the fields of the next minute in that one, is 2099.
pub fn last_minute(station: Station) -> u32
    ensures { (t : ℕ) → t < century_minutes → suits (Encode station) Minute t ≡ nat_le t result }
{
    last_minutes_suit();
    match station {
        // 22:58 UTC of 31 December 2099
        Station::Dcf77 => CENTURY_MINUTES - 62,
        // 23:58
        Station::Msf => CENTURY_MINUTES - 2,
        // 23:59
        Station::Wwvb => CENTURY_MINUTES - 1,
        // 14:59
        Station::Jjy => CENTURY_MINUTES - 541,
    }
}
