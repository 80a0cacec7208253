//! Reading words.

ghost use Rattle.std.specs.Prelude.{◌≡◌, ◌<◌, IfOk, Some, false, length, option_map, true};
ghost use Rattle.formats.specs.OrderRanges.{IsInRange};
ghost use Rattle.formats.specs.Orders.{certificate_of, file_at, order_of, order_with};
ghost use Rattle.formats.specs.Orders.{Order as PlainOrder};
ghost use Rattle.formats.specs.Words.{is_run, reach_commands, run_commands};
ghost use Rattle.bank_words.specs.Gives.{Gives};
ghost use Rattle.bank_words.specs.Seen.{order_seen, parts_seen, reach_seen, texts_of};

use crate::grammar::{line_in, value_behind};
use crate::line::Line;
use crate::table::{CERTIFICATE, REACH_COMMANDS, RUN_COMMANDS};
use crate::values::values_of;
use crate::{Order, Reach};
use formats::{Command, Values, WordFault, orders_are_in_range, words_keep_to_their_commands};
use signal_base::Station;

// The name of a file at a place.
fn file_at<'a>(line: &Line<'a>, place: usize) -> &'a str
    requires { place < length line.now.places.now }
    ensures { result.now ≡ file_at place (parts_seen line.now) }
{
    line.places[place].as_str()
}

// The name of the file for a certificate, if one is asked for.
fn certificate_of<'a>(line: &Line<'a>) -> Option<&'a str>
    ensures { option_map (λ name. name.now) result ≡ certificate_of (parts_seen line.now) }
{
    value_behind(CERTIFICATE, line.pairs)
}

// The order of a line of a run with these values, if those are given that its command can't do without.
fn run_order<'a>(line: &Line<'a>, values: &Values) -> Option<Order<'a>>
    requires { is_run line.now.command ≡ true }
    ensures { option_map order_seen result ≡ order_with line.now.command (parts_seen line.now) values.now }
{
    let asked = values.asked;
    let workers = values.workers;
    let order = match line.command {
        Command::Decode => Order::Decode {
            config: file_at(line, 0),
            asked,
            workers,
            certificate: certificate_of(line),
        },
        Command::Check => Order::Check {
            config: file_at(line, 0),
            certificate: file_at(line, 1),
            asked,
        },
        Command::Feed => Order::Feed {
            config: file_at(line, 0),
            asked,
            workers,
        },
        Command::Encode { station } => return encode_order(station, values),
        Command::Trial => return trial_order(values),
        _ => unreachable!(),
    };
    Some(order)
}

// The order of an encode, if a minute is given.
fn encode_order<'a>(station: Station, values: &Values) -> Option<Order<'a>>
    ensures { option_map order_seen result ≡ option_map (λ minute. PlainOrder.Encode station minute values.now.leap) values.now.minute }
{
    let minute = values.minute?;
    Some(Order::Encode {
        station,
        minute,
        leap: values.leap,
    })
}

// The order of a trial, if a number is given.
fn trial_order<'a>(values: &Values) -> Option<Order<'a>>
    ensures { option_map order_seen result ≡ option_map (λ number. PlainOrder.Trial number values.now.workers) values.now.number }
{
    let number = values.number?;
    Some(Order::Trial {
        number,
        workers: values.workers,
    })
}

// The order of a board with these values.
fn board_order<'a>(line: &Line<'a>, values: &Values) -> Reach<'a>
    requires { 1 < length line.now.places.now }
    ensures { order_with Command.Board (parts_seen line.now) values.now ≡ Some (reach_seen result) }
{
    Reach::Board {
        config: file_at(line, 0),
        queries: file_at(line, 1),
        asked: values.asked,
        workers: values.workers,
        step: values.step,
        count: values.count,
        readers: values.readers,
    }
}

// The order of a line beyond a run with these values.
fn reach_order<'a>(line: &Line<'a>, values: &Values) -> Reach<'a>
    requires { is_run line.now.command ≡ false }
    ensures { order_with line.now.command (parts_seen line.now) values.now ≡ Some (reach_seen result) }
{
    let asked = values.asked;
    let workers = values.workers;
    match line.command {
        Command::Follow => Reach::Follow {
            config: file_at(line, 0),
            asked,
            workers,
            step: values.step,
            count: values.count,
        },
        Command::Sweep => Reach::Sweep {
            config: file_at(line, 0),
            asked,
            workers,
            certificate: certificate_of(line),
        },
        Command::Judge => Reach::Judge {
            config: file_at(line, 0),
            certificate: file_at(line, 1),
            asked,
        },
        Command::Board => board_order(line, values),
        Command::Irig => Reach::Irig {
            config: file_at(line, 0),
            asked,
            workers,
        },
        Command::IrigRead => Reach::IrigRead {
            file: file_at(line, 0),
        },
        _ => unreachable!(),
    }
}

/// Reads the words of a run, without the program's name: `decode`, `check`, `feed`, `encode` or `trial`.
///
/// `Usage` comes exactly where the words don't follow the grammar; else `BadNumber` or `BadMinute` exactly where a value is
/// bad, for the first one in the order NUMBER, MINUTE, `--start`, `--seconds`, `--from`, `--to`, `--workers`, `--leap`; else
/// `EmptyRange` exactly where `--to` is before `--from`. What is read is in its ranges.
pub fn read_words(words: &[String]) -> Result<Order<'_>, WordFault>
    ensures value { Gives order_seen result (order_of run_commands (texts_of words.now)) }
    ensures ranges { IfOk result (λ order. IsInRange (order_seen order)) }
{
    words_keep_to_their_commands();
    orders_are_in_range();
    let Some(line) = line_in(&RUN_COMMANDS, words) else {
        return Err(WordFault::Usage);
    };
    let values = values_of(&line)?;
    match run_order(&line, &values) {
        Some(order) => Ok(order),
        None => Err(WordFault::Usage),
    }
}

/// Reads words beyond a run: `follow`, `sweep`, `judge`, `board`, `irig` or `irig-read`. The faults come as those of
/// [`read_words`] do; behind `--workers` the values of `--step`, `--count` and `--readers` are checked.
pub fn read_reach(words: &[String]) -> Result<Reach<'_>, WordFault>
    ensures value { Gives reach_seen result (order_of reach_commands (texts_of words.now)) }
    ensures ranges { IfOk result (λ order. IsInRange (reach_seen order)) }
{
    words_keep_to_their_commands();
    orders_are_in_range();
    let Some(line) = line_in(&REACH_COMMANDS, words) else {
        return Err(WordFault::Usage);
    };
    let values = values_of(&line)?;
    Ok(reach_order(&line, &values))
}
