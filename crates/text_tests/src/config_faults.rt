//! Configurations with one fault, and with each two faults: the one that is judged first decides.

use crate::configurations::{fault_in, missing, out_of_range, text_of, wrong_kind};
use bank_config::{ConfigFault, Key};
use std::alloc::{AllocError, Global};
use std::process::Abort;
use std::test::Fail;

// The places of a configuration's lines, in the order in which they are judged. Each of the two receivers has nine, from that of its
// name on, of which the last three are of its own cost table.
const STATION: usize = 0;

const CEILING: usize = 1;

const RECEIVER: usize = 2;

const FIRST: usize = 3;

const SECOND: usize = 12;

const TABLE: usize = 21;

const LOW: usize = 22;

const HIGH: usize = 23;

const MOST: usize = 24;

const UNKNOWN: usize = 25;

const UNKNOWN_OF_RECEIVER: usize = 26;

const UNKNOWN_OF_OWN_TABLE: usize = 27;

const UNKNOWN_OF_TABLE: usize = 28;

const PLACES: usize = 29;

// The values of a receiver, in the order in which its lines stand.
const NAME: usize = 0;

const FILE: usize = 1;

const DELAY: usize = 2;

const WEIGHT: usize = 3;

const OWN_STATION: usize = 4;

const OWN_TABLE: usize = 5;

const OWN_LOW: usize = 6;

const OWN_HIGH: usize = 7;

const OWN_MOST: usize = 8;

// A line that is at fault.
#[derive(Clone, Copy)]
struct BadLine<'a> {
    place: usize,
    line: &'a str,
    fault: ConfigFault,
}

// A line that is at no place.
const NOWHERE: BadLine<'static> = BadLine {
    place: PLACES,
    line: "",
    fault: ConfigFault::UnknownKey,
};

// The lines of a configuration with no fault. Its receivers and the cost tables stand under headers, and so not at their
// own places, where other kinds of values may stand.
const LINES: [&str; PLACES] = [
    "station = \"jjy\"\n",
    "ceiling = 7\n",
    "",
    "name = \"a\"\n",
    "log = \"a\"\n",
    "delay_ms = 1\n",
    "weight = 2\n",
    "station = \"msf\"\n",
    "",
    "",
    "",
    "second = 1\n",
    "name = \"b\"\n",
    "log = \"b\"\n",
    "delay_ms = 1\n",
    "weight = 2\n",
    "station = \"msf\"\n",
    "",
    "",
    "",
    "",
    "",
    "",
    "",
    "second = 2000\n",
    "",
    "",
    "",
    "",
];

// The line of a place: that of the first fault, else that of the second, else one without a fault.
fn line_at<'a>(place: usize, first: BadLine<'a>, second: BadLine<'a>) -> &'a str {
    if place == first.place {
        return first.line;
    }
    if place == second.place {
        return second.line;
    }
    let lines = &LINES;
    if place < PLACES { lines[place] } else { "" }
}

// The pieces of a configuration: the two places where another value may stand for it, what stands before its line, and its place.
// The first five stand before the first header, and nothing stands for them.
const PIECES: [(usize, usize, &str, usize); 29] = [
    (PLACES, PLACES, "", STATION),
    (PLACES, PLACES, "", CEILING),
    (PLACES, PLACES, "", UNKNOWN),
    (PLACES, PLACES, "", TABLE),
    (PLACES, PLACES, "", RECEIVER),
    (RECEIVER, PLACES, "[[receiver]]\n", FIRST + NAME),
    (RECEIVER, PLACES, "", FIRST + FILE),
    (RECEIVER, PLACES, "", FIRST + DELAY),
    (RECEIVER, PLACES, "", FIRST + WEIGHT),
    (RECEIVER, PLACES, "", FIRST + OWN_STATION),
    (RECEIVER, PLACES, "", FIRST + OWN_TABLE),
    (
        RECEIVER,
        FIRST + OWN_TABLE,
        "[receiver.table]\n",
        FIRST + OWN_LOW,
    ),
    (RECEIVER, FIRST + OWN_TABLE, "", FIRST + OWN_HIGH),
    (RECEIVER, FIRST + OWN_TABLE, "", FIRST + OWN_MOST),
    (RECEIVER, FIRST + OWN_TABLE, "", UNKNOWN_OF_OWN_TABLE),
    (RECEIVER, PLACES, "[[receiver]]\n", SECOND + NAME),
    (RECEIVER, PLACES, "", SECOND + FILE),
    (RECEIVER, PLACES, "", SECOND + DELAY),
    (RECEIVER, PLACES, "", SECOND + WEIGHT),
    (RECEIVER, PLACES, "", SECOND + OWN_STATION),
    (RECEIVER, PLACES, "", UNKNOWN_OF_RECEIVER),
    (RECEIVER, PLACES, "", SECOND + OWN_TABLE),
    (
        RECEIVER,
        SECOND + OWN_TABLE,
        "[receiver.table]\n",
        SECOND + OWN_LOW,
    ),
    (RECEIVER, SECOND + OWN_TABLE, "", SECOND + OWN_HIGH),
    (RECEIVER, SECOND + OWN_TABLE, "", SECOND + OWN_MOST),
    (TABLE, PLACES, "[table]\n", LOW),
    (TABLE, PLACES, "", HIGH),
    (TABLE, PLACES, "", MOST),
    (TABLE, PLACES, "", UNKNOWN_OF_TABLE),
];

// The configuration with these two faults.
fn text_with(alloc: Global, first: BadLine<'_>, second: BadLine<'_>) -> Result<String, AllocError> {
    let mut text = String::new(alloc);
    for (whole, part, header, place) in &PIECES {
        if line_at(*whole, first, second).is_empty() && line_at(*part, first, second).is_empty() {
            text.push_str(header)?;
            text.push_str(line_at(*place, first, second))?;
        }
    }
    Ok(text)
}

// What is wrong with a value.
#[derive(Clone, Copy)]
enum Wrong {
    Missing,
    Kind,
    Range,
}

// How many are judged before the receivers, of each receiver, of the bank's cost table and last.
const TOP: usize = 14;

const OWN: usize = 29;

const COSTS: usize = 9;

const LAST: usize = 4;

// How many there are.
const BAD_LINES: usize = TOP + 2 * OWN + COSTS + LAST;

// What is judged before the receivers. A line without a key stands for one that is missing.
const BAD_AT_THE_TOP: [(usize, &str, Wrong, Key); TOP] = [
    (STATION, "\n", Wrong::Missing, Key::Station),
    (STATION, "station = 1\n", Wrong::Kind, Key::Station),
    (STATION, "station = \"bpc\"\n", Wrong::Range, Key::Station),
    (CEILING, "ceiling = 1.0\n", Wrong::Kind, Key::Ceiling),
    (CEILING, "ceiling = -1\n", Wrong::Range, Key::Ceiling),
    (
        CEILING,
        "ceiling = 1920000001\n",
        Wrong::Range,
        Key::Ceiling,
    ),
    (RECEIVER, "\n", Wrong::Missing, Key::Receiver),
    (RECEIVER, "receiver = 1\n", Wrong::Kind, Key::Receiver),
    (RECEIVER, "receiver = {}\n", Wrong::Kind, Key::Receiver),
    (RECEIVER, "receiver = [1]\n", Wrong::Kind, Key::Receiver),
    (RECEIVER, "receiver = [{}, 1]\n", Wrong::Kind, Key::Receiver),
    (
        RECEIVER,
        "receiver = [1, 1, 1, 1, 1, 1, 1, 1, 1]\n",
        Wrong::Kind,
        Key::Receiver,
    ),
    (RECEIVER, "receiver = []\n", Wrong::Range, Key::Receiver),
    (
        RECEIVER,
        "receiver = [{}, {}, {}, {}, {}, {}, {}, {}, {}]\n",
        Wrong::Range,
        Key::Receiver,
    ),
];

// What is judged of a receiver, its own cost table last. The lists that are out of range are made in memory: an empty line
// stands for them here.
const BAD_OF_RECEIVER: [(usize, &str, Wrong); OWN] = [
    (NAME, "\n", Wrong::Missing),
    (NAME, "name = 1\n", Wrong::Kind),
    (NAME, "name = \"\"\n", Wrong::Range),
    (NAME, "name = \"A\"\n", Wrong::Range),
    (
        NAME,
        "name = \"abcdefghijklmnopqrstuvwxyz_-01234\"\n",
        Wrong::Range,
    ),
    (FILE, "\n", Wrong::Missing),
    (FILE, "log = 1\n", Wrong::Kind),
    (FILE, "log = \"\"\n", Wrong::Range),
    (FILE, "log = \"-\"\n", Wrong::Range),
    (DELAY, "delay_ms = \"1\"\n", Wrong::Kind),
    (DELAY, "delay_ms = 501\n", Wrong::Range),
    (DELAY, "delay_ms = -1\n", Wrong::Range),
    (WEIGHT, "weight = 1.0\n", Wrong::Kind),
    (WEIGHT, "weight = 0\n", Wrong::Range),
    (WEIGHT, "weight = 101\n", Wrong::Range),
    (WEIGHT, "weight = -1\n", Wrong::Range),
    (WEIGHT, "weight = 9223372036854775807\n", Wrong::Range),
    (OWN_STATION, "station = 1\n", Wrong::Kind),
    (OWN_STATION, "station = [\"jjy\"]\n", Wrong::Kind),
    (OWN_STATION, "station = \"bpc\"\n", Wrong::Range),
    (OWN_STATION, "station = \"JJY\"\n", Wrong::Range),
    (OWN_TABLE, "table = 1\n", Wrong::Kind),
    (OWN_LOW, "low = 1\n", Wrong::Kind),
    (OWN_LOW, "", Wrong::Range),
    (OWN_HIGH, "high = 1\n", Wrong::Kind),
    (OWN_HIGH, "", Wrong::Range),
    (OWN_MOST, "second = 1.0\n", Wrong::Kind),
    (OWN_MOST, "second = 0\n", Wrong::Range),
    (OWN_MOST, "second = 2001\n", Wrong::Range),
];

// What is judged of the bank's cost table, behind the receivers. An empty line stands for the lists that are out of range.
const BAD_OF_TABLE: [(usize, &str, Wrong); COSTS] = [
    (TABLE, "table = 1\n", Wrong::Kind),
    (TABLE, "table = []\n", Wrong::Kind),
    (LOW, "low = 1\n", Wrong::Kind),
    (LOW, "", Wrong::Range),
    (HIGH, "high = 1\n", Wrong::Kind),
    (HIGH, "", Wrong::Range),
    (MOST, "second = \"1\"\n", Wrong::Kind),
    (MOST, "second = 0\n", Wrong::Range),
    (MOST, "second = 2001\n", Wrong::Range),
];

// What is judged last.
const UNKNOWN_LINES: [(usize, &str); LAST] = [
    (UNKNOWN, "other = {}\n"),
    (UNKNOWN_OF_RECEIVER, "x = 1\n"),
    (UNKNOWN_OF_OWN_TABLE, "x = 1\n"),
    (UNKNOWN_OF_TABLE, "x = 1\n"),
];

fn fault_at(wrong: Wrong, key: Key) -> ConfigFault {
    match wrong {
        Wrong::Missing => missing(key),
        Wrong::Kind => wrong_kind(key),
        Wrong::Range => out_of_range(key),
    }
}

// One of those that are judged before the receivers.
fn at_the_top(number: usize) -> BadLine<'static> {
    match BAD_AT_THE_TOP.get(number) {
        Some((place, line, wrong, key)) => BadLine {
            place: *place,
            line,
            fault: fault_at(*wrong, *key),
        },
        None => NOWHERE,
    }
}

// The keys of a receiver, by its values.
fn key_of(value: usize, receiver: u8) -> Key {
    let own = Some(receiver);
    match value {
        NAME => Key::Name { receiver },
        FILE => Key::File { receiver },
        DELAY => Key::Delay { receiver },
        WEIGHT => Key::Weight { receiver },
        OWN_STATION => Key::ReceiverStation { receiver },
        OWN_TABLE => Key::CostTable { receiver: own },
        OWN_LOW => Key::Low { receiver: own },
        OWN_HIGH => Key::High { receiver: own },
        _ => Key::Second { receiver: own },
    }
}

// The keys of the bank's cost table, by their places.
fn table_key(place: usize) -> Key {
    let receiver = None;
    match place {
        TABLE => Key::CostTable { receiver },
        LOW => Key::Low { receiver },
        HIGH => Key::High { receiver },
        _ => Key::Second { receiver },
    }
}

// One of those of a receiver, whose lines begin at this place, with these lists out of range.
fn of_receiver<'a>(
    number: usize,
    at: usize,
    receiver: u8,
    low: &'a str,
    high: &'a str,
) -> BadLine<'a> {
    if number >= OWN {
        return NOWHERE;
    }
    let rows = &BAD_OF_RECEIVER;
    let (value, own, wrong) = rows[number];
    let line = if !own.is_empty() {
        own
    } else if value == OWN_LOW {
        low
    } else {
        high
    };
    BadLine {
        place: at.saturating_add(value),
        line,
        fault: fault_at(wrong, key_of(value, receiver)),
    }
}

// One of those of the bank's cost table, with these lists out of range.
fn of_table<'a>(number: usize, low: &'a str, high: &'a str) -> BadLine<'a> {
    if number >= COSTS {
        return NOWHERE;
    }
    let rows = &BAD_OF_TABLE;
    let (place, own, wrong) = rows[number];
    let line = if !own.is_empty() {
        own
    } else if place == LOW {
        low
    } else {
        high
    };
    BadLine {
        place,
        line,
        fault: fault_at(wrong, table_key(place)),
    }
}

// One of those that are judged last.
fn unknown(number: usize) -> BadLine<'static> {
    match UNKNOWN_LINES.get(number) {
        Some((place, line)) => BadLine {
            place: *place,
            line,
            fault: ConfigFault::UnknownKey,
        },
        None => NOWHERE,
    }
}

// One of all of them, in the order in which they are judged.
fn bad_line<'a>(number: usize, low: &'a str, high: &'a str) -> BadLine<'a> {
    if number < TOP {
        return at_the_top(number);
    }
    let number = number - TOP;
    if number < OWN {
        return of_receiver(number, FIRST, 1, low, high);
    }
    let number = number - OWN;
    if number < OWN {
        return of_receiver(number, SECOND, 2, low, high);
    }
    let number = number - OWN;
    if number < COSTS {
        return of_table(number, low, high);
    }
    unknown(number - COSTS)
}

// What is told of the configuration with these two faults.
fn told(
    rt: &(impl Abort + AllocGlobal),
    first: BadLine<'_>,
    second: BadLine<'_>,
) -> Option<ConfigFault> {
    match text_with(rt.alloc(), first, second) {
        Ok(text) => fault_in(rt, text.as_bytes()),
        Err(_) => panic!(rt; "no memory for a text"),
    }
}

fn first_decides(rt: &(impl Abort + AllocGlobal), first: BadLine<'_>, second: BadLine<'_>) {
    let fault = told(rt, first, second);
    assert!(rt;
        fault == Some(first.fault),
        "{} and {}",
        first.line,
        second.line
    );
}

// Each fault alone, and with each of those that are judged later.
fn first_of_two_decides(rt: &(impl Abort + AllocGlobal), low: &str, high: &str) {
    for i in 0..BAD_LINES {
        let first = bad_line(i, low, high);
        for k in i..BAD_LINES {
            first_decides(rt, first, bad_line(k, low, high));
        }
    }
}

#[test]
fn first_fault_decides(rt: HostRuntime) -> Result<(), Fail> {
    let low = text_of(rt.alloc(), &[("low = [", 1), ("1, ", 100), ("201]\n", 1)])?;
    let high = text_of(rt.alloc(), &[("high = [", 1), ("1, ", 100), ("201]\n", 1)])?;
    first_of_two_decides(&rt, &low, &high);
    Ok(())
}

#[test]
fn these_lines_have_no_fault(rt: HostRuntime) {
    assert!(rt; told(&rt, NOWHERE, NOWHERE).is_none());
}

#[test]
fn refuses_what_is_no_toml(rt: HostRuntime) {
    for text in [
        b"station = jjy\n".as_slice(),
        b"station = \"jjy\"\nstation = \"jjy\"\n",
        b"station = \"\xFF\"\n",
        b"station = 9223372036854775808\n",
    ] {
        assert!(rt; fault_in(&rt, text) == Some(ConfigFault::NotToml));
    }
    assert!(rt; fault_in(&rt, b"") == Some(missing(Key::Station)));
}
