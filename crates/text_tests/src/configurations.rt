//! Worked configurations, and what becomes of each.

use crate::made::check_row;
use bank_config::{CONFIG_LIMIT, Config, ConfigFault, Key, Receiver, read_config};
use signal_base::{CostTable, Station};
use std::alloc::{AllocError, Global};
use std::process::Abort;

pub(crate) fn read(rt: &(impl Abort + AllocGlobal), text: &[u8]) -> Result<Config, ConfigFault> {
    assert!(rt; text.len() <= CONFIG_LIMIT);
    read_config(rt.alloc(), text)
}

// What is wrong with a text.
pub(crate) fn fault_in(rt: &(impl Abort + AllocGlobal), text: &[u8]) -> Option<ConfigFault> {
    read(rt, text).err()
}

pub(crate) fn missing(key: Key) -> ConfigFault {
    ConfigFault::Missing { key }
}

pub(crate) fn wrong_kind(key: Key) -> ConfigFault {
    ConfigFault::WrongKind { key }
}

pub(crate) fn out_of_range(key: Key) -> ConfigFault {
    ConfigFault::OutOfRange { key }
}

// The text of some pieces, each so many times.
pub(crate) fn text_of(alloc: Global, pieces: &[(&str, usize)]) -> Result<String, AllocError> {
    let mut text = String::new(alloc);
    for (piece, times) in pieces {
        for _ in 0..*times {
            text.push_str(piece)?;
        }
    }
    Ok(text)
}

// What is wrong with that text.
fn fault_of(rt: &(impl Abort + AllocGlobal), pieces: &[(&str, usize)]) -> Option<ConfigFault> {
    match text_of(rt.alloc(), pieces) {
        Ok(text) => fault_in(rt, text.as_bytes()),
        Err(_) => panic!(rt; "no memory for a text"),
    }
}

// What stands before the lists of a cost table.
const BEFORE_LISTS: &str = "station = \"jjy\"\nreceiver = [{name = \"a\", log = \"a\"}]\n[table]\n";

const WRONG_LOW: Option<ConfigFault> = Some(ConfigFault::WrongKind {
    key: Key::Low { receiver: None },
});

const LOW_OUT_OF_RANGE: Option<ConfigFault> = Some(ConfigFault::OutOfRange {
    key: Key::Low { receiver: None },
});

const WRONG_HIGH: Option<ConfigFault> = Some(ConfigFault::WrongKind {
    key: Key::High { receiver: None },
});

const HIGH_OUT_OF_RANGE: Option<ConfigFault> = Some(ConfigFault::OutOfRange {
    key: Key::High { receiver: None },
});

// A list by its key, how many ones it has, its last number, and what is wrong with it.
const LISTS: [(&str, usize, &str, Option<ConfigFault>); 9] = [
    ("low", 99, "1", WRONG_LOW),
    ("low", 101, "1", WRONG_LOW),
    ("low", 100, "1.0", WRONG_LOW),
    ("low", 100, "201", LOW_OUT_OF_RANGE),
    ("low", 100, "-1", LOW_OUT_OF_RANGE),
    ("low", 100, "200", None),
    ("high", 99, "1", WRONG_HIGH),
    ("high", 100, "201", HIGH_OUT_OF_RANGE),
    ("high", 100, "0", None),
];

// What is wrong with a configuration that has the list `KEY = [1, 1, .., LAST]` of so many ones and a last number.
fn fault_of_list<'a>(
    rt: &(impl Abort + AllocGlobal),
    key: &'a str,
    ones: usize,
    last: &'a str,
) -> Option<ConfigFault> {
    let pieces = [
        (BEFORE_LISTS, 1),
        (key, 1),
        (" = [", 1),
        ("1, ", ones),
        (last, 1),
        ("]\n", 1),
    ];
    fault_of(rt, &pieces)
}

// What is wrong where both lists are, the later one first.
fn fault_of_both_lists(rt: &(impl Abort + AllocGlobal)) -> Option<ConfigFault> {
    let pieces = [
        (BEFORE_LISTS, 1),
        ("high = [", 1),
        ("1, ", 99),
        ("1]\nlow = [", 1),
        ("1, ", 100),
        ("201]\n", 1),
    ];
    fault_of(rt, &pieces)
}

#[test]
fn judges_the_cost_table(rt: HostRuntime) {
    for (key, ones, last, fault) in &LISTS {
        let found = fault_of_list(&rt, key, *ones, last);
        check_row(&rt, found == *fault, last);
    }
    assert!(rt; fault_of_both_lists(&rt) == LOW_OUT_OF_RANGE);
}

// What a second may cost at the most, and what is out of its range or no whole number.
const SECONDS: [&str; 4] = ["1", "2", "1_999", "2000"];

const SECONDS_OUT_OF_RANGE: [&str; 6] = [
    "0",
    "-1",
    "2001",
    "65536",
    "65537",
    "9223372036854775807",
];

const NO_SECONDS: [&str; 6] = ["1.0", "\"1\"", "[1]", "{}", "true", "1e2"];

// These are all judged so in the table that stands behind this text.
fn judges_seconds<'a>(
    rt: &(impl Abort + AllocGlobal),
    before: &'a str,
    values: &[&'a str],
    fault: Option<ConfigFault>,
) {
    for value in values {
        let found = fault_of(rt, &[(before, 1), ("second = ", 1), (*value, 1), ("\n", 1)]);
        check_row(rt, found == fault, value);
    }
}

#[test]
fn judges_what_a_second_costs(rt: HostRuntime) {
    let key = Key::Second { receiver: None };
    judges_seconds(&rt, BANK_AND_TABLE, &SECONDS, None);
    judges_seconds(
        &rt,
        BANK_AND_TABLE,
        &SECONDS_OUT_OF_RANGE,
        Some(out_of_range(key)),
    );
    judges_seconds(&rt, BANK_AND_TABLE, &NO_SECONDS, Some(wrong_kind(key)));
    let key = Key::Second { receiver: Some(1) };
    judges_seconds(&rt, BANK_AND_OWN_TABLE, &SECONDS, None);
    judges_seconds(
        &rt,
        BANK_AND_OWN_TABLE,
        &SECONDS_OUT_OF_RANGE,
        Some(out_of_range(key)),
    );
    judges_seconds(&rt, BANK_AND_OWN_TABLE, &NO_SECONDS, Some(wrong_kind(key)));
}

// What is checked of a configuration that is read.
#[derive(Clone, Copy)]
enum Check {
    Little,
    Whole,
    // Of the bank's cost table: the first, the last but one and the last of both lists, and what a second costs at the most.
    Costs([u8; 6], Option<u16>),
    // The same of the first receiver's own table, where the second receiver has none.
    Own([u8; 6], Option<u16>),
}

// What owns the configuration does nothing else: each place at which it may be dropped is proved.
fn is_read(rt: &(impl Abort + AllocGlobal), text: &[u8], check: Check) -> bool {
    match read(rt, text) {
        Ok(config) => holds(&config, check),
        Err(_) => false,
    }
}

fn holds(config: &Config, check: Check) -> bool {
    match check {
        Check::Little => config.station == Station::Wwvb && config.ceiling == 1_920_000_000,
        Check::Whole => says_its_values(config) && says_its_receivers(&config.receivers),
        Check::Costs(costs, most) => is_table(&config.table, costs, most),
        Check::Own(costs, most) => has_first_own(&config.receivers, costs, most),
    }
}

fn says_its_values(config: &Config) -> bool {
    config.station == Station::Jjy && config.ceiling == 0 && config.table == CostTable::default()
}

fn says_its_receivers(receivers: &[Receiver]) -> bool {
    let [first, second] = receivers else {
        return false;
    };
    is_receiver(first, ("a-_9", "b/c"), (500, 100), Station::Msf)
        && is_receiver(second, ("a-_9", "d"), (0, 1), Station::Jjy)
}

// Whether a receiver has this name and this log, is so much delayed, has this weight, and is of that station.
fn is_receiver(
    receiver: &Receiver,
    texts: (&str, &str),
    numbers: (u16, u8),
    station: Station,
) -> bool {
    receiver.name.as_str() == texts.0
        && receiver.file.as_str() == texts.1
        && receiver.tuning.delay == numbers.0
        && receiver.tuning.weight == numbers.1
        && receiver.tuning.table.is_none()
        && receiver.station == station
}

const LITTLE: &[u8] = b"station = \"wwvb\"\nreceiver = [{name = \"0\", log = \"a\"}]\n";

const WHOLE: &[u8] =
    b"station = \"jjy\"\nceiling = 0\n[[receiver]]\nname = \"a-_9\"\nlog = \"b/c\"\ndelay_ms = 500\nweight = 100\nstation = \"msf\"\n[[receiver]]\nname = \"a-_9\"\nlog = \"d\"\n";

#[test]
fn reads_what_is_said(rt: HostRuntime) {
    assert!(rt; is_read(&rt, LITTLE, Check::Little));
    assert!(rt; is_read(&rt, WHOLE, Check::Whole));
}

// Heads of texts, and what stands behind them so many times.
const UNITS: [(&str, &str, usize); 7] = [
    ("", "[[a]]\n", 166_666),
    ("", "[a]\n", 250_000),
    ("a", ".a", 499_999),
    ("a = [", "1,", 499_997),
    ("a = ", "[", 999_996),
    ("a = ", "{a=", 333_332),
    ("a = \"", "x", 999_995),
];

// The most bytes that a configuration may have, all of one shape.
#[test]
fn ends_on_a_million_bytes(rt: HostRuntime) {
    for (head, unit, count) in &UNITS {
        let fault = fault_of(&rt, &[(*head, 1), (*unit, *count)]);
        check_row(&rt, fault.is_some(), unit);
    }
    let fault = fault_of(&rt, &[("#", CONFIG_LIMIT)]);
    assert!(rt; fault == Some(missing(Key::Station)));
}

const BAD_NAME: Option<ConfigFault> = Some(ConfigFault::OutOfRange {
    key: Key::Name { receiver: 1 },
});

const BAD_LOG: Option<ConfigFault> = Some(ConfigFault::OutOfRange {
    key: Key::File { receiver: 1 },
});

// The longest that they may be, a byte more, and the characters beside those that a name may have.
const NAMES_AND_LOGS: [(&str, usize, &str, usize, Option<ConfigFault>); 8] = [
    ("a", 32, "b", 200, None),
    ("a", 33, "b", 200, BAD_NAME),
    ("a", 32, "b", 201, BAD_LOG),
    ("az09_-", 1, "b-", 1, None),
    ("`", 1, "b", 1, BAD_NAME),
    ("{", 1, "b", 1, BAD_NAME),
    ("/", 1, "b", 1, BAD_NAME),
    (":", 1, "b", 1, BAD_NAME),
];

// What is wrong with a configuration of one receiver whose name and log are so many times these.
fn fault_of_named<'a>(
    rt: &(impl Abort + AllocGlobal),
    name: (&'a str, usize),
    log: (&'a str, usize),
) -> Option<ConfigFault> {
    let pieces = [
        ("station = \"jjy\"\n[[receiver]]\nname = \"", 1),
        name,
        ("\"\nlog = \"", 1),
        log,
        ("\"\n", 1),
    ];
    fault_of(rt, &pieces)
}

#[test]
fn judges_names_and_logs(rt: HostRuntime) {
    for (name, times, log, log_times, fault) in &NAMES_AND_LOGS {
        let found = fault_of_named(&rt, (*name, *times), (*log, *log_times));
        check_row(&rt, found == *fault, name);
    }
}

// A configuration of one receiver, and the same with a cost table to come, the bank's or the receiver's own.
const BANK: &str = "station = \"jjy\"\n[[receiver]]\nname = \"a\"\nlog = \"b\"\n";

const BANK_AND_TABLE: &str =
    "station = \"jjy\"\n[[receiver]]\nname = \"a\"\nlog = \"b\"\n[table]\n";

const BANK_AND_OWN_TABLE: &str =
    "station = \"jjy\"\n[[receiver]]\nname = \"a\"\nlog = \"b\"\n[receiver.table]\n";

// Whether a list of a hundred ones and a last cost under this key gives these costs.
fn gives_costs<'a>(
    rt: &(impl Abort + AllocGlobal),
    key: &'a str,
    last: &'a str,
    costs: [u8; 6],
) -> bool {
    let pieces = [
        (BANK_AND_TABLE, 1),
        (key, 1),
        (" = [", 1),
        ("1, ", 100),
        (last, 1),
        ("]\n", 1),
    ];
    match text_of(rt.alloc(), &pieces) {
        Ok(text) => is_read(rt, text.as_bytes(), Check::Costs(costs, None)),
        Err(_) => false,
    }
}

fn costs_of(table: &CostTable) -> [u8; 6] {
    let (low, high) = (&table.low, &table.high);
    [low[0], low[99], low[100], high[0], high[99], high[100]]
}

// Whether a table has these costs, and this bound of what a second costs.
fn is_table(table: &CostTable, costs: [u8; 6], most: Option<u16>) -> bool {
    costs_of(table) == costs && table.second == most
}

// Whether the first of two receivers has such a table of its own, and the second none.
fn has_first_own(receivers: &[Receiver], costs: [u8; 6], most: Option<u16>) -> bool {
    let [first, second] = receivers else {
        return false;
    };
    match &first.tuning.table {
        Some(table) => is_table(table, costs, most) && second.tuning.table.is_none(),
        None => false,
    }
}

// The costs of the table that counts the milliseconds that differ.
const USUAL: [u8; 6] = [100, 1, 0, 0, 99, 100];

// Lines of the bank's table, and what a second costs at the most by them.
const GIVEN_SECONDS: [(&str, Option<u16>); 3] = [
    ("", None),
    ("second = 1\n", Some(1)),
    ("second = 2000\n", Some(2_000)),
];

#[test]
fn reads_what_a_second_costs(rt: HostRuntime) {
    for (line, most) in &GIVEN_SECONDS {
        let is_so = match text_of(rt.alloc(), &[(BANK_AND_TABLE, 1), (*line, 1)]) {
            Ok(text) => is_read(&rt, text.as_bytes(), Check::Costs(USUAL, *most)),
            Err(_) => false,
        };
        check_row(&rt, is_so, line);
    }
}

// What stands behind a receiver's own table: a receiver without one, and a table of the bank in which all is given, up to its lists.
const BEHIND_OWN_TABLE: &str =
    "[[receiver]]\nname = \"c\"\nlog = \"d\"\n[table]\nsecond = 40\nlow = [";

// A receiver's own table: its text, of which the middle stands a hundred times, and its costs. What it leaves out is as in the
// usual table and not as in the bank's.
const OWN_TABLES: [(&str, &str, &str, [u8; 6], Option<u16>); 5] = [
    ("", "", "", USUAL, None),
    ("second = 150\n", "", "", USUAL, Some(150)),
    ("low = [", "7, ", "7]\n", [7, 7, 7, 0, 99, 100], None),
    ("high = [", "7, ", "7]\n", [100, 1, 0, 7, 7, 7], None),
    (
        "second = 2000\nhigh = [",
        "7, ",
        "7]\n",
        [100, 1, 0, 7, 7, 7],
        Some(2_000),
    ),
];

// The configuration with this table of a receiver's own.
fn text_with_own<'a>(
    alloc: Global,
    own: (&'a str, &'a str, &'a str),
) -> Result<String, AllocError> {
    let pieces = [
        (BANK_AND_OWN_TABLE, 1),
        (own.0, 1),
        (own.1, 100),
        (own.2, 1),
        (BEHIND_OWN_TABLE, 1),
        ("3, ", 100),
        ("3]\nhigh = [", 1),
        ("5, ", 100),
        ("5]\n", 1),
    ];
    text_of(alloc, &pieces)
}

#[test]
fn reads_tables_of_receivers(rt: HostRuntime) {
    let of_bank = Check::Costs([3, 3, 3, 5, 5, 5], Some(40));
    for (head, unit, tail, costs, most) in &OWN_TABLES {
        let is_so = match text_with_own(rt.alloc(), (*head, *unit, *tail)) {
            Ok(text) => {
                is_read(&rt, text.as_bytes(), Check::Own(*costs, *most))
                    && is_read(&rt, text.as_bytes(), of_bank)
            }
            Err(_) => false,
        };
        check_row(&rt, is_so, head);
    }
}

// A list of costs stands under its own key, and the other list is the usual one.
#[test]
fn reads_costs(rt: HostRuntime) {
    assert!(rt; gives_costs(&rt, "low", "200", [1, 1, 200, 0, 99, 100]));
    assert!(rt; gives_costs(&rt, "high", "0", [100, 1, 0, 1, 1, 0]));
}

// None of these keys is known, where it stands between these.
fn knows_none<'a>(
    rt: &(impl Abort + AllocGlobal),
    before: &'a str,
    keys: &[&'a str],
    behind: &'a str,
) {
    for key in keys {
        let pieces = [(before, 1), (*key, 1), (" = 1\n", 1), (behind, 1)];
        let fault = fault_of(rt, &pieces);
        check_row(rt, fault == Some(ConfigFault::UnknownKey), key);
    }
}

const NOT_AT_THE_TOP: [&str; 7] = ["name", "log", "delay_ms", "weight", "low", "high", "second"];

const NOT_OF_A_RECEIVER: [&str; 5] = ["ceiling", "receiver", "low", "high", "second"];

const NOT_OF_A_TABLE: [&str; 6] = ["station", "ceiling", "receiver", "table", "name", "log"];

// A key that is known in one place is unknown in another.
#[test]
fn knows_keys_in_their_places(rt: HostRuntime) {
    knows_none(&rt, "", &NOT_AT_THE_TOP, BANK);
    knows_none(&rt, BANK, &NOT_OF_A_RECEIVER, "");
    knows_none(&rt, BANK_AND_TABLE, &NOT_OF_A_TABLE, "");
    knows_none(&rt, BANK_AND_OWN_TABLE, &NOT_OF_A_TABLE, "");
}

// What is wrong with a list of so many empty tables, behind a comment that is no table.
fn fault_of_tables(rt: &(impl Abort + AllocGlobal), count: usize) -> Option<ConfigFault> {
    let pieces = [
        (" # ", 1),
        ("[", count),
        ("\nx = [", 1),
        ("{},", count),
        ("]\n", 1),
    ];
    fault_of(rt, &pieces)
}

// The list itself counts as one.
#[test]
fn bounds_the_tables_of_a_text(rt: HostRuntime) {
    assert!(rt; fault_of_tables(&rt, 79_999) == Some(missing(Key::Station)));
    assert!(rt; fault_of_tables(&rt, 80_000) == Some(ConfigFault::NoMemory));
}
