//! Command lines as one types them, and what becomes of each.

use crate::made::parted;
use bank_words::{WordFault, read_reach, read_words};
use std::alloc::{AllocError, Global};
use std::process::Abort;

// Each table is one text, a line for each row: so it is proved soonest.

// Each command with what stands at its places, whether it is one of a run or beyond it, and its options.
const COMMANDS: &str = "decode k.toml|run|--start --seconds --from --to --workers --certificate
check k.toml x.cert|run|--start --seconds --from --to
feed k.toml|run|--start --seconds --from --to --workers
encode dcf77 2024-06-10T06:15Z|run|--leap
trial 0|run|--workers
follow k.toml|beyond|--start --seconds --from --to --workers --step --count
sweep k.toml|beyond|--start --seconds --from --to --workers --certificate
judge k.toml s|beyond|--start --seconds --from --to
board k.toml q.txt|beyond|--start --seconds --from --to --workers --step --count --readers
irig k.toml|beyond|--start --seconds --from --to --workers
irig-read f.txt|beyond|";

// Each option with a good value.
const OPTIONS: &str = "--start|7
--seconds|60
--from|2024-06-10T00:00Z
--to|2024-06-10T23:59Z
--workers|8
--leap|1
--step|60
--count|2
--readers|4
--certificate|x.cert";

// Lines that are out of order: a command `C` with its places, an option `O` and its value `V`.
const OUT_OF_ORDER: &str = "C O V O V
C O
C O\u{20}
C O -V
C O=V
O V C
C -- O V
C  O V
C O V more
C V O";

// Each value that is a number: the line before it, whether that is of a run, what becomes of a bad value, the ends of its
// range, and the first numbers outside.
const NUMBERS: &str = "trial|run|number NUMBER|0 4294967295|4294967296 x
decode k.toml --start|run|number --start|0 999999999999|1000000000000 x
check k.toml x.cert --seconds|run|number --seconds|60 1200|59 1201
feed k.toml --workers|run|number --workers|1 8|0 9
trial 1 --workers|run|number --workers|1 8|0 9
encode msf 2016-12-31T23:58Z --leap|run|number --leap|0 1|2 x
follow k.toml --step|beyond|number --step|1 1200|0 1201
board k.toml q.txt --count|beyond|number --count|1 1000|0 1001
board k.toml q.txt --readers|beyond|number --readers|1 4|0 5";

// Texts `C V` that are no number: with needless zeros, a sign, a fraction, beyond 64 bits, in another base or script.
const NO_NUMBERS: &str = "C 0V
C 00V
C +V
C V.0
C V_
C 18446744073709551616
C 0x1
C \u{661}";

// Where a minute may stand, and what becomes of what is none.
const PLACES_OF_MINUTES: &str = "decode k.toml --from|minute --from
decode k.toml --to|minute --to
encode wwvb|minute MINUTE";

// The minutes that may stand there, and texts that are no minute's.
const MINUTES: &str = "2000-01-01T00:00Z
2096-02-29T12:34Z
2099-12-31T23:59Z";

const NO_MINUTES: &str = "1999-12-31T23:59Z
2100-01-01T00:00Z
2024-02-30T00:00Z
2023-02-29T00:00Z
2024-13-01T00:00Z
2024-06-00T00:00Z
2024-06-10T24:00Z
2024-06-10T06:60Z
2024-06-10T06:15
2024-06-10T06:15z
2024-06-10t06:15Z
2024-06-10T06:15:00Z
+2024-06-10T06:15Z
12854880";

// Bad values in the order in which they are checked, and what becomes of each.
const BAD_VALUES: [(&str, &str); 9] = [
    (" --start x", "number --start"),
    (" --seconds 59", "number --seconds"),
    (" --from 2024-02-30T00:00Z", "minute --from"),
    (" --to 2100-01-01T00:00Z", "minute --to"),
    (" --workers 9", "number --workers"),
    (" --step 0", "number --step"),
    (" --count 0", "number --count"),
    (" --readers 5", "number --readers"),
    (" --from 2024-01-02T00:00Z --to 2024-01-01T00:00Z", "empty"),
];

// Single lines of a run.
const LINES: &str = "encode dcf77 2099-12-31T22:58Z|good
encode dcf77 2099-12-31T22:59Z|minute MINUTE
encode msf 2099-12-31T23:58Z|good
encode msf 2099-12-31T23:59Z|minute MINUTE
encode wwvb 2099-12-31T23:59Z|good
encode wwvb 2100-01-01T00:00Z|minute MINUTE
encode jjy 2099-12-31T14:59Z|good
encode jjy 2099-12-31T15:00Z|minute MINUTE
encode jjy 2099-12-31T15:00Z --leap 2|minute MINUTE
encode bpc 2024-02-30T00:00Z --leap 2|usage
encode MSF 2024-02-29T00:00Z|usage
encode dcf77|usage
encode|usage
trial 01 --workers 9|number NUMBER
trial 1 --workers 9|number --workers
decode|usage
decode k.toml --seconds 59|number --seconds
decode k.toml --seconds=60|usage
decode k.toml --from 2024-02-30T00:00Z|minute --from
decode k.toml --from 2024-01-02T00:00Z --to 2024-01-01T00:00Z|empty
decode k.toml --seconds 59 --what 1|usage
decode -|usage
decode |usage
check k.toml|usage
--help|usage
|usage";

// A line of a form, of a run or beyond it, with what stands in the places of `C`, `O` and `V`.
#[derive(Clone, Copy)]
struct Typed<'a> {
    of_run: bool,
    form: &'a str,
    command: &'a str,
    option: &'a str,
    value: &'a str,
}

impl<'a> Typed<'a> {
    fn in_form(self, form: &'a str) -> Typed<'a> {
        Typed { form, ..self }
    }

    fn with_value(self, value: &'a str) -> Typed<'a> {
        Typed { value, ..self }
    }
}

// A line as it stands.
fn plain(of_run: bool, line: &str) -> Typed<'_> {
    Typed {
        of_run,
        form: "C",
        command: line,
        option: "",
        value: "",
    }
}

// The line at the beginning of a row, which says whether it is of a run, and the rest of the row.
fn line_and_rest<'a>(rt: &impl Abort, row: &'a str) -> (Typed<'a>, &'a str) {
    let (line, rest) = parted(rt, row);
    let (kind, rest) = parted(rt, rest);
    (plain(kind == "run", line), rest)
}

// Adds what stands in the place of a letter.
fn push_letter(line: &mut String, typed: &Typed<'_>, letter: char) -> Result<(), AllocError> {
    match letter {
        'C' => line.push_str(typed.command),
        'O' => line.push_str(typed.option),
        'V' => line.push_str(typed.value),
        _ => line.push(letter),
    }
}

fn line_of(alloc: Global, typed: &Typed<'_>) -> Result<String, AllocError> {
    let mut line = String::new(alloc);
    for letter in typed.form.chars() {
        push_letter(&mut line, typed, letter)?;
    }
    Ok(line)
}

// The words of a line, parted by single spaces.
fn words_in(alloc: Global, line: &str) -> Result<Vec<String>, AllocError> {
    let mut words = Vec::new(alloc);
    for word in line.split(' ') {
        words.push(String::from_str(alloc, word)?)?;
    }
    Ok(words)
}

fn words_of(alloc: Global, typed: &Typed<'_>) -> Result<Vec<String>, AllocError> {
    let line = line_of(alloc, typed)?;
    words_in(alloc, &line)
}

// What is wrong with a line.
fn fault_of(alloc: Global, typed: &Typed<'_>) -> Result<Option<WordFault>, AllocError> {
    let words = words_of(alloc, typed)?;
    if typed.of_run {
        Ok(read_words(&words).err())
    } else {
        Ok(read_reach(&words).err())
    }
}

// What becomes of a line in the words of the tables: of which kind its fault is, and in which value.
fn told(fault: Option<WordFault>) -> (&'static str, &'static str) {
    match fault {
        None => ("good", ""),
        Some(WordFault::Usage) => ("usage", ""),
        Some(WordFault::BadNumber { option }) => ("number", option.as_str()),
        Some(WordFault::BadMinute { option }) => ("minute", option.as_str()),
        Some(WordFault::EmptyRange) => ("empty", ""),
    }
}

fn is_told(fault: Option<WordFault>, due: &str) -> bool {
    let (kind, value) = told(fault);
    let (due_kind, due_value) = due.split_once(' ').unwrap_or((due, ""));
    kind == due_kind && value == due_value
}

// Whether no words at all are refused, of a run and beyond it.
fn are_no_words_usage(alloc: Global) -> bool {
    let none = Vec::new(alloc);
    is_told(read_words(&none).err(), "usage") && is_told(read_reach(&none).err(), "usage")
}

// The tests own no line and no words: what a test owns may be dropped at each of its places, and each of them is proved.
fn expect(rt: &(impl Abort + AllocGlobal), typed: Typed<'_>, due: &str) {
    let is_so = match fault_of(rt.alloc(), &typed) {
        Ok(fault) => is_told(fault, due),
        Err(_) => false,
    };
    assert!(rt;
        is_so,
        "{}: {} {} {}",
        typed.form, typed.command, typed.option, typed.value
    );
}

// Lines of each of these forms, of which the same becomes.
fn expect_each(rt: &(impl Abort + AllocGlobal), typed: Typed<'_>, forms: &str, due: &str) {
    for form in forms.split('\n') {
        expect(rt, typed.in_form(form), due);
    }
}

// What becomes of an option with a good value, behind a command that takes these.
fn due_of(options: &str, option: &str) -> &'static str {
    for own in options.split(' ') {
        if own == option {
            return "good";
        }
    }
    "usage"
}

// An option behind a command that takes these, in its place and out of order.
fn one_option(rt: &(impl Abort + AllocGlobal), command: Typed<'_>, options: &str, row: &str) {
    let (option, value) = parted(rt, row);
    let typed = Typed {
        option,
        value,
        ..command
    };
    expect(rt, typed.in_form("C O V"), due_of(options, option));
    expect_each(rt, typed, OUT_OF_ORDER, "usage");
}

// A command with none of the options, and with each of them.
fn one_command(rt: &(impl Abort + AllocGlobal), row: &str) {
    let (command, options) = line_and_rest(rt, row);
    expect(rt, command, "good");
    expect(rt, plain(!command.of_run, command.command), "usage");
    for option in OPTIONS.split('\n') {
        one_option(rt, command, options, option);
    }
}

#[test]
fn options_of_commands(rt: HostRuntime) {
    for row in COMMANDS.split('\n') {
        one_command(&rt, row);
    }
}

// Numbers behind a line, and the texts that are made of them and are no number.
fn good_numbers(rt: &(impl Abort + AllocGlobal), typed: Typed<'_>, values: &str, bad: &str) {
    for value in values.split(' ') {
        let typed = typed.with_value(value);
        expect(rt, typed, "good");
        expect_each(rt, typed, NO_NUMBERS, bad);
    }
}

// The ends of a range, and what lies outside or is no number.
fn one_range(rt: &(impl Abort + AllocGlobal), row: &str) {
    let (line, rest) = line_and_rest(rt, row);
    let (bad, rest) = parted(rt, rest);
    let (ends, others) = parted(rt, rest);
    let typed = line.in_form("C V");
    good_numbers(rt, typed, ends, bad);
    for value in others.split(' ') {
        expect(rt, typed.with_value(value), bad);
    }
}

#[test]
fn numbers_of_ranges(rt: HostRuntime) {
    for row in NUMBERS.split('\n') {
        one_range(&rt, row);
    }
}

// Each of these texts where a minute may stand.
fn expect_minutes(rt: &(impl Abort + AllocGlobal), typed: Typed<'_>, minutes: &str, due: &str) {
    for minute in minutes.split('\n') {
        expect(rt, typed.with_value(minute), due);
    }
}

#[test]
fn minutes_of_the_century(rt: HostRuntime) {
    for row in PLACES_OF_MINUTES.split('\n') {
        let (line, bad) = parted(&rt, row);
        let typed = plain(true, line).in_form("C V");
        expect_minutes(&rt, typed, MINUTES, "good");
        expect_minutes(&rt, typed, NO_MINUTES, bad);
    }
}

// A bad value with one that is checked later, whichever stands first: it is told. An empty range comes last, and its options can't
// stand there twice.
fn two_values<'a>(
    rt: &(impl Abort + AllocGlobal),
    first: (&'a str, &'a str),
    second: (&'a str, &'a str),
) {
    let (option, due) = first;
    let (value, later) = second;
    if later == "empty" && due.starts_with("minute") {
        return;
    }
    let typed = Typed {
        of_run: false,
        form: "CVO",
        command: "board k.toml q.txt",
        option,
        value,
    };
    expect(rt, typed, due);
}

#[test]
fn first_bad_values(rt: HostRuntime) {
    let values = &BAD_VALUES;
    for i in 0..9usize {
        for k in i + 1..9 {
            two_values(&rt, values[i], values[k]);
        }
    }
}

#[test]
fn single_lines(rt: HostRuntime) {
    for row in LINES.split('\n') {
        let (line, due) = parted(&rt, row);
        expect(&rt, plain(true, line), due);
    }
    assert!(rt; are_no_words_usage(rt.alloc()));
}
