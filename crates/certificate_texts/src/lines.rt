//! The lines of a certificate as texts: its head, its steps, and its last lines.

ghost use Rattle.std.specs.Prelude.{◌≡◌, ◌+◌, ◌*◌, ◌<◌, ◌≤◌, ◌-◌, ◌++◌, ◌∷◌, nat_lt, if◌then◌else◌, [], Some, codes, length};
ghost use Rattle.arrayvec.specs.ArrayString.{array_string_len};
ghost use Rattle.signal_base.specs.declared.station.Station.{Station};
ghost use Rattle.definitions.specs.codes.Allowed.{has_station, stations_of};
ghost use Rattle.formats.specs.Bytes.{line, space, station_name};
ghost use Rattle.formats.specs.Refusals.{named_key};
ghost use Rattle.certificates.specs.declared.limits.TheConstants.{MOST_PARTS};
ghost use Rattle.certificates.specs.Texts.{announced_text, entries_text, entry_line, head_entries, kind_text, part_entries, span_text, stations_text, version_of};
ghost use Rattle.certificates.specs.Texts.Entry.{Part, Step};
ghost use Rattle.certificate_texts.specs.declared.lines.TheConstants.{HEAD_ROOM, STEP_ROOM, TAIL_ROOM};
ghost use Rattle.certificate_texts.specs.Layout.{empty_parts};

use arrayvec::ArrayString;
use bank_files::push_number;
use certificates::{Head, Kind, Line, MOST_PARTS, ONE_STATION, SEVERAL_STATIONS};
use definitions::Span;
use signal_base::{Station, Stations};

/// The most bytes of a step's line.
pub const STEP_ROOM: usize = 96;

/// The most bytes of a certificate's head, with the first line of its first part.
pub const HEAD_ROOM: usize = 512;

/// The most bytes of the lines of empty parts, and of the last line.
pub const TAIL_ROOM: usize = 256;

/// A step's line.
pub type StepLine = ArrayString<STEP_ROOM>;

/// A head's lines.
pub type HeadText = ArrayString<HEAD_ROOM>;

/// The last lines.
pub type TailText = ArrayString<TAIL_ROOM>;

/// The line of a step.
pub fn step_line(step: &Line) -> StepLine
    ensures { result.bytes ≡ entry_line (Step step.now) }
{
    let mut text = StepLine::new();
    text.push_str(kind_word(step.kind));
    text.push_str(" ");
    text.push_str(span_word(step.block.span));
    text.push_str(" ");
    text.push_str(announced_word(step.block.announced));
    text.push_str(" ");
    push_number(&mut text, step.block.second as u64);
    text.push_str(" ");
    push_number(&mut text, step.block.lo as u64);
    text.push_str(" ");
    push_number(&mut text, step.block.hi as u64);
    text.push_str(" ");
    push_named(&mut text, wide(step.bound));
    text.push_str("\n");
    text
}

fn wide(bound: Option<u32>) -> Option<u64>
    ensures { result ≡ bound }
{
    match bound {
        None => None,
        Some(bound) => Some(bound as u64),
    }
}

fn kind_word(kind: Kind) -> &'static str
    ensures word { result.now ≡ kind_text kind }
    ensures short { length result.now ≡ 1 }
{
    match kind {
        Kind::Opened => "O",
        Kind::Pruned => "P",
        Kind::Empty => "E",
        Kind::Leaf => "L",
    }
}

fn span_word(span: Span) -> &'static str
    ensures word { result.now ≡ span_text span }
    ensures short { length result.now ≡ 1 }
{
    match span {
        Span::Year => "Y",
        Span::Day => "D",
        Span::Hour => "H",
        Span::Minute => "M",
    }
}

fn announced_word(announced: bool) -> &'static str
    ensures word { result.now ≡ announced_text announced }
    ensures short { length result.now ≡ 1 }
{
    if announced { "1" } else { "0" }
}

// Adds a number, or - where there is none.
fn push_named<const ROOM: usize>(text: &mut ArrayString<ROOM>, value: Option<u64>)
    requires { array_string_len text.old + 20 ≤ ROOM }
    ensures bytes { text.new.bytes ≡ text.old.bytes ++ named_key value }
    ensures len { array_string_len text.new ≤ array_string_len text.old + 20 }
{
    match value {
        None => text.push_str("-"),
        Some(number) => push_number(text, number),
    }
}

/// The lines of a head, and the first line of the first part.
pub fn head_text(head: &Head) -> HeadText
    ensures { result.bytes ≡ entries_text (head_entries head.now) ++ entry_line (Part 0) }
{
    let window = &head.window;
    let mut text = HeadText::new();
    push_told(
        &mut text,
        "tsbank certificate ",
        Some(version_of(window.stations) as u64),
    );
    push_stations(&mut text, window.stations);
    push_told(&mut text, "start ", Some(window.start));
    push_told(&mut text, "phase ", Some(window.phase as u64));
    push_told(&mut text, "seconds ", Some(window.seconds as u64));
    push_told(&mut text, "from ", Some(window.from as u64));
    push_told(&mut text, "to ", Some(window.to as u64));
    push_told(&mut text, "ceiling ", Some(head.ceiling as u64));
    push_told(&mut text, "first ", head.first);
    push_told(&mut text, "second ", head.second);
    push_told(&mut text, "worker ", Some(0));
    text
}

// Adds a line of a word, with the space after it, and a number or -.
fn push_told<const ROOM: usize>(text: &mut ArrayString<ROOM>, word: &str, value: Option<u64>)
    requires word { length word.now ≤ 19 }
    requires room { array_string_len text.old + 40 ≤ ROOM }
    ensures bytes { text.new.bytes ≡ text.old.bytes ++ line (word.now ++ named_key value) }
    ensures len { array_string_len text.new ≤ array_string_len text.old + 40 }
{
    text.push_str(word);
    push_named(text, value);
    text.push_str("\n");
}

// Adds the line of the stations.
fn push_stations(text: &mut HeadText, stations: Stations)
    requires { array_string_len text.old + 40 ≤ HEAD_ROOM }
    ensures bytes { text.new.bytes ≡ text.old.bytes ++ line (stations_text stations) }
    ensures len { array_string_len text.new ≤ array_string_len text.old + 40 }
{
    push_names(text, stations);
    text.push_str("\n");
}

/// Adds the line of the stations but for its end.
pub fn push_names<const ROOM: usize>(text: &mut ArrayString<ROOM>, stations: Stations)
    requires { array_string_len text.old + 32 ≤ ROOM }
    ensures bytes { text.new.bytes ≡ text.old.bytes ++ stations_text stations }
    ensures len { array_string_len text.new ≤ array_string_len text.old + 32 }
{
    text.push_str(stations_word(stations));
    push_station(text, stations, Station::Dcf77);
    push_station(text, stations, Station::Msf);
    push_station(text, stations, Station::Wwvb);
    push_station(text, stations, Station::Jjy);
}

fn stations_word(stations: Stations) -> &'static str
    ensures word { result.now ≡ (if nat_lt 1 (length (stations_of stations)) then codes "stations" else codes "station") }
    ensures short { length result.now ≤ 8 }
{
    if are_several(stations) {
        "stations"
    } else {
        "station"
    }
}

// Adds a space and the name of a station that is one of these.
fn push_station<const ROOM: usize>(
    text: &mut ArrayString<ROOM>,
    stations: Stations,
    station: Station,
)
    requires { array_string_len text.old + 6 ≤ ROOM }
    ensures bytes { text.new.bytes ≡ text.old.bytes ++ (if has_station stations station then space ∷ station_name station else []) }
    ensures len { array_string_len text.new ≤ array_string_len text.old + 6 }
{
    if !stations.has(station) {
        return;
    }
    text.push_str(spaced_name(station));
}

fn spaced_name(station: Station) -> &'static str
    ensures name { result.now ≡ space ∷ station_name station }
    ensures short { length result.now ≤ 6 }
{
    match station {
        Station::Dcf77 => " dcf77",
        Station::Msf => " msf",
        Station::Wwvb => " wwvb",
        Station::Jjy => " jjy",
    }
}

/// The version of a certificate of these stations.
pub fn version_of(stations: Stations) -> u8
    ensures { result ≡ version_of stations }
{
    if are_several(stations) {
        SEVERAL_STATIONS
    } else {
        ONE_STATION
    }
}

// Whether there is more than one.
fn are_several(stations: Stations) -> bool
    ensures { result ≡ nat_lt 1 (length (stations_of stations)) }
{
    let dcf77 = one_if(stations, Station::Dcf77);
    let msf = one_if(stations, Station::Msf);
    let wwvb = one_if(stations, Station::Wwvb);
    let jjy = one_if(stations, Station::Jjy);
    dcf77 + msf + wwvb + jjy > 1
}

fn one_if(stations: Stations, station: Station) -> u8
    ensures value { result ≡ (if has_station stations station then 1 else 0) }
    ensures small { result ≤ 1 }
{
    if stations.has(station) { 1 } else { 0 }
}

/// The lines of the empty parts of a certificate of so many parts, and the last line.
pub fn tail_text(parts: u8) -> TailText
    requires { parts ≤ MOST_PARTS }
    ensures { result.bytes ≡ entries_text (part_entries 1 (empty_parts (parts - 1))) }
{
    let mut text = TailText::new();
    let mut part = 1;
    while part < parts {
        text.push_str("worker ");
        push_number(&mut text, part as u64);
        text.push_str("\n");
        part += 1;
    }
    text.push_str("end\n");
    text
}
