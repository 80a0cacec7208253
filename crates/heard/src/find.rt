//! Finding what is due. Nothing here writes to a file.

ghost use Rattle.std.specs.Prelude.{◌≡◌, ◌≢◌, ◌<◌, ◌≤◌, Err, IfErr, IfOk, IsErrOf, List, length, slice_index, true, ℕ};
ghost use Rattle.bank_files.specs.Seen.{OnlyReads, SameCounts};
ghost use Rattle.definitions.specs.codes.Allowed.{has_station};
ghost use Rattle.definitions.specs.heard.Costs.{Costs};
ghost use Rattle.definitions.specs.sequences.Walks.{IsSequence, IsWalkable};
ghost use Rattle.definitions.specs.sequences.Windows.{IsWindow};
ghost use Rattle.formats.specs.Heard.{costs_of};
ghost use Rattle.formats.specs.OrderRanges.{IsAsked, IsFile};
ghost use Rattle.bank_config.specs.Configuration.{plain_config};
ghost use Rattle.bank_config.specs.InRange.{IsInRange};
ghost use Rattle.plain_costs.specs.Grids.{AreGrids, HaveCosts};
ghost use Rattle.texts.specs.Reportable.{IsReportable};
ghost use Rattle.due.specs.declared.due.Due.TheVariants.{Report};
ghost use Rattle.due.specs.declared.heard_due.HeardDue.TheVariants as dues;
ghost use Rattle.due.specs.Banks.{bank_of};
ghost use Rattle.due.specs.HeardRuns.{AsksHeard};
ghost use Rattle.bank.specs.declared.stop.Stop.TheVariants as stops;
ghost use Rattle.bank.specs.Ending.{IsFound, SomeReadFails};
ghost use Rattle.bank.specs.Hearing.{IsBank};
ghost use Rattle.bank.specs.Tasks.{AreWorkers};
ghost use Rattle.heard.specs.Asking.{asked_seen};
ghost use Rattle.heard.specs.Kept.{hearing_in, station_at};
ghost use Rattle.heard.specs.Seen.{CanBeShown, IsShownFor, due_seen, hearing_seen, kept_plan};
ghost use Rattle.heard.specs.Told.{IsTold};

use crate::ask::Ask;
use crate::hearing::Hearing;
use crate::places::{places_in, stations_of};
use crate::told::Told;
use crate::values::told_value;
use bank::{
    Bank, Decoded, Stop, Unloaded, bank_of, decode_window, grids_of, in_station_order,
    load_as_configured, window_of,
};
use bank_config::Config;
use bank_files::Files;
use civil::Civil;
use due::{Due, HeardDue};
use formats::Asked;
use plain_costs::grid_of;
use pulse_log::Log;
use sequence::{Answer, Sequence};
use signal_base::{MOST_RECEIVERS, Station, Window};
use std::alloc::Global;
use std::thread::Threads;
use symbol_cost::CostGrid;
use workers::Gate;

/// What is due for what is asked. All files are read here, and all memory but the calendar's and the words' is taken here.
pub fn find_due<R: Threads + Sync, F: Files, G: Gate + Sync>(
    rt: &R,
    alloc: Global,
    civil: &Civil,
    ask: &Ask,
    files: &mut F,
    gate: &G,
) -> Result<HeardDue<Hearing>, Stop>
    requires file { IsFile ask.now.config.now }
    requires asked { IsAsked ask.now.asked }
    requires workers { AreWorkers ask.now.workers }
    ensures due { IfOk result (λ due. (words : List (List ℕ)) → AsksHeard words (asked_seen ask.now) → IsFound (kept_plan words) (F.view files.old) due) }
    ensures can_be_shown { IfOk result CanBeShown }
    ensures failed { IsErrOf result stops.Failed → (words : List (List ℕ)) → AsksHeard words (asked_seen ask.now) → SomeReadFails (kept_plan words) (F.view files.old) (F.view files.new) }
    ensures same_counts { result ≢ Err stops.Failed → SameCounts (F.view files.old) (F.view files.new) }
    ensures only { OnlyReads (F.view files.old) (F.view files.new) }
{
    match load_as_configured(alloc, files, ask.config) {
        Ok(read) => show(
            rt,
            alloc,
            civil,
            read.0,
            read.1,
            &ask.asked,
            ask.workers,
            gate,
        ),
        Err(unloaded) => match unloaded {
            Unloaded::Refused { refusal } => Ok(HeardDue::Told {
                due: Due::Refused { refusal },
            }),
            Unloaded::Failed => Err(Stop::Failed),
            Unloaded::NoMemory => Err(Stop::NoMemory),
        },
    }
}

// What is shown of a bank: what was heard, where a sequence is decided, and else the report.
fn show<R: Threads + Sync, G: Gate + Sync>(
    rt: &R,
    alloc: Global,
    civil: &Civil,
    config: Config,
    logs: Vec<Log>,
    asked: &Asked,
    workers: u8,
    gate: &G,
) -> Result<HeardDue<Hearing>, Stop>
    requires in_range { IsInRange config }
    requires one_each { length logs.items ≡ length config.receivers.items }
    requires asked { IsAsked asked.now }
    requires workers { AreWorkers workers }
    ensures shown { IfOk result (λ due. IsShownFor asked.now (bank_of (plain_config config) logs.items) (due_seen due)) }
    ensures can_be_shown { IfOk result CanBeShown }
    ensures memory { IfErr result (λ stop. stop ≡ stops.NoMemory) }
{
    let stations = stations_of(alloc, config.receivers.as_slice())?;
    let places = places_in(alloc, stations.as_slice())?;
    let loaded = in_station_order(alloc, config, logs)?;
    let bank = bank_of(alloc, loaded)?;
    let window = window_of(&bank, asked);
    let grids = grids_of(alloc, &bank, &window)?;
    let decoded = decode_window(
        rt,
        alloc,
        civil,
        grids.as_slice(),
        window,
        bank.ceiling,
        workers,
        gate,
    )?;
    match decoded.answer {
        Answer::Decided { sequence, next, .. } => Ok(HeardDue::Heard {
            hearing: hearing_of(civil, bank, places, grids, window, sequence, next),
        }),
        Answer::Undecided { .. } => Ok(reported(decoded)),
        Answer::Nothing => Ok(reported(decoded)),
    }
}

// The report of an answer.
fn reported(decoded: Decoded) -> HeardDue<Hearing>
    requires { IsReportable decoded.window decoded.answer }
    ensures told { due_seen result ≡ dues.Told (Report decoded.window decoded.answer decoded.duts) }
    ensures can_be_shown { CanBeShown result }
{
    HeardDue::Told {
        due: Due::Report {
            window: decoded.window,
            answer: decoded.answer,
            duts: decoded.duts,
        },
    }
}

// What is kept of a decided window.
fn hearing_of(
    civil: &Civil,
    bank: Bank,
    places: Vec<u8>,
    grids: Vec<CostGrid>,
    window: Window,
    sequence: Sequence,
    next: Option<u32>,
) -> Hearing
    requires bank { IsBank bank }
    requires few { length places.items ≤ MOST_RECEIVERS }
    requires within { (i : ℕ) → i < length places.items → slice_index places.items i < length bank.stations.items }
    requires heard { (i : ℕ) → i < length places.items → has_station window.stations (station_at bank.stations.items (slice_index places.items i)) ≡ true }
    requires grids { AreGrids window grids.items }
    requires costs { HaveCosts window grids.items (costs_of (hearing_in bank places.items window sequence next)) }
    requires window { IsWindow window }
    requires sequence { IsSequence sequence }
    requires walkable { IsWalkable window sequence }
    ensures { hearing_seen result ≡ hearing_in bank places.items window sequence next }
{
    let told = Told {
        msf: told_in(grids.as_slice(), civil, &window, &sequence, Station::Msf),
        wwvb: told_in(grids.as_slice(), civil, &window, &sequence, Station::Wwvb),
    };
    Hearing {
        bank,
        places,
        grids,
        told,
        window,
        sequence,
        next,
    }
}

// Which value of DUT1 a station tells.
fn told_in(
    grids: &[CostGrid],
    civil: &Civil,
    window: &Window,
    q: &Sequence,
    station: Station,
) -> Option<u8>
    requires window { IsWindow window.now }
    requires grids { AreGrids window.now grids.now }
    requires sequence { IsSequence q.now }
    requires walkable { IsWalkable window.now q.now }
    ensures { (costs : Costs) → HaveCosts window.now grids.now costs → has_station window.now.stations station ≡ true
        → IsTold station (costs station) window.now.seconds q.now result }
{
    match grid_of(grids, station) {
        None => None,
        Some(grid) => told_value(grid, civil, window, q),
    }
}
