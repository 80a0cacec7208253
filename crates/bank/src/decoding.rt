//! The answer for a bank.

ghost use Rattle.std.specs.Prelude.{◌≡◌, ◌≤◌, IfErr, IfOk};
ghost use Rattle.signal_base.specs.declared.limits.TheConstants.{GREATEST_COST};
ghost use Rattle.definitions.specs.heard.Costs.{Costs};
ghost use Rattle.definitions.specs.answers.Answers.{IsWindowAnswer};
ghost use Rattle.definitions.specs.answers.FirstTwo.{AreLeastTwo, IsWindowKey};
ghost use Rattle.definitions.specs.sequences.Windows.{IsWindow};
ghost use Rattle.formats.specs.OrderRanges.{IsAsked};
ghost use Rattle.field_tables.specs.Grids.{AreGrids, HaveCosts, grid_costs};
ghost use Rattle.field_tables.specs.Scopes.{scopes_of};
ghost use Rattle.texts.specs.Reportable.{IsReportable};
ghost use Rattle.due.specs.Banks.{Bank as PlainBank, costs_in, duts_of};
ghost use Rattle.bank.specs.declared.stop.Stop.TheVariants.{NoMemory};
ghost use Rattle.bank.specs.Finding.{IsDecoded};
ghost use Rattle.bank.specs.Hearing.{IsBank, bank_seen};
ghost use Rattle.bank.specs.Tasks.{AreWorkers};

use crate::first_two::decide_by;
use crate::grids::grids_of;
use crate::hearing::{Bank, window_of};
use crate::stop::Stop;
use civil::Civil;
use definitions::the_least_two_are_the_answer;
use due::Duts;
use field_tables::{
    StationParts, agreeing_costs_cost_alike, dut1, grids_agree_with_their_costs, parts_of,
};
use formats::Asked;
use sequence::{Answer, answer_of};
use signal_base::{StationDut, Window};
use std::alloc::Global;
use std::thread::Threads;
use symbol_cost::CostGrid;
use workers::{Found, Gate};

/// The answer for a bank, and what was asked.
#[derive(Drop)]
pub struct Decoded {
    /// The window.
    pub window: Window,
    /// The answer.
    pub answer: Answer,
    /// What each station of the window tells of DUT1, where the answer is decided.
    pub duts: Duts,
}

/// Decodes what a bank heard in the window that is asked about. How many workers search, and in which order they come to
/// what, doesn't matter.
pub fn decode<R: Threads + Sync, G: Gate + Sync>(
    rt: &R,
    alloc: Global,
    civil: &Civil,
    bank: &Bank,
    asked: &Asked,
    workers: u8,
    gate: &G,
) -> Result<Decoded, Stop>
    requires bank { IsBank bank.now }
    requires asked { IsAsked asked.now }
    requires workers { AreWorkers workers }
    ensures decoded { IfOk result (IsDecoded asked.now (bank_seen bank.now)) }
    ensures reportable { IfOk result (λ decoded. IsReportable decoded.window decoded.answer) }
    ensures memory { IfErr result (λ stop. stop ≡ NoMemory) }
{
    let window = window_of(bank, asked);
    let grids = grids_of(alloc, bank, &window)?;
    decode_window(
        rt,
        alloc,
        civil,
        grids.as_slice(),
        window,
        bank.ceiling,
        workers,
        gate,
    )
}

/// Decodes what the grids of a window's stations say.
pub fn decode_window<R: Threads + Sync, G: Gate + Sync>(
    rt: &R,
    alloc: Global,
    civil: &Civil,
    grids: &[CostGrid],
    window: Window,
    ceiling: u32,
    workers: u8,
    gate: &G,
) -> Result<Decoded, Stop>
    requires window { IsWindow window }
    requires grids { AreGrids window grids.now }
    requires ceiling { ceiling ≤ GREATEST_COST }
    requires workers { AreWorkers workers }
    ensures window { IfOk result (λ decoded. decoded.window ≡ window) }
    ensures answer { IfOk result (λ decoded. (costs : Costs) → HaveCosts window grids.now costs → IsWindowAnswer window costs ceiling decoded.answer) }
    ensures duts { IfOk result (λ decoded. (bank : PlainBank) → HaveCosts window grids.now (costs_in window bank) → decoded.duts ≡ duts_of window bank decoded.answer) }
    ensures reportable { IfOk result (λ decoded. IsReportable decoded.window decoded.answer) }
    ensures memory { IfErr result (λ stop. stop ≡ NoMemory) }
{
    let parts = parts_of(alloc, civil, &window)?;
    decode_window_by(
        rt, alloc, civil, &parts, grids, window, ceiling, workers, gate,
    )
}

/// Decodes as `decode_window` does, by parts that were made of the window's stations (`field_tables::parts_of`), perhaps for
/// other windows of the same stations and length.
pub fn decode_window_by<R: Threads + Sync, G: Gate + Sync>(
    rt: &R,
    alloc: Global,
    civil: &Civil,
    parts: &[StationParts],
    grids: &[CostGrid],
    window: Window,
    ceiling: u32,
    workers: u8,
    gate: &G,
) -> Result<Decoded, Stop>
    requires window { IsWindow window }
    requires parts { parts.now ≡ scopes_of window.stations window.seconds }
    requires grids { AreGrids window grids.now }
    requires ceiling { ceiling ≤ GREATEST_COST }
    requires workers { AreWorkers workers }
    ensures window { IfOk result (λ decoded. decoded.window ≡ window) }
    ensures answer { IfOk result (λ decoded. (costs : Costs) → HaveCosts window grids.now costs → IsWindowAnswer window costs ceiling decoded.answer) }
    ensures duts { IfOk result (λ decoded. (bank : PlainBank) → HaveCosts window grids.now (costs_in window bank) → decoded.duts ≡ duts_of window bank decoded.answer) }
    ensures reportable { IfOk result (λ decoded. IsReportable decoded.window decoded.answer) }
    ensures memory { IfErr result (λ stop. stop ≡ NoMemory) }
{
    let found = decide_by(
        rt, alloc, civil, parts, grids, &window, ceiling, workers, gate,
    )?;
    Ok(decoded_by(civil, grids, window, ceiling, found))
}

/// What is decoded, by the keys of the first two sequences that were found.
pub fn decoded_by(
    civil: &Civil,
    grids: &[CostGrid],
    window: Window,
    ceiling: u32,
    found: Found,
) -> Decoded
    requires window { IsWindow window }
    requires grids { AreGrids window grids.now }
    requires found { AreLeastTwo (IsWindowKey window (grid_costs grids.now) ceiling) found.first found.second }
    ensures window { result.window ≡ window }
    ensures answer { (costs : Costs) → HaveCosts window grids.now costs → IsWindowAnswer window costs ceiling result.answer }
    ensures duts { (bank : PlainBank) → HaveCosts window grids.now (costs_in window bank) → result.duts ≡ duts_of window bank result.answer }
    ensures reportable { IsReportable result.window result.answer }
{
    let answer = answer_for(grids, &window, ceiling, found);
    let duts = duts_of(civil, grids, &window, &answer);
    Decoded {
        window,
        answer,
        duts,
    }
}

// The answer for a window, by the keys that were found by the grids of its stations.
fn answer_for(grids: &[CostGrid], window: &Window, ceiling: u32, found: Found) -> Answer
    requires window { IsWindow window.now }
    requires grids { AreGrids window.now grids.now }
    requires found { AreLeastTwo (IsWindowKey window.now (grid_costs grids.now) ceiling) found.first found.second }
    ensures answer { (costs : Costs) → HaveCosts window.now grids.now costs → IsWindowAnswer window.now costs ceiling result }
    ensures reportable { IsReportable window.now result }
{
    the_least_two_are_the_answer();
    agreeing_costs_cost_alike();
    grids_agree_with_their_costs();
    let _ = grids;
    let _ = window;
    let _ = ceiling;
    answer_of(found.first, found.second)
}

/// What the stations of the window tell of DUT1, by their grids, where the answer is decided.
pub fn duts_of(civil: &Civil, grids: &[CostGrid], window: &Window, answer: &Answer) -> Duts
    requires window { IsWindow window.now }
    requires grids { AreGrids window.now grids.now }
    requires answer { IsReportable window.now answer.now }
    ensures { (bank : PlainBank) → HaveCosts window.now grids.now (costs_in window.now bank) → result ≡ duts_of window.now bank answer.now }
{
    agreeing_costs_cost_alike();
    let mut duts = Duts::new();
    let Answer::Decided { sequence, .. } = answer else {
        return duts;
    };
    for i in 0..grids.len() {
        let grid = &grids[i];
        let station = grid.station();
        let dut = dut1(grid, civil, station, window, sequence);
        duts.push(StationDut { station, dut });
    }
    duts
}
