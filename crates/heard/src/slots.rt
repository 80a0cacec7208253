//! What a station sent in a slot, and what was heard of it.

ghost use Rattle.std.specs.Prelude.{◌≡◌, ◌<◌, ◌≤◌, ◌&&◌, ℤ, MatchOption, Some, false, true, length, option_map};
ghost use Rattle.std.specs.Option.{ForSome};
ghost use Rattle.signal_base.specs.Waveform.{symbol_count};
ghost use Rattle.definitions.specs.time.Calendar.{century_minutes};
ghost use Rattle.definitions.specs.codes.Allowed.{has_station};
ghost use Rattle.definitions.specs.heard.Dut1.{dut1_symbol, is_dut1_second};
ghost use Rattle.definitions.specs.sequences.Walks.{place_at, set_at};
ghost use Rattle.formats.specs.Heard.{cost_of, costs_of, sent_in, slot_of, symbol_of_set, tells_one_value, told_value};
ghost use Rattle.symbol_cost.specs.Grid.{cost_at};
ghost use Rattle.texts.specs.declared.heard.TheConstants.{MOST_SYMBOLS};
ghost use Rattle.heard.specs.Kept.{IsGridFor, told_of};
ghost use Rattle.heard.specs.Seen.{hearing_seen};

use crate::costs::cost_of;
use crate::hearing::Hearing;
use crate::symbols::{best_symbol, symbol_of_set};
use crate::told::Told;
use civil::Civil;
use formats::SlotHeard;
use plain_costs::{grid_of, is_dut1_second, symbol_of};
use sequence::set_in;
use signal_base::Station;
use symbol_cost::CostGrid;

impl Hearing {
    /// What is told of a slot and a station, which sent this symbol there. The second is given as minute and second.
    pub fn slot(&self, station: Station, place: (u32, u8), slot: u16, sent: Option<u8>) -> SlotHeard
        requires station { has_station self.now.window.stations station ≡ true }
        requires slot { slot < self.now.window.seconds }
        requires place { place ≡ place_at self.now.sequence slot }
        requires sent { sent ≡ sent_in (hearing_seen self.now) slot station }
        requires known { ForSome sent (λ x. x < symbol_count station) }
        ensures slot { result ≡ slot_of (hearing_seen self.now) slot station }
        ensures minute { result.minute < century_minutes }
        ensures sent { ForSome result.sent (λ x. x < MOST_SYMBOLS) }
        ensures best { result.best < MOST_SYMBOLS }
    {
        let grid = self.grid_for(station);
        let best = best_symbol(grid, slot);
        SlotHeard {
            slot,
            minute: place.0,
            second: place.1,
            station,
            sent,
            cost: sent_cost(grid, slot, sent),
            best,
            best_cost: cost_of(grid, slot, best),
        }
    }

    /// The symbol that a station sent in a slot, whose second is given as minute and second; none where it isn't scored.
    pub fn sent(&self, civil: &Civil, station: Station, place: (u32, u8), slot: u16) -> Option<u8>
        requires station { has_station self.now.window.stations station ≡ true }
        requires slot { slot < self.now.window.seconds }
        requires place { place ≡ place_at self.now.sequence slot }
        ensures sent { result ≡ sent_in (hearing_seen self.now) slot station }
        ensures known { ForSome result (λ x. x < symbol_count station) }
    {
        match self.told_symbol(station, place.1) {
            Some(x) => Some(x),
            None => self.symbol_in_set(civil, station, place, slot),
        }
    }

    // The symbol of a second that tells a value of DUT1.
    fn told_symbol(&self, station: Station, second: u8) -> Option<u8>
        requires station { has_station self.now.window.stations station ≡ true }
        requires second { second ≤ 60 }
        ensures { MatchOption result
            ((tells_one_value station self.now.window.seconds self.now.sequence && is_dut1_second station second) ≡ false)
            (λ x. ((tells_one_value station self.now.window.seconds self.now.sequence && is_dut1_second station second) ≡ true)
            × (option_map (λ d. dut1_symbol station d second) (told_value station (costs_of (hearing_seen self.now) station) self.now.window.seconds self.now.sequence) ≡ Some x)
            × (x < 2)) }
    {
        let Some(i) = told_of(&self.told, station) else {
            return None;
        };
        if !is_dut1_second(station, second) {
            return None;
        }
        Some(symbol_of(station, i as usize, second))
    }

    // The cheapest symbol that a second may carry.
    fn symbol_in_set(
        &self,
        civil: &Civil,
        station: Station,
        place: (u32, u8),
        slot: u16,
    ) -> Option<u8>
        requires station { has_station self.now.window.stations station ≡ true }
        requires slot { slot < self.now.window.seconds }
        requires place { place ≡ place_at self.now.sequence slot }
        ensures symbol { result ≡ symbol_of_set station (costs_of (hearing_seen self.now) station slot) (set_at station self.now.sequence slot) }
        ensures known { ForSome result (λ x. x < symbol_count station) }
    {
        let set = set_in(civil, station, self.sequence.announced, place);
        symbol_of_set(self.grid_for(station), slot, set)
    }

    // What the symbols of a station cost.
    fn grid_for(&self, station: Station) -> &CostGrid
        requires { has_station self.now.window.stations station ≡ true }
        ensures { IsGridFor (hearing_seen self.now) station result.now }
    {
        match grid_of(self.grids.as_slice(), station) {
            Some(grid) => grid,
            None => unreachable!(),
        }
    }
}

// The number of the value of DUT1 that the seconds of a station tell.
fn told_of(told: &Told, station: Station) -> Option<u8>
    ensures { result ≡ told_of told.now station }
{
    match station {
        Station::Msf => told.msf,
        Station::Wwvb => told.wwvb,
        Station::Dcf77 | Station::Jjy => None,
    }
}

// What a symbol costs that was sent, and nothing where none was.
fn sent_cost(grid: &CostGrid, slot: u16, sent: Option<u8>) -> u32
    requires slot { slot < length grid.now.rows }
    requires known { ForSome sent (λ x. x < symbol_count grid.now.station) }
    ensures { result ≡ cost_of (cost_at grid.now.rows slot) sent }
{
    match sent {
        None => 0,
        Some(x) => cost_of(grid, slot, x),
    }
}
