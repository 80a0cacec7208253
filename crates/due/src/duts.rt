//! What the stations of a window tell of DUT1.

ghost use Rattle.std.specs.Prelude.{◌≡◌, ◌<◌, [], ◌∷◌, ◌++◌, length};

use signal_base::{Dut, Station, StationDut};
use std::marker::Model;

/// How many stations a window may have.
pub const MOST_STATIONS: usize = 4;

/// What each station of a window tells of DUT1, in the order of the stations, kept in the value itself.
#[derive(Drop)]
pub struct Duts {
    items: [StationDut; MOST_STATIONS],
    count: usize,
}

impl Model for Duts {
    ghost use Rattle.std.specs.Prelude.{◌≤◌, List, take};
    ghost use Rattle.signal_base.specs.declared.dut.StationDut.{StationDut};
    ghost use Rattle.due.specs.declared.duts.TheConstants.{MOST_STATIONS};

    ghost Value = { List StationDut };

    ghost view = { λ duts. take duts.count duts.items };

    ghost invariant = { λ duts. duts.count ≤ MOST_STATIONS };
}

impl Duts {
    /// Of no station.
    pub fn new() -> Duts
        ensures { result ≡ [] }
    {
        let none = StationDut {
            station: Station::Jjy,
            dut: Dut::Absent,
        };
        Duts {
            items: [none; MOST_STATIONS],
            count: 0,
        }
    }

    /// Adds what the next station tells.
    pub fn push(&mut self, dut: StationDut)
        requires { length self.old < MOST_STATIONS }
        ensures { self.new ≡ self.old ++ dut ∷ [] }
    {
        self.items[self.count] = dut;
        self.count += 1;
    }

    /// All of them.
    pub fn as_slice(&self) -> &[StationDut]
        ensures { result.now ≡ self.now }
    {
        &self.items[..self.count]
    }
}
