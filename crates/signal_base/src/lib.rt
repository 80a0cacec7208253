//! The plain types of a receiver bank: stations, waveforms, tunings and windows.
#![tactic(auto)]

mod dut;
mod limits;
mod station;
mod tuning;
mod waveform;
mod window;

pub use dut::{Dut, StationDut};
pub use limits::{
    GREATEST_COST, LEAST_SECOND_COST, LEAST_SECONDS, LEAST_WEIGHT, MOST_COST, MOST_DELAY,
    MOST_RECEIVERS, MOST_SECOND_COST, MOST_SECONDS, MOST_WEIGHT, START_LIMIT,
};
pub use station::{Station, Stations};
pub use tuning::{CostTable, Tuning};
pub use waveform::{UNSCORED, symbols, wave};
pub use window::Window;

/// Memory wasn't found.
#[derive(Clone, Copy, Debug)]
pub struct NoMemory;
