//! What a reader of this project must believe: what each second of each minute may carry, which sequences are legal,
//! what they cost, and which answer is right. The definitions stand in `specs/`; here are the plain types that they
//! speak of, laws, and worked examples that the checker computes from the definitions alone.
#![tactic(auto)]

mod answer;
mod block;
mod bounds;
mod calendar;
mod caps;
mod day;
mod dcf77;
pub mod examples;
mod fields;
mod jjy;
mod laws;
mod leaps;
mod level;
mod msf;
mod parity;
mod seasons;
mod sequence;
mod wwvb;
mod zone;

pub use answer::Answer;
pub use block::{Block, Span};
pub use bounds::{
    bound_exists, bound_is_not_above, bound_is_one, children_share_the_sequences,
    items_share_the_sequences, year_ends_with_its_calendar_year,
};
pub use calendar::{CENTURY_DAYS, CENTURY_MINUTES, MINUTES_PER_DAY, MINUTES_PER_HOUR};
pub use caps::{
    a_bound_raises_no_cost, a_second_costs_at_most_its_bound,
    bounds_out_of_reach_change_no_difference, no_more_counts_than_it_costs,
};
pub use day::Day;
pub use dcf77::DcfFacts;
pub use fields::Fields;
pub use jjy::JjyFacts;
pub use laws::{
    announcements_show, days_differ, dut1_is_told_by_free_seconds, each_second_is_sent,
    keys_differ, phase_fits_best, the_ceiling_is_admitted, the_least_two_are_the_answer,
    waveforms_differ, window_has_one_answer,
};
pub use leaps::{leap_seconds_end_half_years, leap_years_show};
pub use level::Level;
pub use msf::MsfFacts;
pub use parity::{dcf77_groups_are_even, jjy_groups_are_even, msf_groups_are_odd, weights_add_up};
pub use seasons::{
    american_summer_lies_between_its_changes, european_summer_lies_between_its_changes,
};
pub use sequence::Sequence;
pub use wwvb::WwvbFacts;
pub use zone::Zone;
