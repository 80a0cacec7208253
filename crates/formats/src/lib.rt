//! The bytes of every text that the program reads or writes: log lines, reports, listings, the feed, trials, frames, what was
//! heard and refusals. The definitions stand in `specs/`; here are the plain types that they speak of, laws of them, and worked
//! examples.
#![tactic(auto)]

mod examples;
mod fault;
mod frame;
mod frame_law;
mod heard;
mod heard_law;
mod key;
mod limits;
mod log_law;
mod name;
mod option;
mod refusal;
mod word_examples;
mod word_law;
mod words;

pub use examples::{
    bad_frames, bad_lines, element_tables, elements_told_apart, feeds, frame_lines, good_frames,
    good_logs, heads_of_reports, limits_of_frames, limits_of_logs, lines_of_texts, listed_minutes,
    minutes_of_reports, refused_certificates, refused_configurations, refused_frames, refused_logs,
    refused_words, reports_without_a_decision, sentences, slots_by_their_dut1, slots_by_their_sets,
    summaries_of_trials, sums_of_two_seconds, text_of_silence, text_of_two_seconds,
};
pub use fault::LineFault;
pub use frame::{
    EDGE_LIMIT, ELEMENT_TIME, ELEMENTS, FRAME_LIMIT, FRAME_TIME, FRAMES_LIMIT, Frame,
    FrameLineFault, MOST_FRAMES,
};
pub use frame_law::{
    elements_tell_their_second, frames_have_one_outcome, walks_are_told_by_frames,
};
pub use heard::{ReceiverHeard, SlotHeard};
pub use heard_law::{
    no_symbol_is_better, receivers_share_a_slot, receivers_share_the_cost, slots_share_the_cost,
    symbols_are_those_of_the_sequence,
};
pub use key::KeyName;
pub use limits::{LOG_LIMIT, LONGEST_NAME, MOST_RECORDS, TIME_LIMIT};
pub use log_law::log_has_one_outcome;
pub use name::Name;
pub use option::OptionName;
pub use refusal::Refusal;
pub use word_examples::{
    bad_values, defaults, defaults_beyond_a_run, forms, kinds, minutes_that_no_station_sends,
    numbers, options, options_beyond_a_run, usage,
};
pub use word_law::{
    last_minutes_suit, minutes_have_one_text, numbers_have_one_text, orders_are_in_range,
    words_keep_to_their_commands,
};
pub use words::{
    Asked, Command, DEFAULT_COUNT, DEFAULT_READERS, DEFAULT_SECONDS, DEFAULT_STEP, DEFAULT_WORKERS,
    LEAST_COUNT, LEAST_READERS, LEAST_STEP, LEAST_WORKERS, MOST_COUNT, MOST_NUMBER, MOST_READERS,
    MOST_STEP, MOST_WORKERS, ValueKind, Values, WordFault,
};
