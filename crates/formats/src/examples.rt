//! Worked examples of texts, which the checker computes from the definitions alone.

mod frames;
mod heard;
mod listings;
mod logs;
mod refusals;
mod reports;

pub use frames::{
    bad_frames, element_tables, elements_told_apart, frame_lines, good_frames, limits_of_frames,
    refused_frames,
};
pub use heard::{
    slots_by_their_dut1, slots_by_their_sets, sums_of_two_seconds, text_of_silence,
    text_of_two_seconds,
};
pub use listings::{feeds, listed_minutes, sentences};
pub use logs::{bad_lines, good_logs, limits_of_logs, lines_of_texts};
pub use refusals::{refused_certificates, refused_configurations, refused_logs, refused_words};
pub use reports::{
    heads_of_reports, minutes_of_reports, reports_without_a_decision, summaries_of_trials,
};
