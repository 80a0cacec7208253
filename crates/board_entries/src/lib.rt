//! The entries of a board of decided windows, and what a list of them tells of a millisecond. The rule stands in `specs/`; here
//! are the plain types that it speaks of, and worked examples.
#![tactic(auto)]

mod entry;
mod examples;
mod told;

pub use entry::Entry;
pub use examples::{
    edges_of_a_window, sixty_four_entries_are_asked, the_last_entry_tells, two_windows_of_a_log,
};
pub use told::{LAST_ENTRIES, Told};
