//! Texts of queries: milliseconds, one on each line, which are read.
#![tactic(auto)]

mod fault;
mod line;
mod read;

pub use board_due::{MOST_QUERIES, QUERIES_LIMIT, QUERY_LIMIT};
pub use fault::QueryFault;
pub use read::read_queries;
