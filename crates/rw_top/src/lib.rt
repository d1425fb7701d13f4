//! The top call: `batch` answers the lines of a source on a sink.
#![tactic(auto)]

mod batch;
mod call;
mod output;
mod replies;
mod run;
mod stop;

pub use call::top;
pub use output::write_all;

#[cfg(test)]
mod tests;
