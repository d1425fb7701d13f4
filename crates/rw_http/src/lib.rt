//! Requests and replies as bytes: cutting what a peer sends into requests, and writing replies to it.
#![tactic(auto)]

mod ends;
mod error;
mod fields;
mod head;
mod intake;
mod laws;
mod replies;
mod sending;
mod served;

pub use error::HttpError;
pub use intake::{Bytes, HttpRequest, Intake, Taken};
pub use laws::{more_bytes_keep_it, one_answer};
pub use replies::reply_bytes;
pub use sending::send;
pub use served::{ServeEnd, Served};
