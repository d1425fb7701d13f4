//! Forms, which say what stands where in a request or a certificate, and the parts of requests, each read from a place on by its form.
//! The reader reads whole texts by them, and by them the printer says that its texts read back.
#![tactic(auto)]

pub mod parameters;
pub mod reference;
pub mod request;
pub mod rule;
pub mod sides;
pub mod taking;
pub mod value;
