//! Requests and replies as bytes, worked by hand, and many heads against a slow reader.
#![tactic(auto)]

#[cfg(test)]
mod changed;
#[cfg(test)]
mod limits;
#[cfg(test)]
mod replying;
#[cfg(test)]
mod slow;
#[cfg(test)]
mod taking;
#[cfg(test)]
mod trickle;
