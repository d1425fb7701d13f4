//! Disks: one in memory, which tells what a crash may leave at each moment, and one over a file.
#![tactic(auto)]

mod file_disk;
mod log;
mod memory_disk;
mod overwriting;
#[cfg(test)]
mod tests;

pub use file_disk::FileDisk;
pub use memory_disk::MemoryDisk;
