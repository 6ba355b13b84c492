//! What the program reads and writes: files of the disk, files whose loads are told, and standard output.
#![tactic(auto)]

mod disk;
mod output;
mod told_files;

pub use disk::{DiskFiles, disk_files};
pub use output::{StdSink, std_sink};
pub use told_files::ToldFiles;

#[cfg(test)]
mod tests;
