//! What the program reads and writes outside of itself: named bytes, a sink for output, and their faults; and how
//! numbers and places in a text are written.
#![tactic(auto)]

mod calls;
mod calm_files;
mod calm_sink;
mod entries;
mod loading;
mod mem_files;
mod mem_sink;
mod opened_files;
mod reading;
mod text;
mod writer_sink;
mod writing;

pub use calm_files::CalmFiles;
pub use calm_sink::CalmSink;
pub use loading::{Files, LoadError};
pub use mem_files::MemFiles;
pub use mem_sink::MemSink;
pub use opened_files::{OpenedFiles, Opener};
pub use text::{decimal, place, put_words};
pub use writer_sink::{Output, WriterSink};
pub use writing::{Failed, Sink, put_all};
