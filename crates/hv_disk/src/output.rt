//! Standard output.

use hv_io::WriterSink;
use std::io::Stdout;

/// Standard output. It tells nothing of what was written.
pub type StdSink = WriterSink<Stdout>;

/// Standard output, with no fault yet.
pub fn std_sink(rt: HostRuntime) -> StdSink {
    WriterSink::new(rt.stdout())
}
