//! Files of the disk that hold what is known of them, and a text that is written to standard output.

use crate::{DiskFiles, disk_files, std_sink};
use hv_io::{Files, LoadError, put_all};

/// Whether a load gives these bytes, which are five at most.
fn gives(files: &mut DiskFiles, name: &str, bytes: &[u8]) -> bool {
    files
        .load(name, 5)
        .is_ok_and(|loaded| loaded.as_slice() == bytes)
}

/// Whether a load fails, and not for want of memory.
fn fails(files: &mut DiskFiles, name: &str) -> bool {
    matches!(files.load(name, 5), Err(LoadError::Failed))
}

#[test]
fn loads_from_the_disk(rt: HostRuntime) {
    let mut files = disk_files(rt);
    assert!(rt; gives(&mut files, "/dev/zero", &[0; 5]));
    assert!(rt; gives(&mut files, "/dev/null", b""));
    assert!(rt; files.faults() == 0);
    assert!(rt; fails(&mut files, "/dev/null/none"));
    assert!(rt; files.faults() == 1);
}

#[test]
fn writes_to_standard_output(rt: HostRuntime) {
    let mut out = std_sink(rt);
    assert!(rt; put_all(&mut out, b"query 1 proved\n").is_ok());
}
