//! Files of the disk.

use hv_io::{OpenedFiles, Opener};
use std::fs::File;
use std::io;

/// The disk. It tells nothing of what its files hold.
#[derive(Clone, Copy)]
pub struct Disk(HostRuntime);

impl Opener for Disk {
    ghost use Rattle.std.specs.Prelude.{None};

    type File = File;

    ghost held = { λ _ _. None };

    fn open(&self, name: &str) -> io::Result<File> {
        File::open(&self.0, name)
    }
}

/// The files of the disk. A file that isn't there is a fault.
pub type DiskFiles = OpenedFiles<Disk>;

/// The files of the disk, with no fault yet.
pub fn disk_files(rt: HostRuntime) -> DiskFiles {
    OpenedFiles::new(rt.alloc(), Disk(rt))
}
