//! The second program: it shows what the verifier knows of protocols, on files of the disk, and writes to standard output.
#![tactic(auto)]

mod attack_text;
mod attacking;
mod call;
mod certifying;
mod checking;
mod commands;
mod ending;
mod impossible;
mod loading;
mod logging;
mod numbered;
mod outcome;
mod reaching;
mod reason;
mod refusing;
mod showing;
mod stopping;
mod testing;

use call::show;
use ending::Ending;
use hv_disk::{ToldFiles, disk_files, std_sink};
use std::io::ErrorKind;
use std::{env, io};

fn main(rt: HostRuntime) -> Ending {
    let words = match words(&rt) {
        Ok(words) => words,
        Err(error) if error.kind() == ErrorKind::OutOfMemory => return Ending::without_words(),
        // A word that is no text is no word of a command, so none is passed on.
        Err(_) => Vec::new(rt.alloc()),
    };
    let mut files = ToldFiles::new(rt.alloc(), disk_files(rt));
    let mut out = std_sink(rt);
    Ending::answered(show(rt.alloc(), &words, &mut files, &mut out))
}

/// The words of the command, of which the first is the program's name.
fn words(rt: &(impl env::Env + AllocGlobal)) -> io::Result<Vec<String>> {
    Ok(env::args(rt)?.collect(rt.alloc())?)
}
