//! `flux`: flux captures of floppy disks, read and written. All of it is in `flux_cli`.
#![tactic(auto)]

use flux_base::{Status, Word};
use flux_cli::{StdMaker, StdShelf, StdSink, StdSource, run};
use std::env;
use std::process::ExitCode;

/// The exit code where the system gives no words.
const NO_WORDS: u8 = 9;

fn main(rt: HostRuntime) -> ExitCode {
    let Ok(args) = env::args(&rt) else {
        return ExitCode::from(NO_WORDS);
    };
    let mut words = Vec::new(rt.alloc());
    for text in args.skip(1) {
        if words.push(Word::new(text)).is_err() {
            return ExitCode::from(Status::Memory.code());
        }
    }
    let mut source = StdSource::new(rt.stdin());
    let mut image = StdSink::new(rt.stdout());
    let mut notes = StdSink::new(rt.stderr());
    let mut shelf = StdShelf::new(&rt);
    let mut maker = StdMaker::new(&rt);
    let status = run(
        rt.alloc(),
        &words,
        &mut source,
        &mut image,
        &mut notes,
        &mut shelf,
        &mut maker,
    );
    ExitCode::from(status.code())
}
