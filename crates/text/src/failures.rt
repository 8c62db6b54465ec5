// Why a call on a file failed, as a line on standard error.
use std::io;

// The system's words, without the error's number that stands behind them.
fn reason(said: &str) -> &str {
    said.split_once(" (os error ")
        .map_or(said, |(words, _)| words)
}

// What failed, as the caller names it, a colon and the system's words for why.
pub fn fail(rt: &(impl Eprint + Alloc), what: &str, error: io::Error) -> io::Result<()> {
    let said = format!(in rt.alloc(); "{error}")?;
    let why = reason(said.as_str());
    eprintln!(rt; "{what}: {why}")
}
