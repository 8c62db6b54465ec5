// Shows MIDI bytes, a line for each report: the place of the byte that gave it, the message's bytes, and what they say. The bytes come from
// standard input or from a file, in pieces. What cannot be opened or read is said on standard error and the program ends well; a line that
// cannot be written ends it with that error.
#![tactic(auto)]

use decoder::{Decoder, MAX_SYSEX_LEN, Report};
use std::io::Read;
use std::rt::Files;
use std::{env, fs, io};

// How far the stream has come: the decoder, the store of its open frame, and the place of the next byte. What is shown goes to rt, clock and
// active sensing only unless it is quiet. Drop alone, since it holds a reference to the runtime, which is not copied.
#[derive(Drop)]
struct Monitor<'a, R> {
    rt: &'a R,
    is_quiet: bool,
    state: Decoder,
    store: [u8; MAX_SYSEX_LEN],
    place: u64,
}

impl<'a, R: Print + Eprint + AllocGlobal> Monitor<'a, R> {
    fn new(rt: &'a R, is_quiet: bool) -> Monitor<'a, R> {
        Monitor {
            rt,
            is_quiet,
            state: Decoder::new(),
            store: [0; MAX_SYSEX_LEN],
            place: 0,
        }
    }

    // Shows what an input says, piece by piece, until nothing more comes. A proved loop has to end, so the turns are counted.
    fn watch(&mut self, input: &mut impl Read, name: &str) -> io::Result<()> {
        let mut piece = [0u8; 4096];
        for _ in 0..u64::MAX {
            match input.read(&mut piece) {
                Ok(0) => break,
                Ok(n) => self.take(&piece[..n])?,
                Err(error) => {
                    text::failures::fail(self.rt, name, error)?;
                    break;
                }
            }
        }
        self.end()
    }

    // Calls until the piece is used up. It stops where a call is refused, which no call from a fresh decoder is. Places are u64, to which no
    // From leads from usize. The bench's streams have such a loop: they do something else with a report, and a function that both call
    // with a closure would save no line.
    fn take(&mut self, piece: &[u8]) -> io::Result<()> {
        let mut rest = piece;
        while let Some((taken, next)) = decoder_in_place::feed_front(
            &mut self.state,
            &mut self.store,
            rest,
        ) {
            self.place = self.place.wrapping_add(taken.used as u64);
            if taken.interrupted {
                self.show(Report::SysExInterrupted)?;
            }
            if let Some(report) = taken.report {
                self.show(report)?;
            }
            rest = next;
        }
        Ok(())
    }

    // The line of a report of the last byte that was used.
    fn show(&self, report: Report) -> io::Result<()> {
        if self.is_quiet && monitor_words::is_steady(report) {
            return Ok(());
        }
        let last = self.place.wrapping_sub(1);
        let mut line = monitor_words::line(last, &self.store, report);
        line.put_bytes(b"\n");
        self.rt.write_all(line.as_bytes())
    }

    // A frame that is still open when the input ends.
    fn end(&self) -> io::Result<()> {
        if self.state.in_sysex {
            let len = self.state.len;
            println!(self.rt; "end: a frame is still open, {len} bytes so far")?;
        }
        Ok(())
    }
}

fn usage(rt: &impl Eprint) -> io::Result<()> {
    rt.eprintln(
        "usage: monitor [-c] [FILE]    (MIDI bytes of FILE or of standard input; -c hides clock and active sensing)",
    )
}

// A file by name; a word that begins with a hyphen names none.
fn watch_file<R: Print + Eprint + AllocGlobal + Files>(
    rt: &R,
    path: &str,
    is_quiet: bool,
) -> io::Result<()> {
    if path.starts_with('-') {
        return usage(rt);
    }
    match fs::open(rt, path) {
        Ok(mut file) => Monitor::new(rt, is_quiet).watch(&mut file, path),
        Err(error) => text::failures::fail(rt, path, error),
    }
}

fn main(rt: HostRuntime) -> io::Result<()> {
    let args: Vec<String> = env::args(&rt)?.skip(1).collect(rt.alloc())?;
    let words: Vec<&str> = args.iter().map(|word| word.as_str()).collect(rt.alloc())?;
    let (is_quiet, files) = match words.as_slice() {
        ["-c", files @ ..] => (true, files),
        files => (false, files),
    };
    match files {
        [] => Monitor::new(&rt, is_quiet).watch(&mut rt.stdin(), "standard input"),
        [path] => watch_file(&rt, path, is_quiet),
        _ => usage(&rt),
    }
}
