// Replays recorded answers of the original Rust against the proved crates. Each file that an argument names has a record a line: a request,
// a tab, and the answer that the original gave. For each word a line is written, and for its first difference what was got and what was
// recorded; a line under the file's name counts all. What cannot be opened or read is said on standard error and the program ends well; a line
// that cannot be written ends it with that error.
#![tactic(auto)]

use bench_words::{Answer, Request, Word};
use std::os::unix::fs::FileExt;
use std::rt::Files;
use std::{env, fmt, fs, io};

// A record may take so many bytes with its end.
const LONGEST_RECORD: usize = 65536;

// A tally for each word, and one for what is no word.
const TALLIES: usize = Word::ALL.len() + 1;

// So many files are replayed at most.
const MOST_FILES: usize = 1023;

// How many answers there were, and how many of them differ.
#[derive(Clone, Copy, Default)]
struct Tally {
    answers: u64,
    differ: u64,
}

impl Tally {
    fn add(&mut self, more: Tally) {
        self.answers = self.answers.saturating_add(more.answers);
        self.differ = self.differ.saturating_add(more.differ);
    }
}

impl fmt::Display for Tally {
    fn fmt<W: fmt::Write>(&self, f: &mut fmt::Formatter<W>) -> fmt::Result {
        let answers = self.answers;
        let differ = self.differ;
        write!(f, "{answers} answers, {differ} differ")
    }
}

// A file's records up to now, counted for each word, and together where the bench has no such word.
// Drop alone, since it holds a reference to the runtime.
#[derive(Drop)]
struct Replay<'a, R> {
    rt: &'a R,
    tallies: [Tally; TALLIES],
}

// Where the tally of a word stands.
fn tally_place(word: Option<Word>) -> usize {
    word.map_or(Word::ALL.len(), |word| word as usize)
}

impl<'a, R: Print + Eprint + AllocGlobal> Replay<'a, R> {
    fn new(rt: &'a R) -> Replay<'a, R> {
        Replay {
            rt,
            tallies: [Tally::default(); TALLIES],
        }
    }

    fn tally(&self, word: Option<Word>) -> Tally {
        self.tallies
            .get(tally_place(word))
            .copied()
            .unwrap_or_default()
    }

    // Replays record after record, each read from its place on. What cannot be read, and a line with no end, is the last.
    // Places in a file are u64, to which no From leads from usize.
    fn run(&mut self, file: &impl FileExt, path: &str) -> io::Result<()> {
        let mut place: u64 = 0;
        let mut bytes = [0u8; LONGEST_RECORD];
        let mut answer = Answer::new();
        for record in 1..0x1_0000_0000u64 {
            let count = match file.read_at(&mut bytes, place) {
                Ok(count) => count,
                Err(error) => return text::failures::fail(self.rt, path, error),
            };
            if count == 0 {
                break;
            }
            let Some((line, _)) = text::split_once(&bytes[..count], b'\n') else {
                self.show(record, &bytes[..count], b"a line with no end", b"")?;
                self.count(None, 0, 1);
                break;
            };
            self.replay(record, line, &mut answer)?;
            place = place.saturating_add(line.len() as u64).saturating_add(1);
        }
        Ok(())
    }

    // Compares what is got for a record's request with what was recorded.
    fn replay(&mut self, record: u64, line: &[u8], answer: &mut Answer) -> io::Result<()> {
        let (ask, want) = text::split_once(line, b'\t').unwrap_or((line, b""));
        let request = Request::of(ask);
        request.answer(answer);
        let got = answer.as_bytes();
        let is_same = got == want;
        let word = request.word;
        if !is_same && self.tally(word).differ == 0 {
            self.show(record, ask, got, want)?;
        }
        self.count(word, 1, u64::from(!is_same));
        Ok(())
    }

    fn count(&mut self, word: Option<Word>, answers: u64, differ: u64) {
        if let Some(tally) = self.tallies.get_mut(tally_place(word)) {
            tally.add(Tally { answers, differ });
        }
    }

    // The record's number and request, what was got, and what was recorded. A record's bytes need not be text.
    fn show(&self, record: u64, ask: &[u8], got: &[u8], want: &[u8]) -> io::Result<()> {
        print!(self.rt; "record {record} differs: ")?;
        self.rt.write_all(ask)?;
        self.rt.write_all(b"\n  got      ")?;
        self.rt.write_all(got)?;
        self.rt.write_all(b"\n  recorded ")?;
        self.rt.write_all(want)?;
        self.rt.write_all(b"\n")
    }

    // A line for each word that was replayed, one for what is no word, and one for all.
    fn tell(&self, path: &str) -> io::Result<()> {
        let mut all = Tally::default();
        for word in Word::ALL.into_iter().map(Some).chain([None]) {
            let tally = self.tally(word);
            if 0 < tally.answers {
                println!(self.rt; "{}: {tally}", word.map_or("other", |word| word.name()))?;
            }
            all.add(tally);
        }
        println!(self.rt; "{path}: {all}")
    }
}

fn replay_file<R: Print + Eprint + AllocGlobal + Files<File = fs::File>>(
    rt: &R,
    path: &str,
) -> io::Result<()> {
    match fs::open(rt, path) {
        Ok(file) => {
            let mut replay = Replay::new(rt);
            replay.run(&file, path)?;
            replay.tell(path)
        }
        Err(error) => text::failures::fail(rt, path, error),
    }
}

fn main(rt: HostRuntime) -> io::Result<()> {
    let args: Vec<String> = env::args(&rt)?.collect(rt.alloc())?;
    if args.len() < 2 {
        rt.eprintln("usage: replay FILE..")?;
    }
    for path in args.iter().skip(1).take(MOST_FILES) {
        replay_file(&rt, path.as_str())?;
    }
    Ok(())
}
