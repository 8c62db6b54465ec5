// The bench's words over the proved crates: a request's text in, the answer's text out.
#![tactic(auto)]

mod arguments;
mod said;
mod streams;
mod sysex;
mod wires;
mod word;

use arguments::Arguments;
use said::No;
use text::Text;
pub use word::Word;

// A room for an answer's text; no recorded one is longer.
pub type Answer = Text<16384>;

// A request: its word, where it is one of the bench's, and what the word is asked.
#[derive(Clone, Copy)]
pub struct Request<'a> {
    pub word: Option<Word>,
    rest: &'a [u8],
}

impl<'a> Request<'a> {
    // Takes a request's text apart at its first space. Where there is none, the last byte is taken for it.
    pub fn of(text: &'a [u8]) -> Request<'a> {
        let end = text.len().saturating_sub(1);
        let (name, rest) = text::split_once(text, b' ').unwrap_or((
            text::front(text, end),
            Default::default(),
        ));
        Request {
            word: Word::of(name),
            rest,
        }
    }

    // Leaves the answer's text alone in a room; it is empty where the word is not one of the bench's.
    pub fn answer<const N: usize>(self, answer: &mut Text<N>) {
        answer.clear();
        let Some(word) = self.word else {
            return;
        };
        let rest = self.rest;
        if let Err(refusal) = word.answer(Arguments { rest }, answer) {
            write!(answer, "{}", No(refusal));
        }
    }
}
