// Answers as the bench writes them.
use refusal::Refusal;
use std::fmt;
use text::refusals::Details;
use text::{Hex, Text};

// `ok` and what was asked for.
pub fn ok<T: fmt::Display + Drop, const N: usize>(answer: &mut Text<N>, value: T) {
    write!(answer, "ok {value}");
}

pub fn ok_or_none<T: fmt::Display + Drop, const N: usize>(answer: &mut Text<N>, value: Option<T>) {
    match value {
        Some(value) => ok(answer, value),
        None => ok(answer, "none"),
    }
}

// `no`, the refusal's number and its details.
#[derive(Clone, Copy)]
pub struct No(pub Refusal);

impl fmt::Display for No {
    fn fmt<W: fmt::Write>(&self, f: &mut fmt::Formatter<W>) -> fmt::Result {
        write!(f, "no {}{}", self.0.number(), Details(self.0))
    }
}

// Bytes in hexadecimal, `-` for none.
#[derive(Clone, Copy)]
pub struct Listed<'a>(pub &'a [u8]);

impl fmt::Display for Listed<'_> {
    fn fmt<W: fmt::Write>(&self, f: &mut fmt::Formatter<W>) -> fmt::Result {
        if self.0.is_empty() {
            return f.write_str("-");
        }
        let hex = Hex {
            bytes: self.0,
            behind: "",
        };
        write!(f, "{hex}")
    }
}

// What a writer answered, and the whole buffer that it was lent.
pub fn wrote<const N: usize>(answer: &mut Text<N>, count: Result<usize, Refusal>, lent: &[u8]) {
    let lent = Listed(lent);
    match count {
        Ok(n) => write!(answer, "ok {n} | {lent}"),
        Err(e) => write!(answer, "{} | {lent}", No(e)),
    }
}
