// What can go wrong, as it is told on standard error.
use std::io::Write;
use std::{fmt, io, str};

#[derive(Drop)]
pub(crate) enum Failure {
    Input(io::Error),
    Output(io::Error),
}

impl fmt::Display for Failure {
    fn fmt<W: fmt::Write>(&self, f: &mut fmt::Formatter<W>) -> fmt::Result {
        match self {
            Failure::Input(error) => write!(f, "standard input cannot be read: {}", Reason(error)),
            Failure::Output(error) => write!(
                f,
                "standard output cannot be written: {}",
                Reason(error)
            ),
        }
    }
}

// The system's words for an error, without the number that std adds.
#[derive(Drop)]
struct Reason<'a>(&'a io::Error);

// More bytes than the text of an error has.
const TEXT_SIZE: usize = 300;

impl fmt::Display for Reason<'_> {
    fn fmt<W: fmt::Write>(&self, f: &mut fmt::Formatter<W>) -> fmt::Result {
        let mut text = [0u8; TEXT_SIZE];
        let mut rest: &mut [u8] = &mut text;
        let _ = write!(rest, "{}", self.0);
        f.write_str(words_of(&text))
    }
}

// Of a text that ends in zeros what stands before the number.
fn words_of(text: &[u8]) -> &str {
    let text = str::from_utf8(text).unwrap_or("");
    before(" (os error ", before("\0", text))
}

fn before<'a>(mark: &str, text: &'a str) -> &'a str {
    text.split_once(mark).map_or(text, |(first, _)| first)
}
