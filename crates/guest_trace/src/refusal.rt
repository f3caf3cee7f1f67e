//! Why a run isn't traced to its end, and the line that says so.

use elf_spec::Refusal as ImageRefusal;
use schedule_list::ParseError;
use std::alloc::{AllocError, AllocFailed};
use std::io::Eprint;
use std::process::ExitCode;
use std::{fmt, io};

/// Why an entry isn't permitted.
#[derive(Clone, Copy)]
pub enum Why {
    /// The run has ended before it.
    Ended,
    /// No thread has its number.
    Nobody,
    /// Its thread waits.
    Waits,
    /// Its thread has ended.
    Exited,
}

/// Why a run isn't traced to its end.
#[derive(Clone, Copy)]
pub enum Refusal {
    /// The arguments aren't three names and then options.
    Words,
    /// The file that this argument names can't be read.
    Unread(usize),
    /// The file that this argument names is too large.
    TooLarge(usize),
    /// The executable isn't taken.
    Image(ImageRefusal),
    /// This token isn't a thread number.
    Token(usize),
    /// This entry isn't permitted.
    Forbidden(usize, u8, Why),
    /// No end comes after the last entry.
    Incomplete,
    /// The output can't be written.
    Output,
    /// The host's memory ran out.
    NoMemory,
}

impl From<AllocError> for Refusal {
    fn from(_error: AllocError) -> Refusal {
        Refusal::NoMemory
    }
}

impl<T: Drop> From<AllocFailed<T>> for Refusal {
    fn from(_failed: AllocFailed<T>) -> Refusal {
        Refusal::NoMemory
    }
}

impl From<ParseError> for Refusal {
    fn from(error: ParseError) -> Refusal {
        match error {
            ParseError::BadToken(place) => Refusal::Token(place),
            ParseError::NoMemory => Refusal::NoMemory,
        }
    }
}

impl From<io::Error> for Refusal {
    fn from(_error: io::Error) -> Refusal {
        Refusal::Output
    }
}

impl fmt::Display for Why {
    fn fmt<W: fmt::Write>(&self, f: &mut fmt::Formatter<W>) -> fmt::Result {
        let text = match self {
            Why::Ended => "the run has ended before it",
            Why::Nobody => "there is no such thread",
            Why::Waits => "the thread waits",
            Why::Exited => "the thread has ended",
        };
        f.write_str(text)
    }
}

/// The argument at a place, or an empty text if there is none.
fn word_at(words: &[String], place: usize) -> &str {
    if place < words.len() {
        words[place].as_str()
    } else {
        ""
    }
}

impl Refusal {
    /// The exit status.
    fn status(self) -> u8 {
        match self {
            Refusal::Words => 2,
            Refusal::Image(_) => 3,
            Refusal::Unread(_) => 6,
            Refusal::Output => 7,
            Refusal::NoMemory => 8,
            Refusal::TooLarge(_) => 9,
            Refusal::Token(_) | Refusal::Forbidden(_, _, _) | Refusal::Incomplete => 10,
        }
    }

    /// Reports it on standard error, in one line, and returns the exit status.
    pub fn reported<R: Eprint>(self, rt: &R, words: &[String]) -> ExitCode {
        let _ = match self {
            Refusal::Words => eprintln!(rt;
                "words: ELF INPUT SCHEDULE are wanted, and then --fuel F or --steps S"
            ),
            Refusal::Unread(place) => eprintln!(rt; "read {}", word_at(words, place)),
            Refusal::TooLarge(place) => eprintln!(rt; "too large {}", word_at(words, place)),
            Refusal::Image(why) => eprintln!(rt; "image: {why:?}"),
            Refusal::Token(place) => eprintln!(rt; "schedule: token {place}"),
            Refusal::Forbidden(place, thread, why) => {
                eprintln!(rt; "schedule: entry {place}, thread {thread}: {why}")
            }
            Refusal::Incomplete => eprintln!(rt; "schedule: incomplete"),
            Refusal::Output => eprintln!(rt; "write output"),
            Refusal::NoMemory => eprintln!(rt; "no memory"),
        };
        ExitCode::from(self.status())
    }
}
