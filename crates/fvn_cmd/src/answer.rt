//! Answers: a status and a text.
ghost use Rattle.std.specs.Prelude.{◌≡◌, ◌++◌, IfOk};
ghost use Rattle.fvn_cmd.specs.Texts.{bytes_of, line};

use crate::status::Status;
use fvn_terms::NoMemory;

/// A text that is written as it stands in the program, or one that was made.
#[derive(Drop)]
pub enum Text {
    Fixed(&'static [u8]),
    Made(Vec<u8>),
}

/// A status, and the text that goes with it.
#[derive(Drop)]
pub struct Answer {
    pub status: Status,
    pub text: Text,
}

impl Text {
    /// The bytes of the text.
    pub fn as_slice(&self) -> &[u8]
        ensures { result.now ≡ bytes_of self.now }
    {
        match self {
            Text::Fixed(bytes) => bytes,
            Text::Made(bytes) => bytes.as_slice(),
        }
    }
}

impl Answer {
    /// An answer whose text stands in the program.
    pub fn fixed(status: Status, text: &'static [u8]) -> Answer
        ensures status { result.status ≡ status }
        ensures text { bytes_of result.text ≡ text.now }
    {
        Answer {
            status,
            text: Text::Fixed(text),
        }
    }

    /// An answer of one line, which ends with a line feed.
    pub fn one_line(status: Status, mut text: Vec<u8>) -> Result<Answer, NoMemory>
        ensures status { IfOk result (λ a. a.status ≡ status) }
        ensures text { IfOk result (λ a. bytes_of a.text ≡ line text.items) }
    {
        text.push(b'\n')?;
        Ok(Answer {
            status,
            text: Text::Made(text),
        })
    }

    /// An answer of two lines, each of which ends with a line feed.
    pub fn two_lines(status: Status, mut first: Vec<u8>, second: &[u8]) -> Result<Answer, NoMemory>
        ensures status { IfOk result (λ a. a.status ≡ status) }
        ensures text { IfOk result (λ a.
            bytes_of a.text ≡ line first.items ++ line second.now) }
    {
        first.push(b'\n')?;
        first.extend_from_slice(second)?;
        first.push(b'\n')?;
        Ok(Answer {
            status,
            text: Text::Made(first),
        })
    }
}
