//! Text that is put together: what is printed, and scripts.
use itoa::Buffer;
use std::alloc::{AllocError, Global};

/// A text.
#[derive(Drop)]
pub struct Text {
    bytes: Vec<u8>,
}

impl Text {
    pub fn new(alloc: Global) -> Text {
        Text {
            bytes: Vec::new(alloc),
        }
    }

    pub fn bytes(&self) -> &[u8] {
        &self.bytes
    }

    pub fn add(&mut self, words: &str) -> Result<(), AllocError> {
        self.bytes.extend_from_slice(words.as_bytes())
    }

    pub fn add_number(&mut self, number: u64) -> Result<(), AllocError> {
        self.add(Buffer::new().format(number))
    }

    /// Adds a line of a word and numbers.
    pub fn add_heading(&mut self, word: &str, numbers: &[u64]) -> Result<(), AllocError> {
        self.add(word)?;
        for number in numbers {
            self.add(" ")?;
            self.add_number(*number)?;
        }
        self.add("\n")
    }

    /// Adds replies, and ends their last line where it was cut off.
    pub fn add_replies(&mut self, replies: &[u8]) -> Result<(), AllocError> {
        self.bytes.extend_from_slice(replies)?;
        match replies.last() {
            None | Some(b'\n') => Ok(()),
            Some(_) => self.add("\n"),
        }
    }
}
