//! The words of a row: numbers, bytes, names and lists of numbers, and how they are printed.
use crate::row_fault::{Answer, RowFault};
use hex::FromHexError;
use mds_base::{Name, NameFault};
use percent_encoding::{AsciiSet, CONTROLS, percent_decode, percent_encode};
use std::alloc::{AllocError, Global};
use std::fmt::Write;

/// The words of a row that are still to be read, with one space between them. The word `K` stands for a number: in a
/// row that is run again and again, for that of the run.
#[derive(Clone, Copy)]
pub struct Words<'a> {
    rest: &'a str,
    run: u64,
}

impl<'a> Words<'a> {
    /// The words of a line, in the run of this number.
    pub fn new(line: &'a str, run: u64) -> Words<'a> {
        Words { rest: line, run }
    }

    /// The next word.
    pub fn word(&mut self) -> Result<&'a str, RowFault> {
        if self.rest.is_empty() {
            return Err(RowFault::NotARow);
        }
        match self.rest.split_once(' ') {
            Some((word, rest)) => {
                self.rest = rest;
                Ok(word)
            }
            None => {
                let word = self.rest;
                self.rest = "";
                Ok(word)
            }
        }
    }

    /// All that follows, as it stands.
    pub fn rest(self) -> &'a str {
        self.rest
    }

    /// The words of an action of this row.
    pub fn action(self, action: &'a str) -> Words<'a> {
        Words {
            rest: action,
            run: self.run,
        }
    }

    /// The same words, in the run of this number.
    pub fn in_run(self, run: u64) -> Words<'a> {
        Words {
            rest: self.rest,
            run,
        }
    }

    /// Whether no word is left.
    pub fn is_empty(&self) -> bool {
        self.rest.is_empty()
    }

    /// That no word is left.
    pub fn end(self) -> Result<(), RowFault> {
        if self.rest.is_empty() {
            Ok(())
        } else {
            Err(RowFault::NotARow)
        }
    }

    /// The next word, a decimal number.
    pub fn number(&mut self) -> Result<u64, RowFault> {
        number(self.word()?, self.run)
    }

    /// The next word, a decimal number below 2^32.
    pub fn small(&mut self) -> Result<u32, RowFault> {
        small(self.word()?)
    }

    /// The next word, a hexadecimal number.
    pub fn hex_number(&mut self) -> Result<u64, RowFault> {
        match u64::from_str_radix(self.word()?, 16) {
            Ok(number) => Ok(number),
            Err(_) => Err(RowFault::NotARow),
        }
    }

    /// The next word, bytes in hexadecimal; `-` is no byte.
    pub fn hex(&mut self, alloc: Global) -> Result<Vec<u8>, RowFault> {
        let word = self.word()?;
        if word == "-" {
            return Ok(Vec::new(alloc));
        }
        match hex::decode(alloc, word) {
            Ok(bytes) => Ok(bytes),
            Err(FromHexError::OutOfMemory) => Err(RowFault::OutOfMemory),
            Err(_) => Err(RowFault::NotARow),
        }
    }

    /// The next word, bytes of which `%` and two hexadecimal digits stand for one, and every other for itself; `-` is
    /// no byte.
    pub fn spelled(&mut self, alloc: Global) -> Result<Vec<u8>, RowFault> {
        let mut bytes = Vec::new(alloc);
        let word = self.word()?;
        if word != "-" {
            percent_decode(word.as_bytes()).append_to(&mut bytes)?;
        }
        Ok(bytes)
    }

    /// The next word, a name; the word is refused where its bytes are none.
    pub fn name(&mut self, alloc: Global) -> Result<Name, RowFault> {
        let bytes = self.spelled(alloc)?;
        match Name::read(alloc, bytes.as_slice()) {
            Ok(name) => Ok(name),
            Err(NameFault::BadName) => Err(RowFault::Refused),
            Err(NameFault::OutOfMemory) => Err(RowFault::OutOfMemory),
        }
    }

    /// The next word, decimal numbers with commas between them; `-` is no number.
    pub fn list(&mut self, alloc: Global) -> Result<Vec<u64>, RowFault> {
        let mut numbers = Vec::new(alloc);
        let word = self.word()?;
        if word != "-" {
            for part in word.split(',') {
                numbers.push(number(part, self.run)?)?;
            }
        }
        Ok(numbers)
    }
}

fn number(word: &str, run: u64) -> Result<u64, RowFault> {
    if word == "K" {
        return Ok(run);
    }
    match word.parse::<u64>() {
        Ok(number) => Ok(number),
        Err(_) => Err(RowFault::NotARow),
    }
}

fn small(word: &str) -> Result<u32, RowFault> {
    match word.parse::<u32>() {
        Ok(number) => Ok(number),
        Err(_) => Err(RowFault::NotARow),
    }
}

/// A text of one word.
pub fn text(alloc: Global, word: &str) -> Answer {
    Ok(String::from_str(alloc, word)?)
}

/// What stands between two actions of a row, and between their answers.
pub const BETWEEN: &str = "; ";

/// The answer to one action more, at the end of those before it. It is refused only where there is no memory.
pub fn push_answer(out: &mut String, answer: Answer) -> Result<(), AllocError> {
    if !out.as_str().is_empty() {
        out.push_str(BETWEEN)?;
    }
    match answer {
        Ok(said) => out.push_str(said.as_str()),
        Err(RowFault::OutOfMemory) => Err(AllocError),
        Err(fault) => write!(out, "{fault}"),
    }
}

/// `yes` or `no`.
pub fn yes_or_no(alloc: Global, yes: bool) -> Answer {
    text(alloc, if yes { "yes" } else { "no" })
}

/// Numbers with commas between them; `-` where there is none.
pub fn list_text(alloc: Global, numbers: &[u32]) -> Answer {
    if numbers.is_empty() {
        return text(alloc, "-");
    }
    let mut out = String::new(alloc);
    for number in numbers {
        if !out.as_str().is_empty() {
            out.push(',')?;
        }
        write!(out, "{number}")?;
    }
    Ok(out)
}

/// Bytes in hexadecimal; `-` where there is none.
pub fn hex_text(alloc: Global, bytes: &[u8]) -> Answer {
    if bytes.is_empty() {
        return text(alloc, "-");
    }
    Ok(hex::encode(alloc, bytes)?)
}

/// A name as a script spells it, at the end of a text.
pub fn push_name(out: &mut String, name: &Name) -> Result<(), AllocError> {
    percent_encode(name.bytes(), escaped()).append_to(out)
}

/// The bytes that a script spells as `%` and two digits.
fn escaped() -> AsciiSet {
    CONTROLS.add(b' ').add(b'%')
}
