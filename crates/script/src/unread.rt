//! What of a line is not read yet, and what is read off its front: a word, a number, a name, the rest as it stands.
ghost use Rattle.std.specs.Prelude.{◌≡◌, ◌≤◌, IfOk};
ghost use Rattle.script.specs.Words.{word_at, rest_at};
ghost use Rattle.script.specs.Answers.{Finds, Gives};
ghost use Rattle.script.specs.Reading.{is_end, number_at, number_within, server_at, client_at, name_at, directory_at};
ghost use Rattle.script.specs.Reading.{place_at};

use crate::byte_list::ByteList;
use crate::escape::name_of;
use crate::fault::{LineFault, Outside};
use crate::number::number_of;
use crate::words::{first_word, whole_rest};
use mds_base::{Name, Setup, is_directory_number};
use std::alloc::Global;
use std::marker::Model;

/// The bytes of a line that are not read yet. What is read is taken off their front; where that is refused, they are of
/// no use any more.
#[derive(Drop)]
pub(crate) struct Unread<'a> {
    bytes: &'a [u8],
}

impl<'a> Model for Unread<'a> {
    ghost use Rattle.std.specs.Prelude.{List, ℕ};

    ghost Value = { List ℕ };

    ghost view = { λ a. a.bytes.now };
}

impl<'a> Unread<'a> {
    /// All bytes of a line.
    pub(crate) fn new(bytes: &'a [u8]) -> Unread<'a>
        ensures { result ≡ bytes.now }
    {
        Unread { bytes }
    }

    /// Whether no word is left.
    #[tactic(auto, unfolding(crate::specs::Reading::is_end))]
    pub(crate) fn is_end(&self) -> bool
        ensures { result ≡ is_end self.now }
    {
        first_word(self.bytes).is_none()
    }

    pub(crate) fn word(&mut self) -> Result<&'a [u8], Outside>
        ensures { Finds (λ word. (word.now, self.new)) result (word_at self.old) }
    {
        let Some((word, rest)) = first_word(self.bytes) else {
            return Err(Outside);
        };
        self.bytes = rest;
        Ok(word)
    }

    /// All bytes from the first word on.
    fn rest(&mut self) -> Result<&'a [u8], Outside>
        ensures { Finds (λ text. (text.now, self.new)) result (rest_at self.old) }
    {
        let Some((text, rest)) = whole_rest(self.bytes) else {
            return Err(Outside);
        };
        self.bytes = rest;
        Ok(text)
    }

    #[tactic(auto, unfolding(crate::specs::Reading::number_at))]
    pub(crate) fn number(&mut self) -> Result<u64, Outside>
        ensures { Finds (λ number. (number, self.new)) result (number_at self.old) }
    {
        let Some(number) = number_of(self.word()?) else {
            return Err(Outside);
        };
        Ok(number)
    }

    /// A number from `least` to `most`.
    #[tactic(auto, unfolding(crate::specs::Reading::number_within))]
    pub(crate) fn number_within(&mut self, least: u64, most: u64) -> Result<u64, Outside>
        ensures finds { Finds (λ number. (number, self.new)) result (number_within least most self.old) }
        ensures within { IfOk result (λ number. number ≤ most) }
    {
        let number = self.number()?;
        if least <= number && number <= most {
            Ok(number)
        } else {
            Err(Outside)
        }
    }

    #[tactic(auto, unfolding(crate::specs::Reading::server_at))]
    pub(crate) fn server(&mut self, setup: &Setup) -> Result<u32, Outside>
        ensures { Finds (λ server. (server, self.new)) result (server_at setup.now self.old) }
    {
        let number = self.number()?;
        if number < u64::from(setup.servers) {
            Ok(number as u32)
        } else {
            Err(Outside)
        }
    }

    pub(crate) fn client(&mut self, setup: &Setup) -> Result<u32, Outside>
        ensures { Finds (λ client. (client, self.new)) result (client_at setup.now self.old) }
    {
        let number = self.number_within(1, u64::from(setup.clients))?;
        Ok(number as u32)
    }

    /// The number of a directory.
    #[tactic(auto, unfolding(crate::specs::Reading::directory_at))]
    pub(crate) fn directory(&mut self) -> Result<u64, Outside>
        ensures { Finds (λ dir. (dir, self.new)) result (directory_at self.old) }
    {
        let number = self.number()?;
        if is_directory_number(number) {
            Ok(number)
        } else {
            Err(Outside)
        }
    }

    /// A directory and a name in it.
    #[tactic(auto, unfolding(crate::specs::Reading::place_at))]
    pub(crate) fn place(&mut self, alloc: Global) -> Result<(u64, Name), LineFault>
        ensures { Gives (λ place. (place.0, place.1, self.new)) result (place_at self.old) }
    {
        let dir = self.directory()?;
        let name = self.name(alloc)?;
        Ok((dir, name))
    }

    #[tactic(auto, unfolding(crate::specs::Reading::name_at))]
    fn name(&mut self, alloc: Global) -> Result<Name, LineFault>
        ensures { Gives (λ name. (name, self.new)) result (name_at self.old) }
    {
        let word = self.word()?;
        let name = name_of(alloc, word)?;
        Ok(name)
    }

    /// A word, as it stands.
    pub(crate) fn raw_word(&mut self, alloc: Global) -> Result<ByteList, LineFault>
        ensures { Gives (λ list. (list, self.new)) result (word_at self.old) }
    {
        let word = self.word()?;
        let list = ByteList::from_slice(alloc, word)?;
        Ok(list)
    }

    /// The rest of the line, as it stands.
    pub(crate) fn raw_rest(&mut self, alloc: Global) -> Result<ByteList, LineFault>
        ensures { Gives (λ list. (list, self.new)) result (rest_at self.old) }
    {
        let text = self.rest()?;
        let list = ByteList::from_slice(alloc, text)?;
        Ok(list)
    }
}
