//! Reads a word as a name.
ghost use Rattle.std.specs.Prelude.{◌≡◌, ◌==◌, ◌<◌, length, MatchOption};
ghost use Rattle.std.specs.List.{list_any};
ghost use Rattle.script.specs.Answers.{Gives};
ghost use Rattle.script.specs.Reading.{onto, hex_byte, unescaped, checked_name, name_of};

use crate::fault::LineFault;
use mds_base::{Name, NameFault};
use std::alloc::Global;

/// The name that a word spells: `%` and two hexadecimal digits stand for one byte, every other byte for itself. It is
/// refused as `NotALine` exactly where the word spells no name.
#[tactic(auto, unfolding(crate::specs::Reading::name_of))]
pub fn name_of(alloc: Global, word: &[u8]) -> Result<Name, LineFault>
    ensures { Gives (λ name. name) result (name_of word.now) }
{
    if !has_escape(word) {
        return checked_name(alloc, word);
    }
    let bytes = unescaped(alloc, word)?;
    checked_name(alloc, bytes.as_slice())
}

/// Whether a word has an escape.
fn has_escape(word: &[u8]) -> bool
    ensures { result ≡ list_any (λ byte. byte == 37) word.now }
{
    word.iter().copied().any(|byte| byte == b'%')
}

fn checked_name(alloc: Global, bytes: &[u8]) -> Result<Name, LineFault>
    ensures { Gives (λ name. name) result (checked_name bytes.now) }
{
    match Name::read(alloc, bytes) {
        Ok(name) => Ok(name),
        Err(NameFault::BadName) => Err(LineFault::NotALine),
        Err(NameFault::OutOfMemory) => Err(LineFault::OutOfMemory),
    }
}

/// The bytes that a word spells.
fn unescaped(alloc: Global, word: &[u8]) -> Result<Vec<u8>, LineFault>
    ensures { Gives (λ v. v.items) result (unescaped word.now) }
{
    let mut bytes = Vec::new(alloc);
    let mut rest = word;
    while !rest.is_empty() {
        let Some((byte, after)) = first_byte(rest) else {
            return Err(LineFault::NotALine);
        };
        bytes.push(byte)?;
        rest = after;
    }
    Ok(bytes)
}

/// The byte that the front of a word spells, and what follows it.
fn first_byte(word: &[u8]) -> Option<(u8, &[u8])>
    requires { 0 < length word.now }
    ensures { MatchOption result (unescaped word.now ≡ None)
        (λ p. (unescaped word.now ≡ onto p.0 (unescaped p.1.now)) × (length p.1.now < length word.now)) }
{
    let (byte, rest) = word.split_first()?;
    if *byte != b'%' {
        return Some((*byte, rest));
    }
    let (high, rest) = rest.split_first()?;
    let (low, rest) = rest.split_first()?;
    let byte = hex_byte(*high, *low)?;
    Some((byte, rest))
}

/// The byte of two hexadecimal digits.
fn hex_byte(high: u8, low: u8) -> Option<u8>
    ensures { result ≡ hex_byte high low }
{
    let high = char::from(high).to_digit(16)?;
    let low = char::from(low).to_digit(16)?;
    Some((16 * high + low) as u8)
}
