//! Rows of `bitmap`. A bitmap is written as the list of its partitions.
use crate::plain_bitmap::{PARTS, PlainBitmap};
use bitmap::{Bitmap, WORDS};
use chains::reverse;
use mds_base::RADIX;
use row_words::{Answer, RowFault, Words, list_text, text, yes_or_no};
use std::alloc::{AllocError, Global};
use std::fmt::Write;

/// `from_words WORD ..`, `words SET`, `has SET PART`, `add_child SET PART DEPTH`, `merge SET SET`, `locate SET HASH`,
/// `depth SET PART`, `range_of SET PART`, `random SEED TRIES`.
pub(crate) fn answer(alloc: Global, mut words: Words<'_>) -> Answer {
    match words.word()? {
        "from_words" => from_words_row(alloc, words),
        "words" => words_row(alloc, words),
        "has" => has_row(alloc, words),
        "add_child" => add_child_row(alloc, words),
        "merge" => merge_row(alloc, words),
        "locate" => locate_row(alloc, words),
        "depth" => depth_row(alloc, words),
        "range_of" => range_row(alloc, words),
        "random" => random_row(alloc, words),
        _ => Err(RowFault::NotARow),
    }
}

/// The bitmap of the partitions that the next word lists; it is refused where they are not well formed.
fn bitmap_of(alloc: Global, words: &mut Words<'_>) -> Result<Bitmap, RowFault> {
    let parts = words.list(alloc)?;
    let mut spelled = [0; WORDS];
    for part in &parts {
        if *part >= u64::from(PARTS) {
            return Err(RowFault::Refused);
        }
        spelled[(*part / 64) as usize] |= 1 << (*part % 64);
    }
    match Bitmap::from_words(&spelled) {
        Ok(bitmap) => Ok(bitmap),
        Err(_) => Err(RowFault::Refused),
    }
}

/// The partitions of a bitmap, listed.
fn set_text(alloc: Global, bitmap: &Bitmap) -> Answer {
    let mut parts = Vec::new(alloc);
    for part in 0..PARTS {
        if bitmap.has(part) {
            parts.push(part)?;
        }
    }
    list_text(alloc, parts.as_slice())
}

fn from_words_row(alloc: Global, mut words: Words<'_>) -> Answer {
    let mut spelled = [0; WORDS];
    for word in &mut spelled {
        if !words.is_empty() {
            *word = words.hex_number()?;
        }
    }
    words.end()?;
    match Bitmap::from_words(&spelled) {
        Ok(bitmap) => set_text(alloc, &bitmap),
        Err(fault) => Ok(format!(in alloc; "missing {}", fault.bit)?),
    }
}

fn words_row(alloc: Global, mut words: Words<'_>) -> Answer {
    let bitmap = bitmap_of(alloc, &mut words)?;
    words.end()?;
    let mut out = String::new(alloc);
    for word in bitmap.words() {
        if !out.as_str().is_empty() {
            out.push(' ')?;
        }
        write!(out, "{word:x}")?;
    }
    Ok(out)
}

fn has_row(alloc: Global, mut words: Words<'_>) -> Answer {
    let bitmap = bitmap_of(alloc, &mut words)?;
    let part = words.small()?;
    words.end()?;
    yes_or_no(alloc, bitmap.has(part))
}

fn add_child_row(alloc: Global, mut words: Words<'_>) -> Answer {
    let mut bitmap = bitmap_of(alloc, &mut words)?;
    let part = words.small()?;
    let depth = words.small()?;
    words.end()?;
    if depth >= RADIX || part >= 1 << depth {
        return Err(RowFault::Refused);
    }
    match bitmap.add_child(part, depth) {
        Ok(()) => set_text(alloc, &bitmap),
        Err(fault) => Ok(format!(in alloc; "missing {}", fault.bit)?),
    }
}

fn merge_row(alloc: Global, mut words: Words<'_>) -> Answer {
    let mut bitmap = bitmap_of(alloc, &mut words)?;
    let other = bitmap_of(alloc, &mut words)?;
    words.end()?;
    bitmap.merge(&other);
    set_text(alloc, &bitmap)
}

fn locate_row(alloc: Global, mut words: Words<'_>) -> Answer {
    let bitmap = bitmap_of(alloc, &mut words)?;
    let hash = words.hex_number()?;
    words.end()?;
    let part = bitmap.locate(hash);
    Ok(format!(in alloc; "{part}")?)
}

fn depth_row(alloc: Global, mut words: Words<'_>) -> Answer {
    let bitmap = bitmap_of(alloc, &mut words)?;
    let part = words.small()?;
    words.end()?;
    if !bitmap.has(part) {
        return Err(RowFault::Refused);
    }
    let depth = bitmap.depth(part);
    Ok(format!(in alloc; "{depth}")?)
}

fn range_row(alloc: Global, mut words: Words<'_>) -> Answer {
    let bitmap = bitmap_of(alloc, &mut words)?;
    let part = words.small()?;
    words.end()?;
    if !bitmap.has(part) {
        return Err(RowFault::Refused);
    }
    let span = bitmap.range_of(part);
    Ok(format!(in alloc; "{:016x} {:016x}", span.first, span.last)?)
}

/// A bitmap and the plain one that is grown with it.
#[derive(Drop)]
struct Pair {
    bitmap: Bitmap,
    plain: PlainBitmap,
}

/// Grows a bitmap by so many children that are tried, beside a plain one, and compares every call on both; `ok`, or
/// the first difference.
fn random_row(alloc: Global, mut words: Words<'_>) -> Answer {
    let mut numbers = Numbers(words.number()? | 1);
    let tries = words.number()?;
    words.end()?;
    let mut pair = new_pair(alloc)?;
    for _ in 0..tries {
        if let Some(text) = try_child(alloc, &mut numbers, &mut pair)? {
            return Ok(text);
        }
    }
    if let Some(text) = compare_parts(alloc, &pair)? {
        return Ok(text);
    }
    if let Some(text) = compare_hashes(alloc, &mut numbers, &pair)? {
        return Ok(text);
    }
    let mut other = new_pair(alloc)?;
    for _ in 0..tries / 2 {
        if let Some(text) = try_child(alloc, &mut numbers, &mut other)? {
            return Ok(text);
        }
    }
    compare_merged(alloc, pair, &other)
}

fn new_pair(alloc: Global) -> Result<Pair, AllocError> {
    Ok(Pair {
        bitmap: Bitmap::zero(),
        plain: PlainBitmap::zero(alloc)?,
    })
}

/// Tries a child on both; a difference, where there is one.
fn try_child(
    alloc: Global,
    numbers: &mut Numbers,
    pair: &mut Pair,
) -> Result<Option<String>, AllocError> {
    let number = numbers.next();
    let depth = (number % u64::from(RADIX)) as u32;
    let part = ((number >> 32) % (1 << depth)) as u32;
    let child = part + (1 << depth);
    let before = pair.plain.has(child);
    pair.plain.put(child, true);
    let missing = pair.plain.least_missing();
    if missing.is_some() {
        pair.plain.put(child, before);
    }
    let added = match pair.bitmap.add_child(part, depth) {
        Ok(()) => None,
        Err(fault) => Some(fault.bit),
    };
    if added == missing {
        return Ok(None);
    }
    let text = format!(in alloc; "add_child {part} {depth}: {added:?} and {missing:?}")?;
    Ok(Some(text))
}

/// Compares `has`, `depth` and the words; a difference, where there is one.
fn compare_parts(alloc: Global, pair: &Pair) -> Result<Option<String>, AllocError> {
    let Pair { bitmap, plain } = pair;
    for part in 0..PARTS {
        if bitmap.has(part) != plain.has(part) {
            let text = format!(in alloc; "has {part}")?;
            return Ok(Some(text));
        }
        if bitmap.has(part) && bitmap.depth(part) != plain.depth(part) {
            let text = format!(in alloc; "depth {part}")?;
            return Ok(Some(text));
        }
    }
    match Bitmap::from_words(&bitmap.words()) {
        Ok(again) if again == *bitmap => Ok(None),
        _ => Ok(Some(String::from_str(alloc, "from_words")?)),
    }
}

/// Compares where hashes are located, and the ranges there; a difference, where there is one.
fn compare_hashes(
    alloc: Global,
    numbers: &mut Numbers,
    pair: &Pair,
) -> Result<Option<String>, AllocError> {
    for _ in 0..200 {
        let hash = numbers.next();
        let part = pair.bitmap.locate(hash);
        if part != pair.plain.located(hash) || !pair.bitmap.has(part) {
            let text = format!(in alloc; "locate {hash:x}")?;
            return Ok(Some(text));
        }
        let span = pair.bitmap.range_of(part);
        let reversed = reverse(hash);
        if reversed < span.first || span.last < reversed {
            let text = format!(in alloc; "range_of {part}: {hash:x} is not in it")?;
            return Ok(Some(text));
        }
    }
    Ok(None)
}

/// Compares the union of two; `ok`, or the difference.
fn compare_merged(alloc: Global, pair: Pair, other: &Pair) -> Answer {
    let mut both = pair.bitmap;
    both.merge(&other.bitmap);
    for part in 0..PARTS {
        if both.has(part) != (pair.plain.has(part) || other.plain.has(part)) {
            return Ok(format!(in alloc; "merge {part}")?);
        }
    }
    text(alloc, "ok")
}

/// Numbers that only look random (xorshift).
#[derive(Drop)]
struct Numbers(u64);

impl Numbers {
    fn next(&mut self) -> u64 {
        self.0 ^= self.0 << 13;
        self.0 ^= self.0 >> 7;
        self.0 ^= self.0 << 17;
        self.0
    }
}
