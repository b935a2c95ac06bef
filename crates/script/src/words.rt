//! Takes the first word off a line.
ghost use Rattle.std.specs.Prelude.{◌≡◌, MatchOption, None, Some};
ghost use Rattle.script.specs.Words.{is_blank, blanks, letters, word_at, rest_at};

/// The first word of bytes and what is behind it, where there is a word.
pub(crate) fn first_word(bytes: &[u8]) -> Option<(&[u8], &[u8])>
    ensures { MatchOption result (word_at bytes.now ≡ None) (λ p. word_at bytes.now ≡ Some (p.0.now, p.1.now)) }
{
    let start = &bytes[blanks(bytes)..];
    if start.is_empty() {
        return None;
    }
    Some(start.split_at(letters(start)))
}

/// All bytes from the first word on, where there is one, and the nothing behind them.
pub(crate) fn whole_rest(bytes: &[u8]) -> Option<(&[u8], &[u8])>
    ensures { MatchOption result (rest_at bytes.now ≡ None) (λ p. rest_at bytes.now ≡ Some (p.0.now, p.1.now)) }
{
    let start = &bytes[blanks(bytes)..];
    if start.is_empty() {
        return None;
    }
    Some(start.split_at(start.len()))
}

/// How many blanks stand before the first word.
fn blanks(bytes: &[u8]) -> usize
    ensures { result ≡ blanks bytes.now }
{
    bytes.iter().take_while(|byte| is_blank(**byte)).count()
}

/// How long the word is with which the bytes begin.
fn letters(bytes: &[u8]) -> usize
    ensures { result ≡ letters bytes.now }
{
    bytes.iter().take_while(|byte| !is_blank(**byte)).count()
}

/// Whether a byte stands between words.
fn is_blank(byte: u8) -> bool
    ensures { result ≡ is_blank byte }
{
    byte == b' ' || byte == b'\t'
}
