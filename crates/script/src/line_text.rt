//! A line of text, written without memory.
ghost use Rattle.std.specs.Prelude.{◌≡◌, ◌≤◌, ◌+◌, ◌∷◌, [], ◌++◌, ◌<◌, true, length, decimal};
ghost use Rattle.std.specs.Fmt.{digit_glyph};
ghost use Rattle.script.specs.Text.{byte_text, call_text, is_plain_byte, name_text, stamp_text};
ghost use Rattle.script.specs.declared.line_text.TheConstants.{CALL_TEXT, LINE_TEXT, NAME_TEXT, NUMBER_TEXT};
ghost use Rattle.script.specs.declared.line_text.TheConstants.{STAMP_TEXT};

use itoa::write_digits;
use mds_base::{Call, Name, Stamp};
use std::marker::Model;

/// The most bytes that a line of text has.
pub const LINE_TEXT: usize = 2048;

/// The most bytes of a number.
pub const NUMBER_TEXT: usize = 20;

/// The most bytes of a name: three for each of its bytes.
pub const NAME_TEXT: usize = 765;

/// The most bytes of a stamp.
pub const STAMP_TEXT: usize = 42;

/// The most bytes of a call.
pub const CALL_TEXT: usize = 900;

/// A line of text that is written from its end to its front, as the digits of a number come. It takes no memory.
#[derive(Drop)]
pub struct LineText {
    bytes: [u8; LINE_TEXT],
    // Where the text begins; it goes on to the end.
    from: usize,
}

impl Model for LineText {
    ghost use Rattle.std.specs.Prelude.{List, ℕ, ◌≤◌, drop};
    ghost use Rattle.script.specs.declared.line_text.TheConstants.{LINE_TEXT};

    ghost Value = { List ℕ };

    ghost view = { λ a. drop a.from a.bytes };

    ghost invariant = { λ a. a.from ≤ LINE_TEXT };
}

impl LineText {
    /// No text.
    pub fn new() -> LineText
        ensures { result ≡ [] }
    {
        LineText {
            bytes: [0; LINE_TEXT],
            from: LINE_TEXT,
        }
    }

    /// Takes the text away.
    pub fn clear(&mut self)
        ensures { self.new ≡ [] }
    {
        self.from = LINE_TEXT;
    }

    /// The text.
    pub fn bytes(&self) -> &[u8]
        ensures { result.now ≡ self.now }
    {
        &self.bytes[self.from..]
    }

    /// Puts a text in front.
    #[inline]
    pub fn put(&mut self, text: &[u8])
        requires { length text.now + length self.old ≤ LINE_TEXT }
        ensures { self.new ≡ text.now ++ self.old }
    {
        let to = self.from;
        self.from -= text.len();
        self.bytes[self.from..to].copy_from_slice(text);
    }

    /// Puts a number in front, in decimal.
    #[inline]
    pub fn put_number(&mut self, number: u64)
        requires { NUMBER_TEXT + length self.old ≤ LINE_TEXT }
        ensures text { self.new ≡ decimal number ++ self.old }
        ensures room { length self.new ≤ NUMBER_TEXT + length self.old }
    {
        self.from = write_digits(number, &mut self.bytes, self.from);
    }

    /// Puts a blank and a number in front.
    #[inline]
    pub fn put_spaced(&mut self, number: u64)
        requires { NUMBER_TEXT + 1 + length self.old ≤ LINE_TEXT }
        ensures text { self.new ≡ 32 ∷ decimal number ++ self.old }
        ensures room { length self.new ≤ NUMBER_TEXT + 1 + length self.old }
    {
        self.put_number(number);
        self.put(b" ");
    }

    /// Puts the owner and the time of a stamp in front, where there is one, each behind a blank.
    pub fn put_stamp(&mut self, stamp: Option<Stamp>)
        requires { STAMP_TEXT + length self.old ≤ LINE_TEXT }
        ensures text { self.new ≡ stamp_text stamp ++ self.old }
        ensures room { length self.new ≤ STAMP_TEXT + length self.old }
    {
        match stamp {
            None => {}
            Some(Stamp { owner, mtime }) => {
                self.put_spaced(mtime);
                self.put_spaced(u64::from(owner));
            }
        }
    }

    /// Puts a name in front, as a script spells it: bytes 21 to 7e (hexadecimal) but `%` as they are, every other byte
    /// as `%` and two hexadecimal digits.
    pub fn put_name(&mut self, name: &Name)
        requires { NAME_TEXT + length self.old ≤ LINE_TEXT }
        ensures text { self.new ≡ name_text name.now ++ self.old }
        ensures room { length self.new ≤ NAME_TEXT + length self.old }
    {
        let bytes = name.bytes();
        let mut at = bytes.len();
        while at > 0 {
            at -= 1;
            self.put_byte(bytes[at]);
        }
    }

    /// Puts a byte of a name in front.
    #[inline]
    fn put_byte(&mut self, byte: u8)
        requires { 3 + length self.old ≤ LINE_TEXT }
        ensures text { self.new ≡ byte_text byte ++ self.old }
        ensures room { length self.new ≤ 3 + length self.old }
    {
        if is_plain(byte) {
            self.put(&[byte]);
        } else {
            self.put(&[b'%', hex_digit(byte / 16), hex_digit(byte % 16)]);
        }
    }

    /// Puts a word, the number of a directory and a name in front.
    fn put_named(&mut self, word: &[u8], dir: u64, name: &Name)
        requires { length word.now + NUMBER_TEXT + 2 + NAME_TEXT + length self.old ≤ LINE_TEXT }
        ensures text { self.new ≡ word.now ++ 32 ∷ decimal dir ++ 32 ∷ name_text name.now ++ self.old }
        ensures room { length self.new ≤ length word.now + NUMBER_TEXT + 2 + NAME_TEXT + length self.old }
    {
        self.put_name(name);
        self.put(b" ");
        self.put_numbered(word, dir);
    }

    /// Puts a word and a number in front.
    #[inline]
    fn put_numbered(&mut self, word: &[u8], number: u64)
        requires { length word.now + NUMBER_TEXT + 1 + length self.old ≤ LINE_TEXT }
        ensures text { self.new ≡ word.now ++ 32 ∷ decimal number ++ self.old }
        ensures room { length self.new ≤ length word.now + NUMBER_TEXT + 1 + length self.old }
    {
        self.put_spaced(number);
        self.put(word);
    }

    /// Puts a call in front, as a line of a script says it.
    pub fn put_call(&mut self, call: &Call)
        requires { CALL_TEXT + length self.old ≤ LINE_TEXT }
        ensures text { self.new ≡ call_text call.now ++ self.old }
        ensures room { length self.new ≤ CALL_TEXT + length self.old }
    {
        match call {
            Call::Create { dir, name } => self.put_named(b"create", *dir, name),
            Call::Mkdir { dir, name } => self.put_named(b"mkdir", *dir, name),
            Call::Remove { dir, name } => self.put_named(b"remove", *dir, name),
            Call::Lookup { dir, name } => self.put_named(b"lookup", *dir, name),
            Call::Setattr {
                dir,
                name,
                mode,
                size,
                stamp,
            } => {
                self.put_stamp(*stamp);
                self.put_spaced(*size);
                self.put_spaced(u64::from(*mode));
                self.put_named(b"setattr", *dir, name);
            }
            Call::Scan { dir } => self.put_numbered(b"scan", *dir),
            Call::Grab { dir, name, count } => {
                self.put_spaced(u64::from(*count));
                self.put_named(b"grab", *dir, name);
            }
            Call::Load { dir, rows } => {
                self.put_spaced(rows.rows().len() as u64);
                self.put_numbered(b"load", *dir);
            }
            Call::Link { dir, name, id } => {
                self.put_spaced(*id);
                self.put_named(b"link", *dir, name);
            }
            Call::Seal { dir, part, epoch } => {
                self.put_spaced(*epoch);
                self.put_spaced(u64::from(*part));
                self.put_numbered(b"seal", *dir);
            }
            Call::Unseal { dir, part, epoch } => {
                self.put_spaced(*epoch);
                self.put_spaced(u64::from(*part));
                self.put_numbered(b"unseal", *dir);
            }
            Call::Kill { dir, epoch } => {
                self.put_spaced(*epoch);
                self.put_numbered(b"kill", *dir);
            }
            Call::Unlink { dir, name, id } => {
                self.put_spaced(*id);
                self.put_named(b"unlink", *dir, name);
            }
        }
    }
}

/// Whether a byte of a name is printed as itself.
fn is_plain(byte: u8) -> bool
    ensures { result ≡ is_plain_byte byte }
{
    (33..=126).contains(&byte) && byte != b'%'
}

/// A hexadecimal digit, in upper case.
fn hex_digit(digit: u8) -> u8
    requires { digit < 16 }
    ensures { result ≡ digit_glyph true digit }
{
    if digit < 10 {
        b'0' + digit
    } else {
        b'A' + (digit - 10)
    }
}
