//! Reads the words of the command line (`docs/FORMATS.md`, "Words, script and text").
ghost use Rattle.std.specs.Prelude.{◌≡◌, ℕ, ◌<◌, List, map, string_bytes, MatchOption};
ghost use Rattle.mds_base.specs.declared.setup.Setup.{Setup};
ghost use Rattle.mds_cli.specs.Words.{AreOptions, AsksFor};
ghost use Rattle.mds_cli.specs.Choices.{IsNumber, Names, Gives, Chooses, chosen, option_of};
ghost use Rattle.mds_cli.specs.declared.words.Choice.{Choice};

use mds_base::Setup;

/// The most servers that a run may have.
const MOST_SERVERS: u32 = 32;

/// The most clients that a run may have.
const MOST_CLIENTS: u32 = 64;

/// How many options there are.
const OPTIONS: usize = 2;

/// What a run without options has. Nothing splits yet, and nothing is leased.
const DEFAULT: Setup = Setup {
    servers: 1,
    threshold: 8000,
    lease: 0,
    clients: 8,
};

/// The setup that the words of the command line ask for, or `None` exactly where they ask for none.
pub fn setup_of(words: &[String]) -> Option<Setup>
    ensures { MatchOption result
        ((setup : Setup) → AsksFor (map (λ word. string_bytes word) words.now) setup → ⊥)
        (λ setup. AsksFor (map (λ word. string_bytes word) words.now) setup) }
{
    let (command, options) = words.split_first()?;
    if command.as_str() != "solo" {
        return None;
    }
    setup_with(options)
}

/// How many disks a run by these words takes, one for each server, or `None` exactly where they ask for no setup.
pub fn disks_of(words: &[String]) -> Option<u32>
    ensures { MatchOption result
        ((setup : Setup) → AsksFor (map (λ word. string_bytes word) words.now) setup → ⊥)
        (λ count. (setup : Setup) × AsksFor (map (λ word. string_bytes word) words.now) setup
        × (count ≡ setup.servers)) }
{
    setup_of(words).map(|setup| setup.servers)
}

/// The law of the command line: its words ask for at most one setup.
pub fn laws_of_words()
    ensures one { (words : List (List ℕ)) → (a b : Setup) → AsksFor words a → AsksFor words b → a ≡ b }
{}

/// The setup that options give, each at most once.
fn setup_with(options: &[String]) -> Option<Setup>
    ensures { let texts = map (λ word. string_bytes word) options.now in MatchOption result
        ((setup : Setup) → AreOptions texts setup → ⊥)
        (λ setup. AreOptions texts setup) }
{
    let mut setup = DEFAULT;
    let mut given = [false; OPTIONS];
    let mut rest = options;
    while !rest.is_empty() {
        let (choice, behind) = choice_of(rest)?;
        let option = choice.option();
        if given[option] {
            return None;
        }
        given[option] = true;
        setup = choice.choose(setup);
        rest = behind;
    }
    Some(setup)
}

/// An option with its number. One more costs a variant here, and a row of each function and definition on `Choice`.
#[derive(Clone, Copy)]
enum Choice {
    /// How many servers there are.
    Servers(u32),
    /// How many clients there are.
    Clients(u32),
}

impl Choice {
    /// Which option it is.
    fn option(self) -> usize
        ensures is { result ≡ option_of self }
        ensures within { result < 2 }
    {
        match self {
            Choice::Servers(_) => 0,
            Choice::Clients(_) => 1,
        }
    }

    /// The setup with this number.
    fn choose(self, setup: Setup) -> Setup
        ensures { result ≡ chosen setup self }
    {
        match self {
            Choice::Servers(servers) => Setup { servers, ..setup },
            Choice::Clients(clients) => Setup { clients, ..setup },
        }
    }
}

/// The option that the words begin with, and the words behind it.
fn choice_of(words: &[String]) -> Option<(Choice, &[String])>
    ensures { let texts = map (λ word. string_bytes word) words.now in MatchOption result
        ((choice : Choice) → (rest : List (List ℕ)) → Chooses choice texts rest → ⊥)
        (λ p. Chooses p.0 texts (map (λ word. string_bytes word) p.1.now)) }
{
    if let Some((servers, rest)) = number_of(words, "--servers", MOST_SERVERS) {
        Some((Choice::Servers(servers), rest))
    } else if let Some((clients, rest)) = number_of(words, "--clients", MOST_CLIENTS) {
        Some((Choice::Clients(clients), rest))
    } else {
        None
    }
}

/// The number, at most `most`, of the option `name` that the words begin with, and the words behind it.
fn number_of<'a>(words: &'a [String], name: &str, most: u32) -> Option<(u32, &'a [String])>
    ensures { let texts = map (λ word. string_bytes word) words.now in MatchOption result
        ((value : ℕ) → (rest : List (List ℕ)) → Gives name.now most value texts rest → ⊥)
        (λ p. Gives name.now most p.0 texts (map (λ word. string_bytes word) p.1.now)) }
{
    let (text, rest) = text_of(words, name)?;
    Some((number_within(text, most)?, rest))
}

/// What stands for the number of the option `name` that the words begin with, and the words behind it.
fn text_of<'a>(words: &'a [String], name: &str) -> Option<(&'a str, &'a [String])>
    ensures { let texts = map (λ word. string_bytes word) words.now in MatchOption result
        ((text : List ℕ) → (rest : List (List ℕ)) → Names name.now text texts rest → ⊥)
        (λ p. Names name.now p.0.now texts (map (λ word. string_bytes word) p.1.now)) }
{
    let (first, rest) = words.split_first()?;
    let behind = first.as_str().strip_prefix(name)?;
    if behind.is_empty() {
        let (value, rest) = rest.split_first()?;
        Some((value.as_str(), rest))
    } else {
        Some((behind.strip_prefix('=')?, rest))
    }
}

/// The number from 1 to `most` that a text spells, with no sign and no leading zero.
fn number_within(text: &str, most: u32) -> Option<u32>
    ensures { MatchOption result
        ((value : ℕ) → IsNumber most value text.now → ⊥)
        (λ value. IsNumber most value text.now) }
{
    let number = text.parse::<u32>().ok()?;
    let mut digits = itoa::Buffer::new();
    if digits.format(number) != text || number == 0 || number > most {
        return None;
    }
    Some(number)
}
