//! What the words of the command line ask for.

ghost use Rattle.std.specs.Prelude.{◌≡◌, ◌<◌, ◌≤◌, ◌+◌, ◌&&◌, ℕ, Some, None, nat_le, bytes_eq, codes, if◌then◌else◌, IfSome, option_map};
ghost use Rattle.std.specs.Fmt.{decimal};
ghost use Rattle.terrain_main.specs.declared.words.Command.TheVariants as commands;
ghost use Rattle.terrain_main.specs.Commands.{whole_of, trial_of, is_word as is_word_of, origin_of as origin_by, origin_after as origin_after_of, rule_of as rule_by, rule_of_both as rule_of_both_of, rule_beside as rule_beside_of, name_of as name_by, trial_in, command_of as command_by, count_of, listen_of as listen_by, serving_of as serving_by_words, serve_words as serve_by, serve_name as serve_name_by};
ghost use Rattle.landxml_surface.specs.declared.origin.OriginRule.{OriginRule as Rule};
ghost use Rattle.landxml_surface.specs.Drafts.{IsRule};
ghost use Rattle.landxml_surface.specs.declared.origin.OriginRule.TheVariants.{Nearest};

use ground_num::Origin;
use itoa::Buffer;
use landxml_surface::OriginRule;
use line_protocol::read_number;

/// The most points that a trial draws.
const MOST_DRAWN: u64 = 100_000;

/// The most workers of a server.
const MOST_WORKERS: u64 = 16;

/// The most sessions of a worker.
const MOST_SESSIONS: u64 = 1_000_000;

/// The highest port.
const LAST_PORT: u64 = 65_535;

/// What a `serve` command asks for: the first port, the number of workers, each at the port after the
/// one before it, and the number of sessions of each.
#[derive(Clone, Copy, Debug, PartialEq, Eq)]
pub struct Listen {
    pub port: u16,
    pub workers: u16,
    pub sessions: u32,
}

/// A command of the program.
#[derive(Clone, Copy, Debug, PartialEq, Eq)]
pub(crate) enum Command {
    /// A report on a document, with this origin.
    Check(OriginRule),
    /// A surface of a document written anew, with this origin.
    Rewrite(OriginRule),
    /// A session.
    Talk,
    /// A trial of this seed and this count.
    Trial(u64, u32),
    /// The list of commands.
    Help,
}

// The number, where it is at most `most` and the word is its text.
fn taken(word: &str, number: u64, most: u64) -> Option<u64>
    ensures { result ≡ (if bytes_eq word.now (decimal number) && nat_le number most then Some number else None) }
{
    let mut buffer = Buffer::new();
    if word == buffer.format(number) && number <= most {
        Some(number)
    } else {
        None
    }
}

// The whole number of at most `most` that the word is.
fn whole_number(word: &str, most: u64) -> Option<u64>
    ensures { result ≡ whole_of most word.now }
{
    match word.parse() {
        Ok(number) => taken(word, number, most),
        Err(_) => None,
    }
}

// A trial of this seed and this count.
fn trial_by(seed: &str, count: &str) -> Option<Command>
    ensures command { result ≡ trial_of seed.now count.now }
    ensures few { (s k : ℕ) → result ≡ Some (commands.Trial s k) → k ≤ 100000 }
{
    let seed = whole_number(seed, u64::MAX)?;
    let count = whole_number(count, MOST_DRAWN)?;
    Some(Command::Trial(seed, count as u32))
}

// Whether the word has these letters.
fn is_word(letters: &str, word: &String) -> bool
    ensures { result ≡ is_word_of letters.now word.now }
{
    word.as_str() == letters
}

// The origin of two numbers of the protocol.
fn origin_of(n: &String, e: &String) -> Option<OriginRule>
    ensures value { result ≡ origin_by n.now e.now }
    ensures rule { IfSome result IsRule }
{
    let n = read_number(n.as_bytes())?;
    let e = read_number(e.as_bytes())?;
    Some(OriginRule::Given(Origin { n, e }))
}

// The origin of two numbers after its word.
fn origin_after(key: &String, n: &String, e: &String) -> Option<OriginRule>
    ensures value { result ≡ origin_after_of key.now n.now e.now }
    ensures rule { IfSome result IsRule }
{
    if is_word("--origin", key) {
        origin_of(n, e)
    } else {
        None
    }
}

// Which origin the options ask for, where a surface isn't asked for.
fn rule_of(options: &[String]) -> Option<OriginRule>
    ensures value { result ≡ rule_by options.now }
    ensures rule { IfSome result IsRule }
{
    match options {
        [] => Some(OriginRule::Nearest),
        [key, n, e] => origin_after(key, n, e),
        _ => None,
    }
}

// The origin beside a surface, or before it.
fn rule_of_both(a: &String, b: &String, c: &String, d: &String, e: &String) -> Option<OriginRule>
    ensures value { result ≡ rule_of_both_of a.now b.now c.now d.now e.now }
    ensures rule { IfSome result IsRule }
{
    if is_word("--surface", a) {
        origin_after(c, d, e)
    } else if is_word("--surface", d) {
        origin_after(a, b, c)
    } else {
        None
    }
}

// The nearest origin, where the word is that of a surface.
fn rule_at(key: &String) -> Option<OriginRule>
    ensures value { result ≡ (if is_word_of (codes "--surface") key.now then Some Nearest else None) }
    ensures rule { IfSome result IsRule }
{
    if is_word("--surface", key) {
        Some(OriginRule::Nearest)
    } else {
        None
    }
}

// Which origin the options ask for, where a surface may be asked for.
fn rule_beside(options: &[String]) -> Option<OriginRule>
    ensures value { result ≡ rule_beside_of options.now }
    ensures rule { IfSome result IsRule }
{
    match options {
        [] => Some(OriginRule::Nearest),
        [key, _] => rule_at(key),
        [key, n, e] => origin_after(key, n, e),
        [a, b, c, d, e] => rule_of_both(a, b, c, d, e),
        _ => None,
    }
}

/// The name of the surface that the words of `rewrite` ask for.
pub(crate) fn name_of(words: &[String]) -> Option<&[u8]>
    ensures { option_map (λ name. name.now) result ≡ name_by words.now }
{
    match words {
        [_, _, name] => Some(name.as_bytes()),
        [_, key, name, _, _, last, ..] => Some(if is_word("--surface", key) {
            name.as_bytes()
        } else {
            last.as_bytes()
        }),
        _ => None,
    }
}

// The command of words that isn't on documents.
fn other_command(words: &[String]) -> Option<Command>
    ensures command { result ≡ trial_in words.now }
    ensures few { (seed count : ℕ) → result ≡ Some (commands.Trial seed count) → count ≤ 100000 }
{
    match words {
        [word] if is_word("talk", word) => Some(Command::Talk),
        [word] if is_word("help", word) => Some(Command::Help),
        [word, seed, count] if is_word("trial", word) => trial_by(seed.as_str(), count.as_str()),
        _ => None,
    }
}

/// The command that the words are.
pub(crate) fn command_of(words: &[String]) -> Option<Command>
    ensures command { result ≡ command_by words.now }
    ensures few { (seed count : ℕ) → result ≡ Some (commands.Trial seed count) → count ≤ 100000 }
    ensures check { (rule : Rule) → result ≡ Some (commands.Check rule) → IsRule rule }
    ensures rewrite { (rule : Rule) → result ≡ Some (commands.Rewrite rule) → IsRule rule }
{
    match words {
        [word, options @ ..] if is_word("check", word) => Some(Command::Check(rule_of(options)?)),
        [word, options @ ..] if is_word("rewrite", word) => {
            Some(Command::Rewrite(rule_beside(options)?))
        }
        _ => other_command(words),
    }
}

// The whole number from 1 to `most` that the word is.
fn count(word: &str, most: u64) -> Option<u64>
    ensures value { result ≡ count_of most word.now }
    ensures range { IfSome result (λ n. (0 < n) × (n ≤ most)) }
{
    match whole_number(word, most)? {
        0 => None,
        number => Some(number),
    }
}

// The ports and the sessions of three words.
fn listen_of(port: &str, workers: &str, sessions: &str) -> Option<Listen>
    ensures value { result ≡ listen_by port.now workers.now sessions.now }
    ensures workers { IfSome result (λ l. (0 < l.workers) × (l.workers ≤ 16)) }
    ensures ports { IfSome result (λ l. l.port + l.workers ≤ 65536) }
{
    let port = count(port, LAST_PORT)?;
    let workers = count(workers, MOST_WORKERS)?;
    let sessions = count(sessions, MOST_SESSIONS)?;
    if port + workers > LAST_PORT + 1 {
        return None;
    }
    Some(Listen {
        port: port as u16,
        workers: workers as u16,
        sessions: sessions as u32,
    })
}

/// The numbers and the origin of a `serve` command.
pub(crate) fn serving_of(words: &[String]) -> Option<(Listen, OriginRule)>
    ensures value { result ≡ serving_by_words words.now }
    ensures rule { IfSome result (λ s. IsRule s.1) }
    ensures workers { IfSome result (λ s. (0 < s.0.workers) × (s.0.workers ≤ 16)) }
    ensures ports { IfSome result (λ s. s.0.port + s.0.workers ≤ 65536) }
{
    match words {
        [word, port, workers, sessions, options @ ..] if is_word("serve", word) => {
            let listen = listen_of(port.as_str(), workers.as_str(), sessions.as_str())?;
            Some((listen, rule_beside(options)?))
        }
        _ => None,
    }
}

/// The numbers of a `serve` command, where the words are one. It takes no memory.
pub fn serve_words(words: &[String]) -> Option<Listen>
    ensures value { result ≡ serve_by words.now }
    ensures ports { IfSome result (λ listen. listen.port + listen.workers ≤ 65536) }
{
    let (listen, _rule) = serving_of(words)?;
    Some(listen)
}

/// The name of the surface that the words of `serve` ask for.
pub(crate) fn serve_name(words: &[String]) -> Option<&[u8]>
    ensures { option_map (λ name. name.now) result ≡ serve_name_by words.now }
{
    match words {
        [_, _, _, rest @ ..] => name_of(rest),
        _ => None,
    }
}
