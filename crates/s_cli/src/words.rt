ghost use Rattle.std.specs.Prelude.{◌≡◌, ◌<◌, ◌≤◌, ◌^◌, length, Some, slice_get, string_bytes, IfSome};
ghost use Rattle.s_cli.specs.Words.{IsForm, command_of, lanes_by, limits_of, names_in, with_one, with_option, with_three, with_two};

use crate::Command;
use lz_base::{SOURCE_LIMIT, TEXT_LIMIT};

// The form by the word COUNT.
#[tactic(auto, unfolding(crate::specs::Words::lanes_by))]
fn lanes_by(count: &[u8]) -> Option<Command>
    ensures by { result ≡ lanes_by count.now }
    ensures form { IfSome result IsForm }
{
    match count {
        [d] if b'1' <= *d && *d <= b'9' => Some(Command::Lanes {
            count: u32::from(*d - b'0'),
        }),
        [d, e] if b'0' <= *d && *d <= b'9' && b'0' <= *e && *e <= b'9' => {
            let count = u32::from(*d - b'0') * 10 + u32::from(*e - b'0');
            if 1 <= count && count <= 64 {
                Some(Command::Lanes { count })
            } else {
                None
            }
        }
        _ => None,
    }
}

// The form of a word with one behind it.
fn with_one(verb: &String) -> Option<Command>
    ensures by { result ≡ with_one verb.now }
    ensures form { IfSome result IsForm }
{
    if verb.as_str() == "synth" {
        Some(Command::Synth)
    } else if verb.as_str() == "map" {
        Some(Command::Map)
    } else if verb.as_str() == "upgrade" {
        Some(Command::Upgrade)
    } else {
        None
    }
}

// The form of a word with two behind it.
fn with_two(verb: &String) -> Option<Command>
    ensures by { result ≡ with_two verb.now }
    ensures form { IfSome result IsForm }
{
    if verb.as_str() == "map" {
        Some(Command::MapFile)
    } else if verb.as_str() == "simn" {
        Some(Command::Simn)
    } else {
        None
    }
}

// The form of a word with three behind it.
fn with_three(verb: &String, last: &String) -> Option<Command>
    ensures by { result ≡ with_three verb.now last.now }
    ensures form { IfSome result IsForm }
{
    if verb.as_str() == "simv" {
        Some(Command::Simv)
    } else if verb.as_str() == "lanes" {
        lanes_by(last.as_bytes())
    } else {
        None
    }
}

// The form of a word with five behind it, of which the fourth is an option.
fn with_option(verb: &String, option: &String) -> Option<Command>
    ensures by { result ≡ with_option verb.now option.now }
    ensures form { IfSome result IsForm }
{
    if verb.as_str() == "simv" && option.as_str() == "--schedule" {
        Some(Command::SimvBy)
    } else {
        None
    }
}

/// The form of the words after the program's name. `None` comes exactly where they are of no form.
///
/// The first word and `--schedule` are compared byte by byte, and every other word but COUNT is a file name, whatever it is.
/// It takes no memory.
pub fn command(words: &[String]) -> Option<Command>
    ensures by { result ≡ command_of words.now }
    ensures form { IfSome result IsForm }
{
    match words {
        [verb, _] => with_one(verb),
        [verb, _, _] => with_two(verb),
        [verb, _, _, last] => with_three(verb, last),
        [verb, _, _, _, option, _] => with_option(verb, option),
        _ => None,
    }
}

/// How many files a form names.
pub(crate) fn file_count(command: Command) -> usize
    ensures { result ≡ length (limits_of command) }
{
    match command {
        Command::Synth | Command::Map | Command::Upgrade => 1,
        Command::MapFile | Command::Simn | Command::Lanes { .. } => 2,
        Command::Simv => 3,
        Command::SimvBy => 4,
    }
}

/// The word that names the file at an index.
pub(crate) fn file_name(words: &[String], command: Command, index: usize) -> &String
    requires form { command_of words.now ≡ Some command }
    requires index { index < length (limits_of command) }
    ensures { slice_get (names_in words.now) index ≡ Some (string_bytes result.now) }
{
    let place = if index < 3 { index + 1 } else { 5 };
    &words[place]
}

/// How many bytes the file at an index may have.
pub(crate) fn limit(command: Command, index: usize) -> u64
    requires { index < length (limits_of command) }
    ensures limit { slice_get (limits_of command) index ≡ Some result }
    ensures small { result ≤ 2 ^ 28 }
{
    match command {
        Command::Synth => SOURCE_LIMIT,
        Command::Simv | Command::SimvBy => { if index == 0 { SOURCE_LIMIT } else { TEXT_LIMIT } }
        Command::Map
        | Command::MapFile
        | Command::Simn
        | Command::Lanes { .. }
        | Command::Upgrade => TEXT_LIMIT,
    }
}
