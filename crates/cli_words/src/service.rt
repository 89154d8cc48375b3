// The words that ask for a notebook to be served.
ghost use Rattle.std.specs.Prelude.{◌≡◌, ℕ, ◌≤◌, cond, drop, length, map, option_map, string_bytes, IfSome, None, Some};
ghost use Rattle.std.specs.List.{list_all};
ghost use Rattle.cli_words.specs.Service.{asked, values_from};
ghost use Rattle.command_meaning.specs.Services as meaning;
ghost use Rattle.command_meaning.specs.Services.{is_named, service_of, values_of};

use crate::positional::names_something;
use py_tree::number;

const PORT: &str = "--port=";

const WORKERS: &str = "--workers=";

const VISITORS: &str = "--visitors=";

const GREATEST_PORT: u32 = 65_535;

const MOST_WORKERS: u32 = 64;

const USUAL_WORKERS: u32 = 4;

const MOST_VISITORS: u32 = 1_000_000_000;

/// What is to be served.
#[derive(Clone, Copy)]
pub struct Service<'a> {
    /// The file of the notebook.
    pub file: &'a str,
    /// The port at which visitors call.
    pub port: u16,
    /// How many workers serve visitors side by side.
    pub workers: u32,
    /// How often each worker lets a visitor in.
    pub visitors: u32,
}

// The value that a word gives to the option of this name.
fn value<'a>(word: &'a str, name: &str) -> Option<&'a str>
    ensures { option_map (λ v. v.now) result
        ≡ cond (is_named name.now word.now) (Some (drop (length name.now) word.now)) None }
{
    word.strip_prefix(name)
}

// Whether a word gives one of the options.
fn is_option(word: &str) -> bool
    ensures { result ≡ meaning.is_option word.now }
{
    value(word, PORT).is_some() || value(word, WORKERS).is_some() || value(word, VISITORS).is_some()
}

// Whether each word gives one of the options.
fn are_options(words: &[String]) -> bool
    ensures { result ≡ list_all meaning.is_option (map string_bytes words.now) }
{
    for word in words {
        if !is_option(word.as_str()) {
            return false;
        }
    }
    true
}

// The number from 1 to `most` that a value spells.
fn number_in(value: &str, most: u32) -> Option<u32>
    ensures { result ≡ meaning.number_in most value.now }
{
    match number(value) {
        Some(n) if 1 <= n && n <= i128::from(most) => Some(n as u32),
        _ => None,
    }
}

// The first value that words give to the option of this name, and the words behind it.
fn first_value<'a>(words: &'a [String], name: &str) -> Option<(&'a str, &'a [String])>
    ensures { values_of name.now (map string_bytes words.now)
        ≡ values_from (option_map (λ p. (p.0.now, values_of name.now (map string_bytes p.1.now))) result) }
{
    let mut rest = words;
    while let [word, behind @ ..] = rest {
        if let Some(value) = value(word.as_str(), name) {
            return Some((value, behind));
        }
        rest = behind;
    }
    None
}

// The number that words give to the option of this name, or the usual one; none where they give several values, or one that is no such
// number.
fn given(words: &[String], name: &str, most: u32, usual: Option<u32>) -> Option<u32>
    ensures { result ≡ meaning.given most usual (values_of name.now (map string_bytes words.now)) }
{
    match first_value(words, name) {
        None => usual,
        Some((value, behind)) => {
            match first_value(behind, name) {
                None => number_in(value, most),
                Some(_) => None,
            }
        }
    }
}

// The service with these numbers, if all are given.
fn with_numbers(
    file: &str,
    port: Option<u32>,
    workers: Option<u32>,
    visitors: Option<u32>,
) -> Option<Service<'_>>
    requires { IfSome port (λ p. p ≤ 65535) }
    ensures { option_map asked result ≡ meaning.service file.now port workers visitors }
{
    match (port, workers, visitors) {
        (Some(port), Some(workers), Some(visitors)) => {
            Some(Service {
                file,
                port: port as u16,
                workers,
                visitors,
            })
        }
        _ => None,
    }
}

/// The service that the words ask for, `run FILE --port=P` with options; none where they ask for none. The program's own name is no word.
pub fn read_service(words: &[String]) -> Option<Service<'_>>
    ensures { option_map asked result ≡ service_of (map string_bytes words.now) }
{
    match words {
        [word, file, options @ ..]
            if word.as_str() == "run" && names_something(file.as_str()) && are_options(options) => {
            with_numbers(
                file.as_str(),
                given(options, PORT, GREATEST_PORT, None),
                given(options, WORKERS, MOST_WORKERS, Some(USUAL_WORKERS)),
                given(options, VISITORS, MOST_VISITORS, Some(MOST_VISITORS)),
            )
        }
        _ => None,
    }
}
