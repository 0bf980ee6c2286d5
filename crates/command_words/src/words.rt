//! The words of the command line.

ghost use Rattle.std.specs.Prelude.{◌≡◌, ◌<◌, ◌≤◌, ◌^◌, map, nat_eq, string_bytes, codes, bytes_eq, IfSome};
ghost use Rattle.std.specs.List.{starts_with, list_any};
ghost use Rattle.std.specs.Option.{option_map};
ghost use Rattle.loda_semantics.specs.Limits.{IsStepLimit};
ghost use Rattle.text_parts.specs.Digits.{decimal_spelled};
ghost use Rattle.command_words.specs.Words.{value_in, values_of, optional, needed, has_only, path_read, store_path_read, decimal_between, limit_read, negative_read, positive_read, arg_read, path_of, store_path, limit_of, number_read, kind_read, seed_read, jobs_read, workers_read, publish_of, check_of, eval_of, made_of, mine_of, request_of, mine_request_of, IsInRange, IsPlain, IsMine};
ghost use Rattle.command_words.specs.Requests.{asked};

use crate::request::{Kind, Request, Task};
use checked_numbers::Num;
use loda_semantics::GREATEST_STEP_LIMIT;
use program_store::MOST_JOBS;
use text_parts::{decimal_up_to, name_of};

// The step limit without `steps=`.
const DEFAULT_LIMIT: u64 = 100_000;

// The greatest number of names that are made.
const GREATEST_MADE: u128 = 20_000;

const GREATEST_SEED: u128 = (1 << 64) - 1;

const MOST_WORKERS: u128 = 64;

// The greatest absolute value of a number.
const GREATEST: u128 = WIDE - 1;

// The first absolute value past the number range.
const WIDE: u128 = 1 << 127;

// The value of a word with this key.
fn value_in<'a>(key: &str, word: &'a str) -> Option<&'a str>
    ensures { option_map (λ v. v.now) result ≡ value_in key.now word.now }
{
    word.strip_prefix(key)
}

// Whether a word has this key.
fn has_key(key: &str, word: &str) -> bool
    ensures { result ≡ starts_with nat_eq word.now key.now }
{
    word.starts_with(key)
}

// Whether a word has one of these keys.
fn has_one_of(keys: &[&str], word: &str) -> bool
    ensures { result ≡ list_any (λ key. starts_with nat_eq word.now key.now) keys.now }
{
    keys.iter().any(|key| has_key(key, word))
}

// Whether every word has one of these keys.
fn has_only(keys: &[&str], words: &[String]) -> bool
    ensures { result ≡ has_only (map (λ key. key.now) keys.now) (map string_bytes words.now) }
{
    words.iter().all(|word| has_one_of(keys, word.as_str()))
}

// The value of a key that may stand once.
fn optional<'a>(key: &str, words: &'a [String]) -> Option<Option<&'a str>>
    ensures { option_map (option_map (λ v. v.now)) result ≡ optional (values_of key.now (map string_bytes words.now)) }
{
    let mut found = None;
    for word in words {
        if let Some(value) = value_in(key, word.as_str()) {
            if found.is_some() {
                return None;
            }
            found = Some(value);
        }
    }
    Some(found)
}

// The value of a key that has to stand once.
fn needed<'a>(key: &str, words: &'a [String]) -> Option<&'a str>
    ensures { option_map (λ v. v.now) result ≡ needed (values_of key.now (map string_bytes words.now)) }
{
    optional(key, words)?
}

// A decimal number, where it is from `least` to `most`.
fn decimal_between(text: &[u8], least: u128, most: u128) -> Option<u128>
    requires { most < 2 ^ 127 }
    ensures value { result ≡ decimal_between least most text.now }
    ensures bounds { IfSome result (λ number. (least ≤ number) × (number ≤ most)) }
{
    let number = decimal_up_to(text, WIDE)?;
    if number < least || number > most {
        return None;
    }
    Some(number)
}

// A step limit.
fn limit_value(text: &str) -> Option<u64>
    ensures value { result ≡ limit_read text.now }
    ensures bounds { IfSome result IsStepLimit }
{
    let limit = decimal_between(text.as_bytes(), 1, u128::from(GREATEST_STEP_LIMIT))?;
    Some(limit as u64)
}

// The argument that stands behind a `-`.
fn negative_value(digits: &[u8]) -> Option<Num>
    ensures { result ≡ negative_read digits.now }
{
    let magnitude = decimal_between(digits, 1, GREATEST)?;
    Num::new(-(magnitude as i128))
}

// An argument without a sign.
fn positive_value(digits: &[u8]) -> Option<Num>
    ensures { result ≡ positive_read digits.now }
{
    let magnitude = decimal_between(digits, 0, GREATEST)?;
    Num::new(magnitude as i128)
}

// An argument.
fn arg_value(text: &str) -> Option<Num>
    ensures { result ≡ arg_read text.now }
{
    match text.as_bytes() {
        [b'-', digits @ ..] => negative_value(digits),
        digits => positive_value(digits),
    }
}

// How many names are made.
fn number_value(text: &str) -> Option<u32>
    ensures value { result ≡ number_read text.now }
    ensures bounds { IfSome result (λ n. (1 ≤ n) × (n ≤ 20000)) }
{
    let n = decimal_between(text.as_bytes(), 1, GREATEST_MADE)?;
    Some(n as u32)
}

fn seed_value(text: &str) -> Option<u64>
    ensures { result ≡ seed_read text.now }
{
    let seed = decimal_between(text.as_bytes(), 0, GREATEST_SEED)?;
    Some(seed as u64)
}

fn jobs_value(text: &str) -> Option<u64>
    ensures value { result ≡ jobs_read text.now }
    ensures bounds { IfSome result (λ jobs. jobs ≤ MOST_JOBS) }
{
    let jobs = decimal_between(text.as_bytes(), 0, u128::from(MOST_JOBS))?;
    Some(jobs as u64)
}

fn workers_value(text: &str) -> Option<u32>
    ensures value { result ≡ workers_read text.now }
    ensures bounds { IfSome result (λ workers. (1 ≤ workers) × (workers ≤ 64)) }
{
    let workers = decimal_between(text.as_bytes(), 1, MOST_WORKERS)?;
    Some(workers as u32)
}

// What is made.
fn kind_value(text: &str) -> Option<Kind>
    ensures { result ≡ kind_read text.now }
{
    if text == "terms" {
        return Some(Kind::Terms);
    }
    if text == "store" {
        return Some(Kind::Store);
    }
    if text == "cands" {
        return Some(Kind::Candidates);
    }
    if text == "run" {
        return Some(Kind::Run);
    }
    None
}

fn path_value(text: &str) -> Option<&str>
    ensures { option_map (λ path. path.now) result ≡ path_read text.now }
{
    if text.is_empty() { None } else { Some(text) }
}

// The path of a store, or none for the empty one.
fn store_path_value(text: &str) -> Option<Option<&str>>
    ensures { option_map (option_map (λ path. path.now)) result ≡ store_path_read text.now }
{
    if text == "-" {
        return Some(None);
    }
    Some(Some(path_value(text)?))
}

fn path_of<'a>(key: &str, words: &'a [String]) -> Option<&'a str>
    ensures { option_map (λ path. path.now) result ≡ path_of key.now (map string_bytes words.now) }
{
    path_value(needed(key, words)?)
}

fn store_path(words: &[String]) -> Option<Option<&str>>
    ensures { option_map (option_map (λ path. path.now)) result ≡ store_path (map string_bytes words.now) }
{
    store_path_value(needed("store=", words)?)
}

fn limit_of(words: &[String]) -> Option<u64>
    ensures value { result ≡ limit_of (map string_bytes words.now) }
    ensures bounds { IfSome result IsStepLimit }
{
    match optional("steps=", words)? {
        None => Some(DEFAULT_LIMIT),
        Some(text) => limit_value(text),
    }
}

// What `publish` asks for.
#[tactic(auto, unfolding(crate::specs::Words::publish_of))]
fn publish_of(words: &[String]) -> Option<Request<'_>>
    ensures value { option_map asked result ≡ publish_of (map string_bytes words.now) }
    ensures bounds { IfSome result (λ request. IsStepLimit request.limit) }
    ensures range { IfSome result (λ request. IsInRange request.task) }
    ensures plain { IfSome result (λ request. IsPlain request.task) }
{
    if !has_only(&["terms=", "store=", "cands=", "steps="], words) {
        return None;
    }
    let terms = path_of("terms=", words)?;
    let store = store_path(words)?;
    let candidates = path_of("cands=", words)?;
    let limit = limit_of(words)?;
    Some(Request {
        task: Task::Publish,
        terms: Some(terms),
        store,
        candidates: Some(candidates),
        limit,
    })
}

// What `check` asks for.
#[tactic(auto, unfolding(crate::specs::Words::check_of))]
fn check_of(words: &[String]) -> Option<Request<'_>>
    ensures value { option_map asked result ≡ check_of (map string_bytes words.now) }
    ensures bounds { IfSome result (λ request. IsStepLimit request.limit) }
    ensures range { IfSome result (λ request. IsInRange request.task) }
    ensures plain { IfSome result (λ request. IsPlain request.task) }
{
    if !has_only(&["terms=", "store=", "steps="], words) {
        return None;
    }
    let terms = path_of("terms=", words)?;
    let store = store_path(words)?;
    let limit = limit_of(words)?;
    Some(Request {
        task: Task::Check,
        terms: Some(terms),
        store,
        candidates: None,
        limit,
    })
}

// What `eval` asks for.
#[tactic(auto, unfolding(crate::specs::Words::eval_of))]
fn eval_of(words: &[String]) -> Option<Request<'_>>
    ensures value { option_map asked result ≡ eval_of (map string_bytes words.now) }
    ensures bounds { IfSome result (λ request. IsStepLimit request.limit) }
    ensures range { IfSome result (λ request. IsInRange request.task) }
    ensures plain { IfSome result (λ request. IsPlain request.task) }
{
    if !has_only(&["store=", "name=", "arg=", "steps="], words) {
        return None;
    }
    let store = store_path(words)?;
    let name = name_of(needed("name=", words)?.as_bytes())?;
    let arg = arg_value(needed("arg=", words)?)?;
    let limit = limit_of(words)?;
    Some(Request {
        task: Task::Eval { name, arg },
        terms: None,
        store,
        candidates: None,
        limit,
    })
}

// What `made` asks for.
#[tactic(auto, unfolding(crate::specs::Words::made_of))]
fn made_of(words: &[String]) -> Option<Request<'_>>
    ensures value { option_map asked result ≡ made_of (map string_bytes words.now) }
    ensures bounds { IfSome result (λ request. IsStepLimit request.limit) }
    ensures range { IfSome result (λ request. IsInRange request.task) }
    ensures plain { IfSome result (λ request. IsPlain request.task) }
{
    if !has_only(&["n=", "kind="], words) {
        return None;
    }
    let n = number_value(needed("n=", words)?)?;
    let kind = kind_value(needed("kind=", words)?)?;
    Some(Request {
        task: Task::Made { n, kind },
        terms: None,
        store: None,
        candidates: None,
        limit: DEFAULT_LIMIT,
    })
}

// What `mine` asks for.
#[tactic(auto, unfolding(crate::specs::Words::mine_of))]
fn mine_of(words: &[String]) -> Option<Request<'_>>
    ensures value { option_map asked result ≡ mine_of (map string_bytes words.now) }
    ensures bounds { IfSome result (λ request. IsStepLimit request.limit) }
    ensures range { IfSome result (λ request. IsInRange request.task) }
    ensures mine { IfSome result (λ request. IsMine request.task) }
{
    if !has_only(
        &["terms=", "store=", "seed=", "jobs=", "workers=", "steps="],
        words,
    ) {
        return None;
    }
    let terms = path_of("terms=", words)?;
    let store = store_path(words)?;
    let seed = seed_value(needed("seed=", words)?)?;
    let jobs = jobs_value(needed("jobs=", words)?)?;
    let workers = workers_value(needed("workers=", words)?)?;
    let limit = limit_of(words)?;
    Some(Request {
        task: Task::Mine {
            seed,
            jobs,
            workers,
        },
        terms: Some(terms),
        store,
        candidates: None,
        limit,
    })
}

/// What is asked for, if the words are in the grammar of a command without workers: `publish`, `check`, `eval` or `made`.
#[tactic(auto, unfolding(crate::specs::Words::request_of))]
pub fn request_of(words: &[String]) -> Option<Request<'_>>
    ensures value { option_map asked result ≡ request_of (map string_bytes words.now) }
    ensures bounds { IfSome result (λ request. IsStepLimit request.limit) }
    ensures range { IfSome result (λ request. IsInRange request.task) }
    ensures plain { IfSome result (λ request. IsPlain request.task) }
{
    let [command, words @ ..] = words else {
        return None;
    };
    if command.as_str() == "publish" {
        return publish_of(words);
    }
    if command.as_str() == "check" {
        return check_of(words);
    }
    if command.as_str() == "eval" {
        return eval_of(words);
    }
    if command.as_str() == "made" {
        return made_of(words);
    }
    None
}

/// What is asked for, if the words are in the grammar of `mine`.
#[tactic(auto, unfolding(crate::specs::Words::mine_request_of))]
pub fn mine_request_of(words: &[String]) -> Option<Request<'_>>
    ensures value { option_map asked result ≡ mine_request_of (map string_bytes words.now) }
    ensures bounds { IfSome result (λ request. IsStepLimit request.limit) }
    ensures range { IfSome result (λ request. IsInRange request.task) }
    ensures mine { IfSome result (λ request. IsMine request.task) }
{
    let [command, words @ ..] = words else {
        return None;
    };
    if command.as_str() == "mine" {
        return mine_of(words);
    }
    None
}
