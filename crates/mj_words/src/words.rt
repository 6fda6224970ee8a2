// Judging the words after the program's name. It takes no memory.
ghost use Rattle.std.specs.Prelude.{◌≡◌, ◌+◌, ◌*◌, ◌<◌, ◌≤◌, ◌^◌, map, length, max, None, Some, IfSome, option_map, string_bytes};
ghost use Rattle.std.specs.List.{list_all};
ghost use Rattle.fx_whole.specs.Counting.{count_to};
ghost use Rattle.mj_words.specs.Accepted.{AcceptedHaveNoBadPlace};
ghost use Rattle.mj_words.specs.Table.{all_names, rule, most_of};
ghost use Rattle.mj_words.specs.Words as spec;

use crate::numbers::number_within;
use crate::table::{Command, Form, Name};

// Word `k`, from 0, or the empty word past the end.
fn word_at(words: &[String], k: usize) -> &str
    ensures { result.now ≡ spec.word (map string_bytes words.now) k }
{
    if k < words.len() {
        words[k].as_str()
    } else {
        ""
    }
}

/// The command of accepted words.
pub fn command_of(words: &[String]) -> Command
    ensures { result ≡ spec.command_of (map string_bytes words.now) }
{
    Command::named(word_at(words, 0)).unwrap_or(Command::Run)
}

fn is_file_name(text: &str) -> bool
    ensures { result ≡ spec.is_file_name text.now }
{
    1 <= text.len() && text.len() <= 4096
}

fn is_yes_or_no(text: &str) -> bool
    ensures { result ≡ spec.is_yes_or_no text.now }
{
    text == "yes" || text == "no"
}

// The number that a value writes, where a number is asked for.
fn number_as(form: Form, text: &str) -> Option<u32>
    ensures value { result ≡ spec.number_as form text.now }
    ensures most { IfSome result (λ n. n ≤ most_of form) }
{
    match form {
        Form::Number { least, most } => number_within(text.as_bytes(), least, most),
        _ => None,
    }
}

// Whether a value fits what is asked for.
fn fits(form: Form, text: &str) -> bool
    ensures { result ≡ spec.fits form text.now }
{
    match form {
        Form::FileName => is_file_name(text),
        Form::YesNo => is_yes_or_no(text),
        Form::Number { least, most } => number_within(text.as_bytes(), least, most).is_some(),
    }
}

// How often the name of pair `j` stood before.
fn stood_before(words: &[String], j: usize) -> usize
    requires { 2 * j + 1 < length words.now }
    ensures value { result ≡ spec.stood_before (map string_bytes words.now) j }
{
    let mut count = 0;
    for i in 0..j {
        if word_at(words, 2 * i + 1) == word_at(words, 2 * j + 1) {
            count += 1;
        }
    }
    count
}

// The place of the name of pair `j`, unless the command takes it once more.
fn bad_name(command: Command, words: &[String], j: usize) -> Option<usize>
    requires { 2 * j + 1 < length words.now }
    ensures { result ≡ spec.bad_name command (map string_bytes words.now) j }
{
    if stood_before(words, j) < command.rule_of(word_at(words, 2 * j + 1)).times {
        None
    } else {
        Some(2 * j + 2)
    }
}

fn bad_names(command: Command, words: &[String]) -> Option<usize>
    ensures { result ≡ spec.bad_names command (map string_bytes words.now) }
{
    for j in 0..words.len() / 2 {
        if let Some(at) = bad_name(command, words, j) {
            return Some(at);
        }
    }
    None
}

fn bad_value(command: Command, words: &[String], j: usize) -> Option<usize>
    requires { 2 * j + 2 < length words.now }
    ensures { result ≡ spec.bad_value command (map string_bytes words.now) j }
{
    let rule = command.rule_of(word_at(words, 2 * j + 1));
    if fits(rule.form, word_at(words, 2 * j + 2)) {
        None
    } else {
        Some(2 * j + 3)
    }
}

fn bad_values(command: Command, words: &[String]) -> Option<usize>
    ensures { result ≡ spec.bad_values command (map string_bytes words.now) }
{
    for j in 0..words.len().saturating_sub(1) / 2 {
        if let Some(at) = bad_value(command, words, j) {
            return Some(at);
        }
    }
    None
}

/// The value that is given first under a name.
pub fn given<'a>(words: &'a [String], text: &str) -> Option<&'a str>
    ensures { option_map (λ s. s.now) result ≡ spec.given (map string_bytes words.now) text.now }
{
    for j in 0..words.len().saturating_sub(1) / 2 {
        if word_at(words, 2 * j + 1) == text {
            return Some(word_at(words, 2 * j + 2));
        }
    }
    None
}

fn bad_command(words: &[String]) -> Option<usize>
    ensures { result ≡ spec.bad_command (map string_bytes words.now) }
{
    if Command::named(word_at(words, 0)).is_some() {
        None
    } else {
        Some(1)
    }
}

fn value_missing(words: &[String]) -> Option<usize>
    requires { length words.now < 2 ^ 63 }
    ensures { result ≡ spec.value_missing (map string_bytes words.now) }
{
    if words.len() / 2 == words.len().saturating_sub(1) / 2 {
        None
    } else {
        Some(words.len() + 1)
    }
}

// Whether a name is given if it is required.
fn is_served(command: Command, words: &[String], name: Name) -> bool
    ensures { result ≡ spec.is_served command (map string_bytes words.now) name }
{
    !command.rule(name).required || given(words, name.text()).is_some()
}

fn are_served(command: Command, words: &[String]) -> bool
    ensures { result ≡ list_all (spec.is_served command (map string_bytes words.now)) all_names }
{
    is_served(command, words, Name::Model)
        && is_served(command, words, Name::Steps)
        && is_served(command, words, Name::Tape)
        && is_served(command, words, Name::Dual)
        && is_served(command, words, Name::Ball)
        && is_served(command, words, Name::Links)
        && is_served(command, words, Name::Seed)
        && is_served(command, words, Name::Workers)
}

fn name_missing(command: Command, words: &[String]) -> Option<usize>
    requires { length words.now < 2 ^ 63 }
    ensures { result ≡ spec.name_missing command (map string_bytes words.now) }
{
    if are_served(command, words) {
        None
    } else {
        Some(words.len() + 1)
    }
}

// The first bad place after the command.
fn bad_pairs(command: Command, words: &[String]) -> Option<usize>
    ensures { result ≡ spec.bad_pairs command (map string_bytes words.now) }
{
    if let Some(at) = bad_names(command, words) {
        return Some(at);
    }
    if let Some(at) = value_missing(words) {
        return Some(at);
    }
    if let Some(at) = bad_values(command, words) {
        return Some(at);
    }
    name_missing(command, words)
}

/// The first bad place of the words, counted from 1; none where they are accepted.
pub fn bad_place(words: &[String]) -> Option<usize>
    ensures { result ≡ spec.bad_place (map string_bytes words.now) }
{
    if let Some(at) = bad_command(words) {
        return Some(at);
    }
    bad_pairs(command_of(words), words)
}

// The number that is given under a name.
fn number_under(words: &[String], name: Name) -> u32
    ensures value { result ≡ spec.number_under (map string_bytes words.now) name }
    ensures most { result
        ≤ most_of (rule (spec.command_of (map string_bytes words.now)) name).form }
{
    let form = command_of(words).rule(name).form;
    match given(words, name.text()) {
        Some(text) => match number_as(form, text) {
            Some(n) => n,
            None => 0,
        },
        None => 0,
    }
}

/// The name of the model's file that accepted words give.
pub fn model_of(words: &[String]) -> &str
    ensures { result.now ≡ spec.model_of (map string_bytes words.now) }
{
    given(words, "--model").unwrap_or("")
}

/// How many steps accepted words ask for.
pub fn step_count(words: &[String]) -> u32
    ensures { result ≡ spec.step_count (map string_bytes words.now) }
{
    number_under(words, Name::Steps)
}

/// The name of the tape's file, where accepted words give one.
pub fn tape_of(words: &[String]) -> Option<&str>
    ensures { option_map (λ s. s.now) result ≡ spec.tape_of (map string_bytes words.now) }
{
    given(words, "--tape")
}

// Whether the value of pair `j` names a tape.
fn is_tape(words: &[String], j: usize) -> bool
    requires { 2 * j + 1 < length words.now }
    ensures { result ≡ spec.is_tape (map string_bytes words.now) j }
{
    word_at(words, 2 * j + 1) == "--tape"
}

// How many of the first `n` pairs name a tape.
fn tapes_before(words: &[String], n: usize) -> usize
    requires { 2 * n ≤ length words.now }
    ensures { result ≡ count_to n (spec.is_tape (map string_bytes words.now)) }
{
    let mut count = 0;
    for j in 0..n {
        if is_tape(words, j) {
            count += 1;
        }
    }
    count
}

// Whether pair `j` names a tape after `k` others.
fn is_nth(words: &[String], k: usize, j: usize) -> bool
    requires { 2 * j + 1 < length words.now }
    ensures { result ≡ spec.is_nth (map string_bytes words.now) k j }
{
    is_tape(words, j) && tapes_before(words, j) == k
}

fn all_tapes(words: &[String]) -> usize
    ensures { result ≡ spec.tape_count (map string_bytes words.now) }
{
    tapes_before(words, words.len().saturating_sub(1) / 2)
}

/// How many tapes the words name: those of an accepted batch 64 at most.
pub fn tape_count(words: &[String]) -> usize
    ensures value { result ≡ spec.tape_count (map string_bytes words.now) }
    ensures few { spec.bad_place (map string_bytes words.now) ≡ None
        → spec.command_of (map string_bytes words.now) ≡ Command.Batch → result ≤ 64 }
{
    all_tapes(words)
}

/// The name of the file of the tape that the words name after `k` others.
pub fn nth_tape(words: &[String], k: usize) -> Option<&str>
    ensures { option_map (λ s. s.now) result ≡ spec.nth_tape (map string_bytes words.now) k }
{
    for j in 0..words.len().saturating_sub(1) / 2 {
        if is_nth(words, k, j) {
            return Some(word_at(words, 2 * j + 2));
        }
    }
    None
}

/// The name of the file of tape `k`, counted from 0, of those that the words name.
pub fn tape_name(words: &[String], k: usize) -> &str
    requires { k < spec.tape_count (map string_bytes words.now) }
    ensures { spec.nth_tape (map string_bytes words.now) k ≡ Some result.now }
{
    match nth_tape(words, k) {
        Some(name) => name,
        None => "",
    }
}

/// Whether accepted words ask for each step's dual.
pub fn wants_dual(words: &[String]) -> bool
    ensures { result ≡ spec.wants_dual (map string_bytes words.now) }
{
    given(words, "--dual").unwrap_or("") == "yes"
}

/// Whether accepted words ask for a ball around each step's acceleration.
pub fn wants_ball(words: &[String]) -> bool
    ensures { result ≡ spec.wants_ball (map string_bytes words.now) }
{
    given(words, "--ball").unwrap_or("") == "yes"
}

/// Whether accepted words ask for the forces of each step's rows one by one.
pub fn wants_inverse(words: &[String]) -> bool
    ensures { result ≡ spec.wants_inverse (map string_bytes words.now) }
{
    command_of(words).is_inverse()
}

/// The file of the dump that accepted words of `check` ask to judge.
pub fn dump_of(words: &[String]) -> &str
    ensures { result.now ≡ spec.dump_of (map string_bytes words.now) }
{
    given(words, "--dual").unwrap_or("")
}

/// How many links accepted words ask for.
pub fn link_count(words: &[String]) -> u32
    ensures { result ≡ spec.link_count (map string_bytes words.now) }
{
    number_under(words, Name::Links)
}

/// The seed that accepted words give.
pub fn seed_of(words: &[String]) -> u32
    ensures { result ≡ spec.seed_of (map string_bytes words.now) }
{
    number_under(words, Name::Seed)
}

/// How many steps accepted words of a bench ask for.
pub fn bench_step_count(words: &[String]) -> u32
    requires { spec.command_of (map string_bytes words.now) ≡ Command.Bench }
    ensures value { result ≡ spec.step_count (map string_bytes words.now) }
    ensures few { result ≤ 10000 }
{
    number_under(words, Name::Steps)
}

/// How many links accepted words of a bench ask for.
pub fn bench_link_count(words: &[String]) -> u32
    requires { spec.command_of (map string_bytes words.now) ≡ Command.Bench }
    ensures value { result ≡ spec.link_count (map string_bytes words.now) }
    ensures few { result ≤ 64 }
{
    number_under(words, Name::Links)
}

/// How many threads accepted words let work, at least one.
pub fn worker_count(words: &[String]) -> usize
    ensures value { result ≡ spec.worker_count (map string_bytes words.now) }
    ensures some { 1 ≤ result }
{
    (number_under(words, Name::Workers) as usize).max(1)
}

/// No word is bad exactly where the words are accepted: a command, and after it pairs of a name and a
/// value, no name more often than the command takes it, with values that fit and the required names
/// given.
pub fn accepted_words_have_no_bad_place()
    ensures { AcceptedHaveNoBadPlace }
{}
