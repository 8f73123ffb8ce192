//! What the words ask.

ghost use Rattle.std.specs.Prelude.{◌≡◌, ◌≤◌, IfOk, IfSome, Some, map};
ghost use Rattle.std.specs.Option.{option_map};
ghost use Rattle.ep_words.specs.View as view;
ghost use Rattle.ep_words.specs.Words as rule;
ghost use Rattle.ep_words.specs.Words.{IsWithinRules};

use crate::numbers::number;
use crate::options::{Options, leading};
use ep_int::{Memory, Model, Order};
use std::alloc::{AllocError, Global};

/// The most inputs of a run.
const MOST_INPUTS: usize = 65_536;

/// The greatest number that a sample starts with.
const MOST_START: u64 = 2_147_483_647;

/// The most fields of a sample.
const MOST_FIELDS: u64 = 5000;

/// A report on a file, for machines of two different orders.
#[derive(Clone, Copy)]
pub struct CheckWords<'a> {
    /// So many turns of a loop are gone through by themselves.
    pub unroll: u32,
    pub orders: (Order, Order),
    pub model: Model,
    /// With known bits.
    pub known_bits: bool,
    pub file: &'a str,
}

/// A report on a file as for `CheckWords`, or a certificate that it is empty.
#[derive(Clone, Copy)]
pub struct ProveWords<'a> {
    /// So many turns of a loop are gone through by themselves.
    pub unroll: u32,
    pub orders: (Order, Order),
    pub model: Model,
    pub file: &'a str,
}

/// A run of a file on one machine. The words of the inputs are numbers.
#[derive(Clone, Copy)]
pub struct RunWords<'a> {
    pub order: Order,
    /// At most.
    pub steps: u64,
    pub model: Model,
    pub file: &'a str,
    pub inputs: &'a [String],
}

/// A report on a source that is generated.
#[derive(Clone, Copy)]
pub struct SampleWords {
    pub start: u32,
    /// At least one.
    pub fields: u32,
}

/// What plain words ask.
#[derive(Clone, Copy)]
pub enum Command<'a> {
    Check(CheckWords<'a>),
    /// The layouts of a file's types.
    Layout(Model, &'a str),
    Run(RunWords<'a>),
    Sample(SampleWords),
    Prove(ProveWords<'a>),
    /// A look at the certificate in a file.
    Verify(&'a str),
}

// A name that isn't empty and doesn't begin as an option does.
fn is_file(word: &str) -> bool
    ensures { result ≡ rule.is_file word.now }
{
    match word.as_bytes() {
        [] => false,
        [first, ..] => *first != b'-',
    }
}

fn check_of(given: Options, words: &[String]) -> Option<Command<'_>>
    ensures { option_map view.command result ≡ rule.check_of (view.options given) (view.words words.now) }
{
    match words {
        [file] if given.is_no_run() && is_file(file.as_str()) => Some(Command::Check(CheckWords {
            unroll: given.unroll(),
            orders: given.orders(),
            model: given.model(),
            known_bits: given.known_bits,
            file: file.as_str(),
        })),
        _ => None,
    }
}

fn prove_of(given: Options, words: &[String]) -> Option<Command<'_>>
    ensures { option_map view.command result ≡ rule.prove_of (view.options given) (view.words words.now) }
{
    match words {
        [file] if given.is_no_run() && !given.known_bits && is_file(file.as_str()) => {
            Some(Command::Prove(ProveWords {
                unroll: given.unroll(),
                orders: given.orders(),
                model: given.model(),
                file: file.as_str(),
            }))
        }
        _ => None,
    }
}

fn layout_of(given: Options, words: &[String]) -> Option<Command<'_>>
    ensures { option_map view.command result ≡ rule.layout_of (view.options given) (view.words words.now) }
{
    match words {
        [file] if given.is_no_run() && given.is_no_check() && is_file(file.as_str()) => {
            Some(Command::Layout(given.model(), file.as_str()))
        }
        _ => None,
    }
}

fn is_input(word: &str) -> bool
    ensures { result ≡ rule.is_input word.now }
{
    number(u64::MAX, word).is_some()
}

fn are_inputs(words: &[String]) -> bool
    ensures { result ≡ rule.are_inputs (view.words words.now) }
{
    for word in words {
        if !is_input(word.as_str()) {
            return false;
        }
    }
    true
}

// A run, where it has an order and steps.
fn run_with<'a>(given: Options, file: &'a str, inputs: &'a [String]) -> Option<Command<'a>>
    ensures { option_map view.command result ≡ rule.run_with given.order given.steps
        (rule.model_of (view.options given))
        file.now (map rule.input (view.words inputs.now)) }
{
    let order = given.order?;
    let steps = given.steps?;
    Some(Command::Run(RunWords {
        order,
        steps,
        model: given.model(),
        file,
        inputs,
    }))
}

fn run_of(given: Options, words: &[String]) -> Option<Command<'_>>
    ensures { option_map view.command result ≡ rule.run_of (view.options given) (view.words words.now) }
{
    match words {
        [file, inputs @ ..]
            if given.is_no_check()
                && is_file(file.as_str())
                && inputs.len() <= MOST_INPUTS
                && are_inputs(inputs) => { run_with(given, file.as_str(), inputs) }
        _ => None,
    }
}

fn check_words(words: &[String]) -> Option<Command<'_>>
    ensures { option_map view.command result ≡ rule.with_options rule.check_of (view.words words.now) }
{
    match leading(Options::none(), words) {
        Some((given, rest)) => check_of(given, rest),
        None => None,
    }
}

fn layout_words(words: &[String]) -> Option<Command<'_>>
    ensures { option_map view.command result ≡ rule.with_options rule.layout_of (view.words words.now) }
{
    match leading(Options::none(), words) {
        Some((given, rest)) => layout_of(given, rest),
        None => None,
    }
}

fn run_words(words: &[String]) -> Option<Command<'_>>
    ensures { option_map view.command result ≡ rule.with_options rule.run_of (view.words words.now) }
{
    match leading(Options::none(), words) {
        Some((given, rest)) => run_of(given, rest),
        None => None,
    }
}

fn sample_with(start: u64, fields: u64) -> Option<Command<'static>>
    requires start { start ≤ rule.most_start }
    requires fields { fields ≤ rule.most_fields }
    ensures { option_map view.command result ≡ rule.sample_with (Some start) (Some fields) }
{
    if fields == 0 {
        return None;
    }
    Some(Command::Sample(SampleWords {
        start: start as u32,
        fields: fields as u32,
    }))
}

fn sample_words(words: &[String]) -> Option<Command<'_>>
    ensures { option_map view.command result ≡ rule.sample_of (view.words words.now) }
{
    match words {
        [start, fields] => {
            let start = number(MOST_START, start.as_str())?;
            let fields = number(MOST_FIELDS, fields.as_str())?;
            sample_with(start, fields)
        }
        _ => None,
    }
}

fn prove_words(words: &[String]) -> Option<Command<'_>>
    ensures { option_map view.command result ≡ rule.with_options rule.prove_of (view.words words.now) }
{
    match leading(Options::none(), words) {
        Some((given, rest)) => prove_of(given, rest),
        None => None,
    }
}

fn verify_words(words: &[String]) -> Option<Command<'_>>
    ensures { option_map view.command result ≡ rule.verify_of (view.words words.now) }
{
    match words {
        [file] if is_file(file.as_str()) => Some(Command::Verify(file.as_str())),
        _ => None,
    }
}

// What the words behind a command ask.
fn named<'a>(command: &str, words: &'a [String]) -> Option<Command<'a>>
    ensures { option_map view.command result ≡ rule.named command.now (view.words words.now) }
{
    match command {
        "check" => check_words(words),
        "layout" => layout_words(words),
        "run" => run_words(words),
        "sample" => sample_words(words),
        "prove" => prove_words(words),
        "verify" => verify_words(words),
        _ => None,
    }
}

/// What the words ask, where they are plain. The first is the program's name.
pub fn asked(words: &[String]) -> Option<Command<'_>>
    ensures command { option_map view.command result ≡ rule.plain (view.words words.now) }
    ensures within { IfSome result (λ c. IsWithinRules (view.command c)) }
{
    match words {
        [_, command, rest @ ..] => named(command.as_str(), rest),
        [_] => None,
        [] => None,
    }
}

/// The numbers of the inputs of a run.
pub fn input_numbers(alloc: Global, words: &[String]) -> Result<Vec<u64>, Memory>
    ensures { IfOk result (λ v. v.items ≡ map rule.input (view.words words.now)) }
{
    match collected(alloc, words) {
        Ok(numbers) => Ok(numbers),
        Err(_) => Err(Memory),
    }
}

fn input(word: &str) -> u64
    ensures { result ≡ rule.input word.now }
{
    number(u64::MAX, word).unwrap_or(0)
}

fn collected(alloc: Global, words: &[String]) -> Result<Vec<u64>, AllocError>
    ensures { IfOk result (λ v. v.items ≡ map rule.input (view.words words.now)) }
{
    let mut numbers = Vec::new(alloc);
    for word in words {
        numbers.push(input(word.as_str()))?;
    }
    Ok(numbers)
}
