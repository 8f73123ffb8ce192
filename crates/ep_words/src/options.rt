//! The options before the positional words.

ghost use Rattle.std.specs.Prelude.{◌≡◌, IsTrue};
ghost use Rattle.std.specs.Option.{option_map};
ghost use Rattle.ep_words.specs.View as view;
ghost use Rattle.ep_words.specs.Words as rule;

use crate::numbers::number;
use ep_int::{Model, Order};

/// The most steps of a run.
const MOST_STEPS: u64 = 1_000_000;

/// The most turns of a loop that a report goes through by themselves.
const MOST_UNROLL: u64 = 4096;

/// The turns of a loop that a report goes through by themselves where no number is given.
const USUAL_UNROLL: u32 = 32;

/// The options that were given.
#[derive(Clone, Copy)]
pub(crate) struct Options {
    pub order: Option<Order>,
    pub steps: Option<u64>,
    pub model: Option<Model>,
    pub unroll: Option<u32>,
    pub orders: Option<(Order, Order)>,
    /// Known bits are asked for.
    pub known_bits: bool,
}

fn order_named(word: &str) -> Option<Order>
    ensures { result ≡ rule.order_named word.now }
{
    match word {
        "little" => Some(Order::Little),
        "big" => Some(Order::Big),
        "swapped-words" => Some(Order::SwappedWords),
        _ => None,
    }
}

fn orders_named(word: &str) -> Option<(Order, Order)>
    ensures { result ≡ rule.orders_named word.now }
{
    match word {
        "little,big" => Some((Order::Little, Order::Big)),
        "little,swapped-words" => Some((Order::Little, Order::SwappedWords)),
        "big,little" => Some((Order::Big, Order::Little)),
        "big,swapped-words" => Some((Order::Big, Order::SwappedWords)),
        "swapped-words,little" => Some((Order::SwappedWords, Order::Little)),
        "swapped-words,big" => Some((Order::SwappedWords, Order::Big)),
        _ => None,
    }
}

fn unroll_named(word: &str) -> Option<u32>
    ensures { result ≡ rule.number rule.most_unroll word.now }
{
    let turns = number(MOST_UNROLL, word)?;
    Some(turns as u32)
}

fn model_named(word: &str) -> Option<Model>
    ensures { result ≡ rule.model_named word.now }
{
    match word {
        "ilp32" => Some(Model::Ilp32),
        "lp64" => Some(Model::Lp64),
        _ => None,
    }
}

impl Options {
    /// No option yet.
    pub fn none() -> Options
        ensures { view.options result ≡ rule.no_options }
    {
        Options {
            order: None,
            steps: None,
            model: None,
            unroll: None,
            orders: None,
            known_bits: false,
        }
    }

    fn with_order(self, order: Option<Order>) -> Option<Options>
        ensures { option_map view.options result ≡ rule.with_order (view.options self) order }
    {
        let order = order?;
        if self.order.is_some() {
            return None;
        }
        Some(Options {
            order: Some(order),
            ..self
        })
    }

    fn with_steps(self, steps: Option<u64>) -> Option<Options>
        ensures { option_map view.options result ≡ rule.with_steps (view.options self) steps }
    {
        let steps = steps?;
        if self.steps.is_some() {
            return None;
        }
        Some(Options {
            steps: Some(steps),
            ..self
        })
    }

    fn with_model(self, model: Option<Model>) -> Option<Options>
        ensures { option_map view.options result ≡ rule.with_model (view.options self) model }
    {
        let model = model?;
        if self.model.is_some() {
            return None;
        }
        Some(Options {
            model: Some(model),
            ..self
        })
    }

    fn with_unroll(self, unroll: Option<u32>) -> Option<Options>
        ensures { option_map view.options result ≡ rule.with_unroll (view.options self) unroll }
    {
        let unroll = unroll?;
        if self.unroll.is_some() {
            return None;
        }
        Some(Options {
            unroll: Some(unroll),
            ..self
        })
    }

    fn with_orders(self, orders: Option<(Order, Order)>) -> Option<Options>
        ensures { option_map view.options result ≡ rule.with_orders (view.options self) orders }
    {
        let orders = orders?;
        if self.orders.is_some() {
            return None;
        }
        Some(Options {
            orders: Some(orders),
            ..self
        })
    }

    fn with_known_bits(self, is_bits: bool) -> Option<Options>
        ensures { option_map view.options result ≡ rule.with_known_bits (view.options self) is_bits }
    {
        if is_bits && !self.known_bits {
            Some(Options {
                known_bits: true,
                ..self
            })
        } else {
            None
        }
    }

    // One more, if there is one of this name and its value is one.
    fn with(self, name: &str, value: &str) -> Option<Options>
        ensures { option_map view.options result ≡ rule.with_option (view.options self) name.now value.now }
    {
        match name {
            "--order" => self.with_order(order_named(value)),
            "--steps" => self.with_steps(number(MOST_STEPS, value)),
            "--model" => self.with_model(model_named(value)),
            "--unroll" => self.with_unroll(unroll_named(value)),
            "--orders" => self.with_orders(orders_named(value)),
            "--domain" => self.with_known_bits(value == "bits"),
            _ => None,
        }
    }

    /// The model that is named, else ilp32.
    pub fn model(self) -> Model
        ensures { result ≡ rule.model_of (view.options self) }
    {
        self.model.unwrap_or(Model::Ilp32)
    }

    /// The number of turns that is named, else 32.
    pub fn unroll(self) -> u32
        ensures { result ≡ rule.unroll_of (view.options self) }
    {
        self.unroll.unwrap_or(USUAL_UNROLL)
    }

    /// The two orders that are named, else little and big.
    pub fn orders(self) -> (Order, Order)
        ensures { result ≡ rule.orders_of (view.options self) }
    {
        self.orders.unwrap_or((Order::Little, Order::Big))
    }

    /// None of the options that a run alone has.
    pub fn is_no_run(self) -> bool
        ensures { result ≡ rule.is_no_run (view.options self) }
    {
        self.order.is_none() && self.steps.is_none()
    }

    /// None of the options that a report alone has.
    pub fn is_no_check(self) -> bool
        ensures { result ≡ rule.is_no_check (view.options self) }
    {
        self.unroll.is_none() && self.orders.is_none() && !self.known_bits
    }
}

fn begins_as_option(word: &str) -> bool
    ensures { result ≡ rule.begins_as_option word.now }
{
    match word.as_bytes() {
        [] => false,
        [first, ..] => *first == b'-',
    }
}

/// The options that stand first, behind those found, and the words behind them.
#[tactic(auto, unfolding(crate::specs::Words::options))]
pub(crate) fn leading(found: Options, words: &[String]) -> Option<(Options, &[String])>
    ensures { option_map (λ r. (view.options r.0, view.words r.1.now)) result
        ≡ rule.options (view.options found) (view.words words.now) }
{
    match words {
        [name, value, rest @ ..] => {
            if !begins_as_option(name.as_str()) {
                return Some((found, words));
            }
            match found.with(name.as_str(), value.as_str()) {
                Some(more) => leading(more, rest),
                None => None,
            }
        }
        [_] => Some((found, words)),
        [] => Some((found, words)),
    }
}
