//! What the layers of a head say: the kind of each, the keys that it may have and those that it needs, and the values at them, each
//! of its kind and in its range. Nothing is built of the layers yet.
//!
//! Each stage goes over all layers before the next one begins: first their kinds, then the backoffs of the retries, then unknown
//! keys, then required keys that are missing, then values.

ghost use Rattle.std.specs.Prelude.{◌≡◌, codes, map};
ghost use Rattle.toml.specs.View.{table_view};
ghost use Rattle.resil_heads.specs.Checks.{Gives, GivesBy};
ghost use Rattle.resil_heads.specs.Document.{keys_of};
ghost use Rattle.resil_heads.specs.Keys.{each, parse_at, parse_fraction};
ghost use Rattle.resil_heads.specs.LayerValues.{kind_in, backoff_in, keys_in, check_layer, check_layers, parse_interval, parse_error_test, parse_retry, parse_bulkhead, parse_fallback, parse_layer, requested_layers};

use crate::document::{check_known, check_required};
use crate::error::{FaultyKey, HeadError, HeadFault, Part, at_key};
use crate::forms::{Form, Key};
use crate::keys::{
    HeadText, count_at, flag_at, kinds_at, parse_fraction, parse_integer, parse_text, required,
    result_test_at, tables_at, text_at, value_at, wait_at,
};
use resil_registry::DEFAULT_CONFIG;
use resil_retry::{ErrorTest, MAX_INTERVAL, ResultTest};
use std::alloc::Global;
use toml::Table;

const KIND: Key = Key::Required("kind", Form::Layer);

const ATTEMPTS: Key = Key::Optional("attempts", Form::Count(1, 1_000));

const INTERVAL: Key = Key::Optional("interval", Form::Wait);

const BACKOFF: Key = Key::Optional("backoff", Form::Backoff);

const MULTIPLIER: Key = Key::Optional("multiplier", Form::Fraction);

const CAP: Key = Key::Optional("cap", Form::Wait);

const RETRY_ON: Key = Key::Optional("retry_on", Form::Kinds);

const IGNORE: Key = Key::Optional("ignore", Form::Kinds);

const RETRY_RESULT: Key = Key::Optional("retry_result", Form::ResultTest);

const FAIL_AFTER_MAX: Key = Key::Optional("fail_after_max", Form::Flag);

// The keys of a layer of unknown kind.
const LAYER_KEYS: &[Key] = &[KIND];

// The keys of a retry whose waits don't grow.
const FIXED_RETRY_KEYS: &[Key] = &[
    KIND,
    ATTEMPTS,
    INTERVAL,
    BACKOFF,
    RETRY_ON,
    IGNORE,
    RETRY_RESULT,
    FAIL_AFTER_MAX,
];

/// The keys of a retry whose waits grow.
pub const EXPONENTIAL_RETRY_KEYS: &[Key] = &[
    KIND,
    ATTEMPTS,
    INTERVAL,
    BACKOFF,
    MULTIPLIER,
    CAP,
    RETRY_ON,
    IGNORE,
    RETRY_RESULT,
    FAIL_AFTER_MAX,
];

// The keys of a bulkhead.
const BULKHEAD_KEYS: &[Key] = &[
    Key::Required("name", Form::Text),
    KIND,
    Key::Optional("config", Form::Text),
];

// The keys of a fallback.
const FALLBACK_KEYS: &[Key] = &[
    Key::Required("value", Form::AnyInteger),
    KIND,
    Key::Optional("catch", Form::Kinds),
    IGNORE,
];

// The attempts of a retry if a head names none (Resilience4j user guide, Retry, `maxAttempts`).
const DEFAULT_ATTEMPTS: u32 = 3;

// The first wait of a retry if a head names none, in milliseconds (Resilience4j user guide, Retry, `waitDuration`).
const DEFAULT_INTERVAL: u64 = 500;

// The multiplier of an exponential interval if a head names none: three halves (Resilience4j user guide, Retry, interval functions).
const DEFAULT_MULTIPLIER: (u32, u32) = (3, 2);

/// The kind of a layer.
#[derive(Clone, Copy)]
pub(crate) enum LayerKind {
    Retry,
    Bulkhead,
    Fallback,
}

/// How the waits of a retry grow: not at all, or by a multiplier, up to a cap.
#[derive(Clone, Copy)]
pub(crate) enum BackoffKind {
    Fixed,
    Exponential,
}

/// How long a head says to wait, in milliseconds.
#[derive(Clone, Copy)]
pub(crate) enum IntervalSpec {
    /// One wait after each attempt.
    Fixed(u64),
    /// A wait that grows by a fraction, up to a cap.
    Exponential {
        /// The first wait.
        initial: u64,
        /// The numerator of the fraction.
        numerator: u32,
        /// The denominator of the fraction.
        denominator: u32,
        /// The longest wait.
        cap: u64,
    },
}

/// What a head says of a retry.
#[derive(Drop)]
pub(crate) struct RetrySpec {
    /// The maximum number of attempts. The first call is one of them.
    pub attempts: u32,
    /// How long to wait after each attempt.
    pub interval: IntervalSpec,
    /// Which values are to be retried.
    pub result_test: ResultTest,
    /// Which errors are to be retried.
    pub error_test: ErrorTest,
    /// Whether a value that is still to be retried after the last attempt becomes an error.
    pub fail_after_max: bool,
}

/// What a head says of a layer.
#[derive(Drop)]
pub(crate) enum LayerSpec<'a> {
    /// A retry of these parts.
    Retry(RetrySpec),
    /// A bulkhead: its name, and that of its configuration.
    Bulkhead {
        name: HeadText<'a>,
        config: HeadText<'a>,
    },
    /// A fallback: an error that the test names becomes the value.
    Fallback {
        catch: ErrorTest,
        value: i64,
    },
}

/// A stage of the checks of layers, in their order. The values come after these stages.
#[derive(Clone, Copy)]
pub(crate) enum Stage {
    /// Each layer has a known kind.
    Kind,
    /// Each retry has a known backoff, or none.
    Backoff,
    /// Each layer has only keys that one of its kind may have.
    Known,
    /// Each layer has the keys that one of its kind needs.
    Required,
}

// The kind of a layer. Errors: `MissingKey` if it has none, `BadValue` if it is unknown.
fn kind_in(layer: &Table) -> Result<LayerKind, HeadFault>
    ensures { result ≡ kind_in (table_view layer.now) }
{
    match required("kind", layer)?.as_str() {
        Some("retry") => Ok(LayerKind::Retry),
        Some("bulkhead") => Ok(LayerKind::Bulkhead),
        Some("fallback") => Ok(LayerKind::Fallback),
        _ => Err(HeadFault::at(FaultyKey::Known("kind"), HeadError::BadValue)),
    }
}

// The backoff of a retry, `Fixed` if it names none. Errors: `BadValue`.
fn backoff_in(layer: &Table) -> Result<BackoffKind, HeadFault>
    ensures { result ≡ backoff_in (table_view layer.now) }
{
    let Some(value) = value_at("backoff", layer) else {
        return Ok(BackoffKind::Fixed);
    };
    match value.as_str() {
        Some("fixed") => Ok(BackoffKind::Fixed),
        Some("exponential") => Ok(BackoffKind::Exponential),
        _ => Err(HeadFault::at(FaultyKey::Known("backoff"), HeadError::BadValue)),
    }
}

// The keys of a layer. Errors: those of its kind; then `BadValue` for an unknown backoff.
fn keys_in(layer: &Table) -> Result<&'static [Key], HeadFault>
    ensures { GivesBy (λ keys. keys_of keys.now) result (keys_in (table_view layer.now)) }
{
    Ok(match kind_in(layer)? {
        LayerKind::Retry => match backoff_in(layer)? {
            BackoffKind::Fixed => FIXED_RETRY_KEYS,
            BackoffKind::Exponential => EXPONENTIAL_RETRY_KEYS,
        },
        LayerKind::Bulkhead => BULKHEAD_KEYS,
        LayerKind::Fallback => FALLBACK_KEYS,
    })
}

/// What a layer is called, with its article, or nothing if its kind is unknown; and which keys it may have.
pub fn title_and_keys(layer: &Table) -> (&'static str, &'static [Key]) {
    match (kind_in(layer), backoff_in(layer)) {
        (Ok(LayerKind::Retry), Ok(BackoffKind::Exponential)) => ("a retry", EXPONENTIAL_RETRY_KEYS),
        (Ok(LayerKind::Retry), _) => ("a retry", FIXED_RETRY_KEYS),
        (Ok(LayerKind::Bulkhead), _) => ("a bulkhead", BULKHEAD_KEYS),
        (Ok(LayerKind::Fallback), _) => ("a fallback", FALLBACK_KEYS),
        (Err(_), _) => ("", LAYER_KEYS),
    }
}

// Checks a layer at a stage.
fn check_layer(stage: Stage, layer: &Table) -> Result<(), HeadFault>
    ensures { Gives result (check_layer stage (table_view layer.now)) }
{
    match stage {
        Stage::Kind => kind_in(layer).map(drop),
        Stage::Backoff => keys_in(layer).map(drop),
        Stage::Known => check_known(keys_in(layer)?, layer),
        Stage::Required => check_required(keys_in(layer)?, layer),
    }
}

// Checks all layers at a stage. Errors: that of the first layer that fails.
#[tactic(auto, using(crate::proofs::LayerLaws::next_checks))]
fn check_layers(stage: Stage, layers: &[&Table]) -> Result<(), HeadFault>
    ensures { Gives result (check_layers stage (map (λ layer. table_view layer.now) layers.now)) }
{
    let mut place = 0usize;
    for layer in layers {
        match check_layer(stage, layer) {
            Ok(()) => place = place.saturating_add(1),
            Err(fault) => return Err(fault.of(Part::Layer(place))),
        }
    }
    Ok(())
}

// The multiplier of a retry whose waits grow. Errors: `BadValue`.
fn multiplier_in(layer: &Table) -> Result<(u32, u32), HeadFault>
    ensures { result ≡ parse_at parse_fraction (3, 2) (codes "multiplier") (table_view layer.now) }
{
    let value = value_at("multiplier", layer);
    at_key(
        "multiplier",
        value.map_or(Ok(DEFAULT_MULTIPLIER), parse_fraction),
    )
}

// The waits of a retry of this backoff. Errors: `BadValue`.
#[tactic(auto, unfolding(crate::specs::LayerValues::waits_from))]
fn parse_interval(backoff: BackoffKind, layer: &Table) -> Result<IntervalSpec, HeadFault>
    ensures { result ≡ parse_interval backoff (table_view layer.now) }
{
    let initial = wait_at("interval", DEFAULT_INTERVAL, layer)?;
    match backoff {
        BackoffKind::Fixed => Ok(IntervalSpec::Fixed(initial)),
        BackoffKind::Exponential => {
            let (numerator, denominator) = multiplier_in(layer)?;
            let cap = wait_at("cap", MAX_INTERVAL, layer)?;
            Ok(IntervalSpec::Exponential {
                initial,
                numerator,
                denominator,
                cap,
            })
        }
    }
}

// The kinds of error that a layer acts on: those at the key that lists them, without those that are ignored. Errors: `BadValue`,
// `Memory`.
#[tactic(auto, unfolding(crate::specs::LayerValues::parse_error_test))]
fn parse_error_test(
    alloc: Global,
    listed: &'static str,
    layer: &Table,
) -> Result<ErrorTest, HeadFault>
    ensures { Gives result (parse_error_test listed.now (table_view layer.now)) }
{
    let named = kinds_at(alloc, listed, layer)?;
    let ignored = kinds_at(alloc, "ignore", layer)?;
    Ok(ErrorTest::new(named, ignored))
}

// The values of a retry of this backoff. Errors: `BadValue`, `Memory`.
#[tactic(auto, unfolding(crate::specs::LayerValues::parse_retry))]
fn parse_retry(alloc: Global, backoff: BackoffKind, layer: &Table) -> Result<RetrySpec, HeadFault>
    ensures { Gives result (parse_retry backoff (table_view layer.now)) }
{
    let attempts = count_at("attempts", DEFAULT_ATTEMPTS, layer)?;
    let interval = parse_interval(backoff, layer)?;
    let error_test = parse_error_test(alloc, "retry_on", layer)?;
    let result_test = result_test_at("retry_result", layer)?;
    let fail_after_max = flag_at("fail_after_max", false, layer)?;
    Ok(RetrySpec {
        attempts,
        interval,
        result_test,
        error_test,
        fail_after_max,
    })
}

// The values of a bulkhead. Errors: `MissingKey` if it has no name, `BadValue`.
#[tactic(auto, unfolding(crate::specs::LayerValues::parse_bulkhead))]
fn parse_bulkhead<'a>(layer: &'a Table) -> Result<LayerSpec<'a>, HeadFault>
    ensures { result ≡ parse_bulkhead (table_view layer.now) }
{
    let name = at_key("name", parse_text(required("name", layer)?))?;
    let config = text_at("config", DEFAULT_CONFIG, layer)?;
    Ok(LayerSpec::Bulkhead { name, config })
}

// The values of a fallback. Errors: `MissingKey` if it has no value, `BadValue`, `Memory`.
#[tactic(auto, unfolding(crate::specs::LayerValues::parse_fallback))]
fn parse_fallback<'a>(alloc: Global, layer: &'a Table) -> Result<LayerSpec<'a>, HeadFault>
    ensures { Gives result (parse_fallback (table_view layer.now)) }
{
    let value = at_key("value", parse_integer(required("value", layer)?))?;
    let catch = parse_error_test(alloc, "catch", layer)?;
    Ok(LayerSpec::Fallback { catch, value })
}

// What a layer says. Errors: those of its kind and its backoff; then those of its values.
fn parse_layer<'a>(alloc: Global, layer: &'a Table) -> Result<LayerSpec<'a>, HeadFault>
    ensures { Gives result (parse_layer (table_view layer.now)) }
{
    match kind_in(layer)? {
        LayerKind::Retry => Ok(LayerSpec::Retry(parse_retry(alloc, backoff_in(layer)?, layer)?)),
        LayerKind::Bulkhead => parse_bulkhead(layer),
        LayerKind::Fallback => parse_fallback(alloc, layer),
    }
}

// What all layers say. Errors: that of the first layer with an error; `Memory`.
#[tactic(auto, using(crate::proofs::LayerLaws::after_none, crate::proofs::LayerLaws::each_map, crate::proofs::LayerLaws::each_next))]
fn parse_layers<'a>(alloc: Global, layers: &[&'a Table]) -> Result<Vec<LayerSpec<'a>>, HeadFault>
    ensures { GivesBy (λ said. said.items) result (each parse_layer (map (λ layer. table_view layer.now) layers.now)) }
{
    let mut said = Vec::new(alloc);
    for layer in layers {
        match parse_layer(alloc, layer) {
            Ok(spec) => said.push(spec)?,
            Err(fault) => return Err(fault.of(Part::Layer(said.len()))),
        }
    }
    Ok(said)
}

/// The layers that a head of these keys asks for, innermost first.
///
/// # Errors
///
/// `BadValue` if `layer` isn't an array of tables; then in the order of the stages. `Memory` may come at any step.
pub(crate) fn requested_layers<'a>(
    alloc: Global,
    keys: &[Key],
    head: &'a Table,
) -> Result<Vec<LayerSpec<'a>>, HeadFault>
    ensures { GivesBy (λ said. said.items) result (requested_layers (keys_of keys.now) (table_view head.now)) }
{
    let layers = tables_at(alloc, "layer", head)?;
    check_layers(Stage::Kind, &layers)?;
    check_layers(Stage::Backoff, &layers)?;
    check_known(keys, head)?;
    check_layers(Stage::Known, &layers)?;
    check_required(keys, head)?;
    check_layers(Stage::Required, &layers)?;
    parse_layers(alloc, &layers)
}
