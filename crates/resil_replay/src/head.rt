//! The head of a pool, for `replay` and `audit`: its three sizes.
//!
//! It is checked in the stages of a document; the last one is that the pool accepts its sizes.
//! `specs/Head.antt` defines the stages as one chain of cases.

ghost use Rattle.std.specs.Prelude.{◌≡◌, IfOk, IsOkAnd};
ghost use Rattle.toml.specs.Errors.{IsBlank};
ghost use Rattle.resil_rule.specs.Limits.{AreLimits, IsSizeRefusal};
ghost use Rattle.resil_rule.specs.declared.error.AdmitError.{AdmitError};
ghost use Rattle.resil_replay.specs.Head.{requested_sizes_of, pool_head_of};
ghost use Rattle.resil_heads.specs.Checks.{Gives};

use resil_admission::Limits;
use resil_heads::document::{check_keys, read_document};
use resil_heads::forms::Key;
use resil_heads::sizes::{CORE, MAX, QUEUE, parse_limits};
use resil_heads::{HeadError, HeadFault};
use std::alloc::Global;

/// The keys of a pool's head.
pub const POOL_KEYS: &[Key] = &[CORE, MAX, QUEUE];

/// Returns the limits in a pool's head. Its keys are `core` and `max` (workers, both required) and
/// `queue` (jobs, 100 by default), each an integer from 0 to 4,294,967,295.
///
/// # Errors
///
/// The first in this order: `BadToml`; `UnknownKey`; `MissingKey`; `BadValue`; `Limits` if the pool
/// refuses the sizes. `Memory` may come at any stage.
#[tactic(auto, unfolding(resil_heads::specs::Sizes::parse_limits))]
pub fn read_head(alloc: Global, bytes: &[u8]) -> Result<Limits, HeadFault>
    ensures answer { Gives result (pool_head_of bytes.now) }
    ensures in_range { IfOk result AreLimits }

    // `Limits` names the first of the requested sizes that is out of its range.
    ensures refused_sizes { (why : AdmitError) → result ≡ Err (HeadError.Limits why)
        → IsOkAnd (requested_sizes_of bytes.now) (λ sizes. IsSizeRefusal sizes why) }

    // A blank head doesn't allocate.
    ensures memory { result ≡ Err HeadError.Memory → ¬ IsBlank bytes.now }
{
    let table = read_document(alloc, bytes)?;
    check_keys(POOL_KEYS, &table)?;
    parse_limits(&table)
}
