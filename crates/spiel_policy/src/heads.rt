//! The JSON value of a policy file, its head, and its list of entries.
ghost use Rattle.std.specs.Prelude.{◌≡◌, Some, Ok, codes, option_map, option_and_then, MatchResult};
ghost use Rattle.std.specs.Option.{ok_or};
ghost use Rattle.serde_json.specs.View.{items_view, view};
ghost use Rattle.serde_json.specs.Find.{get};
ghost use Rattle.spiel_policy.specs.Entries.{whole_of};
ghost use Rattle.spiel_policy.specs.Heads.{entries_of, is_whole, json_of};
ghost use Rattle.spiel_policy.specs.Reading.{IsComputed};
ghost use Rattle.spiel_policy.specs.declared.fault.PolicyFault.TheVariants.{Json};

use crate::entries::has_members;
use crate::fault::PolicyFault;
use serde_json::Value;
use std::alloc::Global;

/// The JSON value that the bytes are.
pub(crate) fn json_of(alloc: Global, bytes: &[u8]) -> Result<Value, PolicyFault>
    ensures { MatchResult result
        (λ value. ok_or (json_of bytes.now) Json ≡ Ok (view value))
        (IsComputed (ok_or (json_of bytes.now) Json)) }
{
    match Value::from_slice(alloc, bytes) {
        Ok(value) => Ok(value),
        Err(error) => {
            if error.is_memory() {
                Err(PolicyFault::NoMemory)
            } else {
                Err(PolicyFault::Json)
            }
        }
    }
}

/// Whether the member `policy` is the number 1.
fn is_version_1(value: &Value) -> bool
    ensures { result ≡ is_whole 1 (option_and_then whole_of (get (codes "policy") (view value.now))) }
{
    match value.get("policy") {
        Some(version) => version.as_u64() == Some(1),
        None => false,
    }
}

/// The entries of a policy file.
pub(crate) fn entries_of(value: &Value) -> Option<&[Value]>
    ensures { option_map (λ entries. items_view entries.now) result ≡ entries_of (view value.now) }
{
    if !has_members(value, 2) || !is_version_1(value) {
        return None;
    }
    Some(value.get("states")?.as_array()?.as_slice())
}
