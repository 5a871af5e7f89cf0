//! Pays as whole numbers of parts of their common unit, and the greatest size of one.
ghost use Rattle.std.specs.Prelude.{◌≡◌, ◌<◌, ◌≤◌, ◌^◌, ℕ, Option, Some, None, nat_abs, map, IfSome, IfOk, MatchResult, true};
ghost use Rattle.spiel_frac.specs.Multiples.{least_common_multiple};
ghost use Rattle.spiel_matrix.specs.Pays.{are_small, common_unit, greatest, in_parts, small_parts, small_unit, unit_with, IsTooFine};

use crate::fault::MatrixFault;
use spiel_frac::{Frac, List, lcm};
use std::alloc::Global;

/// The greatest unit, and the greatest size of a pay in parts of it: 2^62.
const MOST: u128 = 0x4000_0000_0000_0000;

/// The denominator of a pay.
fn den_of(pay: Frac) -> u128
    ensures value { result ≡ pay.den }
    ensures positive { 0 < result }
{
    pay.den() as u128
}

/// The least common denominator, unless it passes 2^62.
pub fn common_unit(pays: &[Frac]) -> Option<u64>
    ensures value { result ≡ small_unit (common_unit pays.now) }
    ensures positive { 0 < common_unit pays.now }
{
    let mut unit = Some(1u64);
    for pay in pays {
        unit = unit_with(unit, *pay);
    }
    unit
}

/// The least common multiple of a unit and the denominator of a pay, unless it passes 2^62.
fn unit_with(unit: Option<u64>, pay: Frac) -> Option<u64>
    requires { IfSome unit (λ n. 0 < n) }
    ensures value { result ≡ unit_with unit pay.den }
    ensures positive { 0 < pay.den }
{
    let den = den_of(pay);
    let next = lcm(u128::from(unit?), den)?;
    if next > MOST {
        return None;
    }
    Some(next as u64)
}

/// How many parts of 1/unit a pay is, unless its size in them passes 2^62.
fn in_parts(unit: u64, pay: Frac) -> Option<i64>
    ensures { result ≡ small_parts (in_parts unit pay) }
{
    let factor = u128::from(unit) / den_of(pay);
    let parts = pay.num().checked_mul(factor as i128)?;
    if parts.unsigned_abs() > MOST {
        return None;
    }
    Some(parts as i64)
}

/// All pays in parts of 1/unit. `PayTooFine` comes where the size of one of them passes 2^62.
pub fn pays_in(alloc: Global, unit: u64, pays: &[Frac]) -> Result<List<i64>, MatrixFault>
    ensures pays { IfOk result (λ parts. parts ≡ map (in_parts unit) pays.now) }
    ensures fault { MatchResult result (λ parts. are_small unit pays.now ≡ true) (IsTooFine unit pays.now) }
{
    let mut parts = List::new(alloc);
    for pay in pays {
        let Some(part) = in_parts(unit, *pay) else {
            return Err(MatrixFault::PayTooFine);
        };
        parts.push(part)?;
    }
    Ok(parts)
}

/// The greatest size of a pay, and 1 at least.
pub fn greatest_size(pays: &[i64]) -> u64
    ensures { result ≡ greatest (map nat_abs pays.now) }
{
    let mut greatest = 1u64;
    for pay in pays {
        greatest = greatest.max(pay.unsigned_abs());
    }
    greatest
}
