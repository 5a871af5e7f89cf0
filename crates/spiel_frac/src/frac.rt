//! Exact fractions in lowest terms, and their texts.
ghost use Rattle.std.specs.Prelude.{◌≡◌, ◌≢◌, ℕ, ◌/◌, ◌<◌, ◌≤◌, ◌++◌, ℤ, pos, Some, unsigned_abs, IfSome, IfNone, IfOk, string_bytes};
ghost use Rattle.std.specs.Int.{IsGcd};
ghost use Rattle.spiel_frac.specs.Adding.{Adds};
ghost use Rattle.spiel_frac.specs.Fraction.{Fraction, IsLowest, IsQuotient, frac_text, greatest_common_divisor, lowest_terms, most, quotient, ratio_text, signed_as, within_most};

use crate::memory::NoMemory;
use crate::text::Text;
use std::alloc::{AllocError, Global};
use std::marker::Model;

/// The greatest size of a part, 2^127 - 1.
pub(crate) const MOST: u128 = 0x7fff_ffff_ffff_ffff_ffff_ffff_ffff_ffff;

/// A fraction in lowest terms, with a denominator above 0 and the sign in the numerator. Neither
/// part passes 2^127 - 1 in size. Two are equal exactly where they are the same number.
#[derive(Clone, Copy, Debug, PartialEq, Eq)]
pub struct Frac {
    num: i128,
    den: u128,
}

impl Model for Frac {
    ghost use Rattle.spiel_frac.specs.Fraction.{Fraction, IsLowest};

    ghost Value = { Fraction };

    ghost view = { λ f. record { num = f.num; den = f.den } };

    ghost invariant = { λ f. IsLowest (record { num = f.num; den = f.den }) };

    ghost inverse = { λ f. record { num = f.num; den = f.den } };
}

/// The greatest common divisor, by Euclid's algorithm (Elements, book VII, proposition 2).
pub(crate) fn greatest_common_divisor(a: u128, b: u128) -> u128
    ensures divisor { IsGcd a b result }
    ensures value { result ≡ greatest_common_divisor a b }
{
    let mut x = a;
    let mut y = b;
    while y != 0 {
        let rest = x % y;
        x = y;
        y = rest;
    }
    x
}

/// Both numbers divided by their greatest common divisor.
fn in_lowest_terms(a: u128, b: u128) -> (u128, u128)
    requires { 0 < b }
    ensures top { result.0 ≡ a / greatest_common_divisor a b }
    ensures bottom { result.1 ≡ b / greatest_common_divisor a b }
    ensures positive { 0 < result.1 }
    ensures lowest { IsGcd result.0 result.1 1 }
{
    let common = greatest_common_divisor(a, b);
    (a / common, b / common)
}

/// The number of this size, with the sign of `num / den`.
fn signed_as(num: i128, den: i128, size: u128) -> i128
    requires { size ≤ most }
    ensures { result ≡ signed_as num den size }
{
    let number = size as i128;
    if (num < 0) == (den < 0) {
        number
    } else {
        -number
    }
}

/// The fraction of these sizes with the sign of `num / den`. There is none where a size passes
/// `MOST`.
fn within_most(num: i128, den: i128, top: u128, bottom: u128) -> Option<Frac>
    requires positive { 0 < bottom }
    requires lowest { IsGcd top bottom 1 }
    ensures { result ≡ within_most (record { num = signed_as num den top; den = bottom }) }
{
    if top > MOST || bottom > MOST {
        return None;
    }
    Some(Frac {
        num: signed_as(num, den, top),
        den: bottom,
    })
}

impl Frac {
    /// The fraction `num / den`. There is none where `den` is 0 or a part in lowest terms passes
    /// 2^127 - 1 in size, which only a part of `i128::MIN` does.
    pub fn new(num: i128, den: i128) -> Option<Frac>
        ensures value { result ≡ quotient num den }
        ensures some { IfSome result (λ f. (den ≢ pos 0) × IsLowest f × IsQuotient f num den) }
        ensures none { IfNone result ((f : Fraction) → IsLowest f → IsQuotient f num den
            → den ≡ pos 0) }
        ensures fits { den ≢ pos 0 → unsigned_abs num ≤ most → unsigned_abs den ≤ most
            → result ≡ Some (lowest_terms num den) }
    {
        if den == 0 {
            return None;
        }
        let (top, bottom) = in_lowest_terms(num.unsigned_abs(), den.unsigned_abs());
        within_most(num, den, top, bottom)
    }

    /// The fraction `num / den`, which there is for any two numbers of 64 bits.
    pub fn ratio(num: u64, den: u64) -> Frac
        requires { 0 < den }
        ensures value { result ≡ lowest_terms (pos num) (pos den) }
        ensures text { frac_text result ≡ ratio_text num den }
    {
        Frac::new(i128::from(num), i128::from(den)).unwrap()
    }

    /// The numerator.
    pub fn num(&self) -> i128
        ensures value { result ≡ self.now.num }
        ensures lowest { IsLowest self.now }
    {
        self.num
    }

    /// The denominator, above 0.
    pub fn den(&self) -> i128
        ensures value { result ≡ pos self.now.den }
        ensures lowest { IsLowest self.now }
    {
        self.den as i128
    }
}

/// The numerator, and behind a slash the denominator unless it is 1.
fn frac_string(alloc: Global, value: Frac) -> Result<String, AllocError>
    ensures { IfOk result (λ text. string_bytes text ≡ frac_text value) }
{
    let num = value.num;
    let den = value.den;
    if den == 1 {
        num.to_string(alloc)
    } else {
        format!(in alloc; "{num}/{den}")
    }
}

/// Adds the text of a fraction: `-3/2`, or `5` for a whole number. After `NoMemory` a front of the
/// text was added.
pub fn write_frac(alloc: Global, value: Frac, out: &mut Text) -> Result<(), NoMemory>
    ensures { Adds result out.old out.new (frac_text value) }
{
    let text = frac_string(alloc, value)?;
    out.push(text.as_bytes())
}

/// Adds the text of `num / den` in lowest terms: `1/2` for 2 and 4. After `NoMemory` a front of
/// the text was added.
pub fn write_ratio(alloc: Global, num: u64, den: u64, out: &mut Text) -> Result<(), NoMemory>
    requires { 0 < den }
    ensures { Adds result out.old out.new (ratio_text num den) }
{
    write_frac(alloc, Frac::ratio(num, den), out)
}
