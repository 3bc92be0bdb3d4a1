//! Appending bytes and numbers to a text.

ghost use Rattle.std.specs.Prelude.{◌≡◌, ◌+◌, ◌/◌, ◌%◌, ◌<◌, ◌≤◌, [], ◌∷◌, ◌++◌, vec_len, vec_capacity, decimal, OnOk};
ghost use Rattle.std.specs.Fmt.{signed_decimal};
ghost use Rattle.homeo_print.specs.Names.{heading, numbers_text};

use homeo_syntax::Memory;
use itoa::{Buffer, Integer};

/// Appends bytes.
///
/// # Errors
///
/// `Memory` when out of memory, and then some of the bytes may be appended.
pub fn push_bytes(out: &mut Vec<u8>, bytes: &[u8]) -> Result<(), Memory>
    ensures { OnOk result (out.new.items ≡ out.old.items ++ bytes.now) }
{
    out.extend_from_slice(bytes)?;
    Ok(())
}

/// Appends a number of any integer type in decimal, behind `-` where it is negative.
///
/// # Errors
///
/// `Memory` when out of memory, and then some of the bytes may be appended.
pub fn push_integer<I: Integer>(out: &mut Vec<u8>, n: I) -> Result<(), Memory>
    ensures { OnOk result (out.new.items ≡ out.old.items ++ I.text n) }
{
    let mut digits = Buffer::new();
    push_bytes(out, digits.format(n).as_bytes())
}

/// Appends a byte.
///
/// # Errors
///
/// `Memory` when out of memory, and then some of the bytes may be appended.
pub fn push_byte(out: &mut Vec<u8>, byte: u8) -> Result<(), Memory>
    ensures { OnOk result (out.new.items ≡ out.old.items ++ byte ∷ []) }
{
    out.push(byte)?;
    Ok(())
}

/// Appends the digit of a number below 10, for which there must be room.
fn put_digit(out: &mut Vec<u8>, n: u64)
    requires digit { n < 10 }
    requires room { vec_len out.old + 1 ≤ vec_capacity out.old }
    ensures items { out.new.items ≡ out.old.items ++ (48 + n) ∷ [] }
    ensures len { vec_len out.new ≡ vec_len out.old + 1 }
    ensures capacity { vec_capacity out.new ≡ vec_capacity out.old }
{
    out.push_reserved(b'0' + n as u8);
}

/// Appends the two digits of a number below 100, the first of which may be 0. There must be room for them.
fn put_pair(out: &mut Vec<u8>, n: u64)
    requires pair { n < 100 }
    requires room { vec_len out.old + 2 ≤ vec_capacity out.old }
    ensures items { out.new.items ≡ out.old.items ++ (48 + n / 10) ∷ (48 + n % 10) ∷ [] }
    ensures len { vec_len out.new ≡ vec_len out.old + 2 }
    ensures capacity { vec_capacity out.new ≡ vec_capacity out.old }
{
    put_digit(out, n / 10);
    put_digit(out, n % 10);
}

/// Appends a number below 100 in decimal, for which there must be room.
#[tactic(auto, using(crate::proofs::Digits::digits))]
fn put_tens(out: &mut Vec<u8>, n: u64)
    requires tens { n < 100 }
    requires room { vec_len out.old + 2 ≤ vec_capacity out.old }
    ensures items { out.new.items ≡ out.old.items ++ decimal n }
    ensures len { vec_len out.new ≤ vec_len out.old + 2 }
    ensures capacity { vec_capacity out.new ≡ vec_capacity out.old }
{
    if n < 10 {
        put_digit(out, n);
    } else {
        put_pair(out, n);
    }
}

/// Appends a number below 10,000 in decimal, for which there must be room.
#[tactic(auto, using(crate::proofs::Digits::digits))]
fn put_thousands(out: &mut Vec<u8>, n: u64)
    requires thousands { n < 10000 }
    requires room { vec_len out.old + 4 ≤ vec_capacity out.old }
    ensures items { out.new.items ≡ out.old.items ++ decimal n }
    ensures len { vec_len out.new ≤ vec_len out.old + 4 }
    ensures capacity { vec_capacity out.new ≡ vec_capacity out.old }
{
    if n < 100 {
        put_tens(out, n);
    } else {
        put_tens(out, n / 100);
        put_pair(out, n % 100);
    }
}

/// Appends a number below 1,000,000 in decimal, for which there must be room.
#[tactic(auto, using(crate::proofs::Digits::digits))]
fn put_short(out: &mut Vec<u8>, n: u64)
    requires short { n < 1000000 }
    requires room { vec_len out.old + 6 ≤ vec_capacity out.old }
    ensures items { out.new.items ≡ out.old.items ++ decimal n }
{
    if n < 10_000 {
        put_thousands(out, n);
    } else {
        put_thousands(out, n / 100);
        put_pair(out, n % 100);
    }
}

/// Appends a number in decimal.
///
/// # Errors
///
/// `Memory` when out of memory, and then some of the bytes may be appended.
pub fn push_number(out: &mut Vec<u8>, n: u64) -> Result<(), Memory>
    ensures { OnOk result (out.new.items ≡ out.old.items ++ decimal n) }
{
    // Most numbers of a text are short, and such a one is put behind it without a buffer.
    if n < 1_000_000 {
        out.reserve(6)?;
        put_short(out, n);
        Ok(())
    } else {
        push_integer(out, n)
    }
}

/// Appends a number in decimal, behind `-` where it is negative.
///
/// # Errors
///
/// `Memory` when out of memory, and then some of the bytes may be appended.
pub fn push_signed(out: &mut Vec<u8>, n: i64) -> Result<(), Memory>
    ensures { OnOk result (out.new.items ≡ out.old.items ++ signed_decimal n) }
{
    if n < 0 {
        push_byte(out, b'-')?;
        push_number(out, n.unsigned_abs())
    } else {
        push_number(out, n as u64)
    }
}

/// Appends a number of 128 bits in decimal, behind `-` where it is negative.
///
/// # Errors
///
/// `Memory` when out of memory, and then some of the bytes may be appended.
pub fn push_wide(out: &mut Vec<u8>, n: i128) -> Result<(), Memory>
    ensures { OnOk result (out.new.items ≡ out.old.items ++ signed_decimal n) }
{
    if i64::MIN as i128 <= n && n <= i64::MAX as i128 {
        push_signed(out, n as i64)
    } else {
        push_integer(out, n)
    }
}

/// Appends numbers, each behind a space.
///
/// # Errors
///
/// `Memory` when out of memory, and then some of the bytes may be appended.
#[tactic(auto, unfolding(crate::specs::Key::definitions))]
pub fn push_numbers(out: &mut Vec<u8>, numbers: &[i64]) -> Result<(), Memory>
    ensures { OnOk result (out.new.items ≡ out.old.items ++ numbers_text numbers.now) }
{
    for number in numbers {
        push_byte(out, b' ')?;
        push_signed(out, *number)?;
    }
    Ok(())
}

/// Appends a word and a number, and ends the line.
///
/// # Errors
///
/// `Memory` when out of memory, and then some of the bytes may be appended.
#[tactic(auto, unfolding(crate::specs::Key::definitions))]
pub fn push_heading(out: &mut Vec<u8>, word: &[u8], number: u64) -> Result<(), Memory>
    ensures { OnOk result (out.new.items ≡ out.old.items ++ heading word.now number) }
{
    push_bytes(out, word)?;
    push_number(out, number)?;
    push_byte(out, b'\n')
}
