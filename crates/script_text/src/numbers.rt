//! The numbers, modes and bytes in the words of a line.
ghost use Rattle.std.specs.Prelude.{◌≡◌, ◌<◌, true, IfOk};
ghost use Rattle.std.specs.List.{list_all};
ghost use Rattle.script_text.specs.Digits.{with_digit, digits_after};
ghost use Rattle.history_model.specs.Lines.{u32_of, u64_of, count_of};
ghost use Rattle.history_model.specs.Numbers.{is_digit, has_no_leading_zero, is_octal, rights_of, mode_of, is_hex_digit, hex_value, bytes_in_pairs, bytes_of_hex};

use lufs_base::{Bytes, Mem};
use std::alloc::Global;

/// The most bytes that one line may read.
const MOST_READ: u32 = 4096;

/// The most bytes that one line may write.
const MOST_WRITTEN: usize = 16_384;

fn is_digit(b: u8) -> bool
    ensures { result ≡ is_digit b }
{
    48 <= b && b <= 57
}

fn has_no_leading_zero(word: &[u8]) -> bool
    ensures { result ≡ has_no_leading_zero word.now }
{
    match word {
        [first, rest @ ..] => *first != 48 || rest.is_empty(),
        [] => true,
    }
}

// The number with one more digit, if the byte is one and the number has 64 bits.
fn with_digit(number: u64, b: u8) -> Option<u64>
    ensures { result ≡ with_digit number b }
{
    if is_digit(b) {
        number.checked_mul(10)?.checked_add(u64::from(b - 48))
    } else {
        None
    }
}

// The number of these digits, if it has 64 bits.
fn digits_of(word: &[u8]) -> Option<u64>
    ensures { result ≡ digits_after 0 word.now }
{
    let mut number = 0;
    for b in word {
        number = with_digit(number, *b)?;
    }
    Some(number)
}

/// The number of 64 bits that the word is.
#[tactic(auto, using(crate::proofs::DigitLemmas::u64_by_digits))]
pub(crate) fn u64_of(word: &[u8]) -> Option<u64>
    ensures { result ≡ u64_of word.now }
{
    if 0 < word.len() && has_no_leading_zero(word) {
        digits_of(word)
    } else {
        None
    }
}

/// The number of 32 bits that the word is.
#[tactic(auto, using(crate::proofs::DigitLemmas::u32_by_u64))]
pub(crate) fn u32_of(word: &[u8]) -> Option<u32>
    ensures { result ≡ u32_of word.now }
{
    match u64_of(word) {
        Some(number) if number < 0x1_0000_0000 => Some(number as u32),
        _ => None,
    }
}

/// The number that the word is, if so many bytes may be read.
pub(crate) fn count_of(word: &[u8]) -> Option<u32>
    ensures { result ≡ count_of word.now }
{
    match u32_of(word) {
        Some(count) if 1 <= count && count <= MOST_READ => Some(count),
        _ => None,
    }
}

fn is_octal(b: u8) -> bool
    ensures { result ≡ is_octal b }
{
    48 <= b && b <= 55
}

// The nine bits of three octal digits.
fn rights_of(owner: u8, group: u8, others: u8) -> Option<u16>
    ensures { result ≡ rights_of owner group others }
{
    if is_octal(owner) && is_octal(group) && is_octal(others) {
        Some(64 * u16::from(owner - 48) + 8 * u16::from(group - 48) + u16::from(others - 48))
    } else {
        None
    }
}

/// The rights that the word is: three octal digits, or 0 and three.
#[tactic(auto, unfolding(history_model::specs::Numbers::mode_of))]
pub(crate) fn mode_of(word: &[u8]) -> Option<u16>
    ensures { result ≡ mode_of word.now }
{
    match word {
        [owner, group, others] => rights_of(*owner, *group, *others),
        [first, owner, group, others] if *first == 48 => rights_of(*owner, *group, *others),
        _ => None,
    }
}

fn is_hex_digit(b: u8) -> bool
    ensures { result ≡ is_hex_digit b }
{
    is_digit(b) || (65 <= b && b <= 70) || (97 <= b && b <= 102)
}

// The value of a hexadecimal digit.
fn hex_value(b: u8) -> u8
    requires { is_hex_digit b ≡ true }
    ensures value { result ≡ hex_value b }
    ensures small { result < 16 }
{
    if is_digit(b) {
        b - 48
    } else if b <= 70 {
        b - 55
    } else {
        b - 87
    }
}

fn are_hex_digits(word: &[u8]) -> bool
    ensures { result ≡ list_all is_hex_digit word.now }
{
    word.iter().all(|b| is_hex_digit(*b))
}

// The bytes of these digits, two for each.
fn bytes_in_pairs(alloc: Global, digits: &[u8]) -> Result<Vec<u8>, Mem>
    requires { list_all is_hex_digit digits.now ≡ true }
    ensures { IfOk result (λ bytes. bytes.items ≡ bytes_in_pairs digits.now) }
{
    let mut bytes = Vec::new(alloc);
    let mut rest = digits;
    while let [high, low, tail @ ..] = rest {
        bytes.push(16 * hex_value(*high) + hex_value(*low))?;
        rest = tail;
    }
    Ok(bytes)
}

/// The bytes that the word gives, if so many may be written.
#[tactic(auto, unfolding(history_model::specs::Numbers::bytes_of_hex))]
pub(crate) fn bytes_of_hex(alloc: Global, word: &[u8]) -> Result<Option<Bytes>, Mem>
    ensures { IfOk result (λ bytes. bytes ≡ bytes_of_hex word.now) }
{
    if are_hex_digits(word)
        && word.len() % 2 == 0
        && 0 < word.len()
        && word.len() <= 2 * MOST_WRITTEN
    {
        let bytes = bytes_in_pairs(alloc, word)?;
        Ok(Some(Bytes::from_vec(bytes)))
    } else {
        Ok(None)
    }
}
