// Texts and numbers over the bytes of a line, from a place on. Each function returns the place after what it laid out.

ghost use Rattle.std.specs.Prelude.{◌≡◌, ◌≤◌, ◌<◌, ◌+◌, ◌/◌, ◌%◌, ◌++◌, length, take, decimal};
ghost use Rattle.camac_lines.specs.Digits.{two_digits};

use crate::digits::two_digits;
use itoa::{Buffer, Integer};

/// Bytes as they are.
#[inline(always)]
pub fn bytes_in(bytes: &mut [u8], start: usize, source: &[u8]) -> usize
    requires { start + length source.now ≤ length bytes.old }
    ensures written { take result bytes.new ≡ take start bytes.old ++ source.now }
    ensures end { result ≡ start + length source.now }
    ensures len { length bytes.new ≡ length bytes.old }
{
    let end = start + source.len();
    bytes[start..end].copy_from_slice(source);
    end
}

/// A text as it is.
#[inline(always)]
pub fn text_in(bytes: &mut [u8], start: usize, text: &str) -> usize
    requires { start + length text.now ≤ length bytes.old }
    ensures written { take result bytes.new ≡ take start bytes.old ++ text.now }
    ensures end { result ≡ start + length text.now }
    ensures len { length bytes.new ≡ length bytes.old }
{
    bytes_in(bytes, start, text.as_bytes())
}

/// A number in decimal.
pub fn number_in<N: Integer>(bytes: &mut [u8], start: usize, number: N) -> usize
    requires room { start + N.MAX_STR_LEN ≤ length bytes.old }
    ensures written { take result bytes.new ≡ take start bytes.old ++ N.text number }
    ensures end { result ≤ start + N.MAX_STR_LEN }
    ensures len { length bytes.new ≡ length bytes.old }
{
    let mut buffer = Buffer::new();
    text_in(bytes, start, buffer.format(number))
}

/// A number in decimal. It is quick where the number has one digit or two.
#[inline(always)]
pub fn small_in(bytes: &mut [u8], start: usize, number: u8) -> usize
    requires room { start + 3 ≤ length bytes.old }
    ensures written { take result bytes.new ≡ take start bytes.old ++ decimal number }
    ensures end { result ≤ start + 3 }
    ensures len { length bytes.new ≡ length bytes.old }
{
    if number < 10 {
        bytes_in(bytes, start, &[b'0' + number])
    } else if number < 100 {
        bytes_in(bytes, start, &two_digits(number as usize))
    } else {
        number_in(bytes, start, number)
    }
}

/// A number in decimal. It is quick where the number has at most eight digits.
pub fn count_in(bytes: &mut [u8], start: usize, number: usize) -> usize
    requires room { start + 20 ≤ length bytes.old }
    ensures written { take result bytes.new ≡ take start bytes.old ++ decimal number }
    ensures end { result ≤ start + 20 }
    ensures len { length bytes.new ≡ length bytes.old }
{
    if number < 10_000 {
        short_in(bytes, start, number)
    } else if number < 100_000_000 {
        let end = short_in(bytes, start, number / 10_000);
        four_in(bytes, end, number % 10_000)
    } else {
        number_in(bytes, start, number)
    }
}

// A number of at most four digits.
#[inline(always)]
fn short_in(bytes: &mut [u8], start: usize, number: usize) -> usize
    requires few { number < 10000 }
    requires room { start + 5 ≤ length bytes.old }
    ensures written { take result bytes.new ≡ take start bytes.old ++ decimal number }
    ensures end { result ≤ start + 5 }
    ensures len { length bytes.new ≡ length bytes.old }
{
    if number < 100 {
        small_in(bytes, start, number as u8)
    } else {
        let end = small_in(bytes, start, (number / 100) as u8);
        bytes_in(bytes, end, &two_digits(number % 100))
    }
}

// A number in exactly four digits.
#[inline(always)]
fn four_in(bytes: &mut [u8], start: usize, number: usize) -> usize
    requires few { number < 10000 }
    requires room { start + 4 ≤ length bytes.old }
    ensures written { take result bytes.new ≡ take start bytes.old ++ (two_digits (number / 100) ++ two_digits (number % 100)) }
    ensures end { result ≡ start + 4 }
    ensures len { length bytes.new ≡ length bytes.old }
{
    let end = bytes_in(bytes, start, &two_digits(number / 100));
    bytes_in(bytes, end, &two_digits(number % 100))
}
