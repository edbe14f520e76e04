//! Text in a vector of a fixed capacity: bytes, hexadecimal and decimal numbers, each after what stands there already.

#![tactic(auto)]

ghost use Rattle.std.specs.Prelude.{◌≡◌, ◌++◌, ◌+◌, ◌<◌, ◌≤◌, length, drop};
ghost use Rattle.text.specs.Text.{hex_digit, digit_at, hex_of, decimal_of, Room, Put};

use arrayvec::ArrayVec;

// Appends a text.
pub fn put<const N: usize>(out: &mut ArrayVec<u8, N>, text: &[u8])
    requires { Room out.old.items text.now N }
    ensures { out.new.items ≡ out.old.items ++ text.now }
{
    let _ = out.try_extend_from_slice(text);
}

// Puts a text at `n` of a lent buffer, over what stands there; where the next one goes. So a line that was made in a vector goes into
// a buffer of any length.
pub fn put_at(out: &mut [u8], n: usize, text: &[u8]) -> usize
    requires { n + length text.now ≤ length out.old }
    ensures { Put out.old n text.now result out.new }
{
    out[n..n + text.len()].copy_from_slice(text);
    n + text.len()
}

// A hexadecimal digit in ASCII.
fn hex_digit(d: u8) -> u8
    requires { d < 16 }
    ensures { result ≡ hex_digit d }
{
    if d < 10 { 48 + d } else { 55 + d }
}

// The hexadecimal digit of a number with `i` digits behind it. A number of 16 bits has four digits, and any before them is 0.
fn digit_at(value: u16, i: usize) -> u8
    ensures { (result ≡ digit_at i value) × (result < 16) }
{
    let rest = match i {
        0 => value,
        1 => value / 16,
        2 => value / 256,
        3 => value / 4096,
        _ => 0,
    };
    (rest % 16) as u8
}

// Appends the last `width` hexadecimal digits of a number.
pub fn put_hex<const N: usize>(out: &mut ArrayVec<u8, N>, width: usize, value: u16)
    requires { Room out.old.items (hex_of width value) N }
    ensures { out.new.items ≡ out.old.items ++ hex_of width value }
{
    for i in (0..width).rev() {
        out.push(hex_digit(digit_at(value, i)));
    }
}

// Writes a number in decimal at the end of twenty places, from the last digit to the first; where the first one stands.
fn spell(value: u64, digits: &mut [u8; 20]) -> usize
    requires { length digits.old ≡ 20 }
    ensures { (length digits.new ≡ 20) × (result ≤ 20) × (drop result digits.new ≡ decimal_of value) }
{
    let mut first: usize = 20;
    let mut rest = value;
    loop {
        first -= 1;
        digits[first] = 48 + (rest % 10) as u8;
        if rest < 10 {
            return first;
        }
        rest /= 10;
    }
}

// Appends a number in decimal.
pub fn put_decimal<const N: usize>(out: &mut ArrayVec<u8, N>, value: u64)
    requires { Room out.old.items (decimal_of value) N }
    ensures { out.new.items ≡ out.old.items ++ decimal_of value }
{
    let mut digits = [0u8; 20];
    let first = spell(value, &mut digits);
    put(out, &digits[first..]);
}
