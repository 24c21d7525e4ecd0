//! Bytes in hexadecimal, in letters of either case. No loop here ends early, so that many digits are read at a time.
ghost use Rattle.std.specs.Prelude.{◌≡◌, ℕ, ◌*◌, length, IsTrue, IfOk, Some, Ok, option_map};
ghost use Rattle.std.specs.List.{list_all};
ghost use Rattle.std.specs.Result.{result_ok};
ghost use Rattle.hex.specs.Hex.{is_hex_digit, hex_digit_value, pair_value, decode_of};

use std::alloc::{AllocError, Global};

/// The bytes that pairs of digits spell; None if they aren't pairs of digits. Fails only if memory runs out.
pub fn bytes_of(alloc: Global, digits: &[u8]) -> Result<Option<Vec<u8>>, AllocError>
    ensures { IfOk result (λ bytes. option_map (λ b. b.items) bytes ≡ result_ok (decode_of digits.now)) }
{
    if digits.len() % 2 != 0 {
        return Ok(None);
    }
    if !all_digits(digits) {
        return Ok(None);
    }
    let mut bytes = vec![in alloc; 0u8; digits.len() / 2]?;
    write_bytes(digits, &mut bytes);
    Ok(Some(bytes))
}

fn write_bytes(digits: &[u8], bytes: &mut [u8])
    requires pairs { length digits.now ≡ 2 * length bytes.old }
    requires digits { IsTrue (list_all is_hex_digit digits.now) }
    ensures { decode_of digits.now ≡ Ok bytes.new }
{
    for i in 0..bytes.len() {
        bytes[i] = byte_of(digits[2 * i], digits[2 * i + 1]);
    }
}

fn byte_of(high: u8, low: u8) -> u8
    requires high { IsTrue (is_hex_digit high) }
    requires low { IsTrue (is_hex_digit low) }
    ensures { (i : ℕ) → pair_value high low i ≡ Ok result }
{
    16 * digit_value(high) + digit_value(low)
}

/// The value of a digit. The low four bits of a letter count from 1, in either case, and bit 6 is set in letters alone.
fn digit_value(digit: u8) -> u8
    requires { IsTrue (is_hex_digit digit) }
    ensures { hex_digit_value digit ≡ Some result }
{
    (digit & 15) + 9 * (digit >> 6)
}

fn all_digits(digits: &[u8]) -> bool
    ensures { result ≡ list_all is_hex_digit digits.now }
{
    let mut all = true;
    for b in digits {
        all = all & is_digit(*b);
    }
    all
}

fn is_digit(b: u8) -> bool
    ensures { result ≡ is_hex_digit b }
{
    (b >= b'0') & (b <= b'9') | (b >= b'A') & (b <= b'F') | (b >= b'a') & (b <= b'f')
}
