//! Digests as hexadecimal digits in lower case. A listing has no other digits.
ghost use Rattle.std.specs.Prelude.{◌≡◌, MatchResult};
ghost use Rattle.std.specs.List.{list_all};
ghost use Rattle.sha2.specs.Sha256.{sha256};
ghost use Rattle.hex.specs.Hex.{decode_sized, encode_lower};
ghost use Rattle.module_digest.specs.Lines.{is_lower_digit};

use sha2::{Digest, Sha256};

/// Whether all bytes are hexadecimal digits, letters in lower case.
pub fn all_lower_digits(digits: &[u8]) -> bool
    ensures { result ≡ list_all is_lower_digit digits.now }
{
    digits.iter().all(|b| is_lower_digit(*b))
}

/// The 32 bytes that 64 digits of either case spell; None if they aren't such digits.
pub fn digest_of_digits(digits: &[u8]) -> Option<[u8; 32]>
    ensures { MatchResult (decode_sized digits.now 32) (λ digest. result ≡ Some digest) (λ e. result ≡ None) }
{
    let mut digest = [0; 32];
    match hex::decode_to_slice(digits, &mut digest) {
        Ok(()) => Some(digest),
        Err(_) => None,
    }
}

/// A content's SHA-256 digest.
pub fn digest_of(content: &[u8]) -> [u8; 32]
    ensures { result ≡ sha256 content.now }
{
    Sha256::digest(content)
}

/// A digest's 64 hexadecimal digits, letters in lower case.
pub fn digits_of(digest: &[u8; 32]) -> [u8; 64]
    ensures { result ≡ encode_lower digest.now }
{
    let mut digits = [0; 64];
    let fits = hex::encode_to_slice(digest.as_slice(), &mut digits).is_ok();
    prove!(fits);
    digits
}

fn is_lower_digit(b: u8) -> bool
    ensures { result ≡ is_lower_digit b }
{
    b.is_ascii_digit() || (b >= b'a' && b <= b'f')
}
