//! The row of boots: tag 1.
ghost use Rattle.std.specs.Prelude.{◌≡◌};
ghost use Rattle.apex_base.specs.Keys.{Boots, key_text};

/// The tag of the row of boots.
pub const BOOTS: u8 = 1;

/// The key of the row of boots, which is its tag alone.
pub fn boots_key() -> [u8; 1]
    ensures { result ≡ key_text Boots }
{
    [BOOTS]
}
