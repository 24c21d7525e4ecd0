//! Where a half lies on a device of a scale.
ghost use Rattle.std.specs.Prelude.{◌≡◌, ◌<◌, ◌+◌, ◌*◌, ◌^◌};
ghost use Rattle.apex_base.specs.Numbers.{scale_device_len};
ghost use Rattle.apex_journal.specs.Journal.{half_len};

use apex_base::Scale;

/// The offset of the first half. So far it is always the one in use.
pub(crate) const START: u64 = 4096;

/// The length of a half in bytes.
pub(crate) fn half_len(scale: Scale) -> u64
    ensures len { result ≡ half_len scale }
    ensures small { result < 2 ^ 32 }
    ensures some { 0 < result }
    ensures device { 4096 + 2 * result ≡ scale_device_len scale }
{
    match scale {
        Scale::Small => 524288,
        Scale::Standard => 33554432,
    }
}
