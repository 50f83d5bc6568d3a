//! The distances of an offset.

ghost use Rattle.std.specs.Prelude.{◌≡◌, ◌^◌, ◌<◌, ◌≤◌};
ghost use Rattle.olr_report.specs.Location.{earliest_offset, latest_offset};

/// The earliest distance of an offset on a leg of this length, in decimetres, rounded down. 0 where
/// there is no offset.
pub(crate) fn earliest(share: Option<u8>, length: u64) -> u64
    requires { length < 2 ^ 56 }

    ensures distance { result ≡ earliest_offset share length }
    ensures within { result ≤ length }
{
    let Some(share) = share else {
        return 0;
    };
    u64::from(share) * length / 256
}

/// The latest distance of an offset on a leg of this length, in decimetres, rounded up. 0 where
/// there is no offset.
pub(crate) fn latest(share: Option<u8>, length: u64) -> u64
    requires { length < 2 ^ 56 }

    ensures distance { result ≡ latest_offset share length }
    ensures within { result ≤ length }
{
    let Some(share) = share else {
        return 0;
    };
    ((u64::from(share) + 1) * length).div_ceil(256)
}
