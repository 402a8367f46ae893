//! A few octets that are written at once.
ghost use Rattle.std.specs.Prelude.{◌≡◌, ◌≤◌, length, take};

/// Writes a few octets over the first ones.
pub(crate) fn put_few<const N: usize>(octets: &mut [u8], few: &[u8; N])
    requires { N ≤ length octets.old }
    ensures written { take N octets.new ≡ few.now }
    ensures len { length octets.new ≡ length octets.old }
{
    let Some(first) = octets.first_chunk_mut::<N>() else {
        // There are as many octets.
        unreachable!();
    };
    *first = *few;
}
