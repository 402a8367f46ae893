//! The version of the library.
ghost use Rattle.std.specs.Prelude.{◌≡◌};
ghost use Rattle.latsefur_c.specs.Version.{version};

/// The version of the library, which is `LATSEFUR_VERSION` in its header. It rises with each change of the header.
#[unsafe(no_mangle)]
pub extern "C" fn latsefur_version() -> u32
    ensures version { result ≡ version }
{
    3
}
