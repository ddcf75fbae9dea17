//! Which library it is.
ghost use Rattle.std.specs.Prelude.{◌≡◌};

/// Returns the version as one number: a million for each major, a thousand for each minor, and one for each patch.
#[unsafe(no_mangle)]
pub extern "C" fn hv_version() -> u32
    ensures { result ≡ 2000000 }
{
    2_000_000
}

/// Returns the number of the binary interface: a program that was compiled for this number runs with this library.
#[unsafe(no_mangle)]
pub extern "C" fn hv_abi() -> u32
    ensures { result ≡ 2 }
{
    2
}
