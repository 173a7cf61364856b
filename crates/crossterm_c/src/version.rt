//! The version of the archive.
ghost use Rattle.std.specs.Prelude.{◌≡◌, ◌+◌, ◌*◌};

// The numbers of `GELVANH_VERSION` in the header.
const MAJOR: u32 = 0;

const MINOR: u32 = 4;

const PATCH: u32 = 1;

/// The version of the archive: the three numbers of `GELVANH_VERSION`, in a byte each, the last one lowest. 0.4.1 is 0x000401.
///
/// A program that finds the archive's functions by name compares it with its header's `GELVANH_VERSION_NUMBER`.
#[unsafe(no_mangle)]
pub extern "C" fn gelvanh_version() -> u32
    ensures { result ≡ (0 * 256 + 4) * 256 + 1 }
{
    (MAJOR * 256 + MINOR) * 256 + PATCH
}
