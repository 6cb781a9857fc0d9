// The version of the library, for programs that link it.
ghost use Rattle.std.specs.Prelude.{◌≡◌, ◌+◌, ◌*◌};

const MAJOR: u32 = 0;

const MINOR: u32 = 2;

const PATCH: u32 = 0;

// One number: the major version 65,536 times, the minor 256 times, and the patch.
#[unsafe(no_mangle)]
pub extern "C" fn mukthiban_version() -> u32
    ensures { result ≡ 0 * 65536 + 2 * 256 + 0 }
{
    MAJOR * 65536 + MINOR * 256 + PATCH
}
