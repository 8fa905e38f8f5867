//! By which limits a schema file is read.

ghost use Rattle.std.specs.Prelude.{◌≡◌};
ghost use Rattle.fbcheck_serve.specs.FileMarks.{schema_limits};

use fb_verify::Limits;

/// The longest buffer, in bytes.
const LONGEST: u64 = 0x7FFF_FFFF;

/// The limits by which a schema file of so many bytes is verified, whatever the settings say: the published ones with
/// a budget of 100,000,000 reads, and of 64 for each byte and for 64 more.
pub fn schema_limits(length: u64) -> Limits
    ensures { result ≡ schema_limits length }
{
    let limits = Limits::published().with_reads(100_000_000);
    limits.of_length(64, length.min(LONGEST))
}
