ghost use Rattle.std.specs.Prelude.{◌≡◌, length, if◌then◌else◌, ◌==◌, nat_eq};
ghost use Rattle.hash.specs.Sha256.{sha_256};

use hash::sha256;
use schemes::DIGEST_LEN;

// Writes the digest of some bytes into 32 lent bytes. A bool beside lent bytes: C has no Option.
#[unsafe(no_mangle)]
pub extern "C" fn kofnasig_sha256(bytes: &[u8], digest: &mut [u8]) -> bool
    ensures answer { result ≡ (length digest.old == 32) }
    ensures after { digest.new ≡ (if nat_eq (length digest.old) 32 then sha_256 bytes.now else digest.old) }
{
    if digest.len() != DIGEST_LEN {
        return false;
    }
    digest.copy_from_slice(&sha256(bytes));
    true
}
