//! A number that says whether two programs have the same parameters.
#![tactic(auto)]

ghost use Rattle.std.specs.Prelude.{◌≡◌};
ghost use Rattle.dt_units.specs.declared.parameters.Params.{Params};
ghost use Rattle.dt_fingerprint.specs.Fingerprints.{digest_of, fingerprint_of};

use byteorder::{BigEndian, ByteOrder};
use dt_units::Rules;
use sha2::{Digest, Sha256};

/// The fingerprint of parameters: the first eight octets, the greatest first, of the SHA-256 digest of
/// the eleven numbers, each written as four octets, the greatest first, in the order of
/// [`dt_units::Params`].
///
/// All nodes must have one set of parameters. Two programs that hand this number to each other see
/// where theirs differ: equal parameters have equal fingerprints, and it would take a search for two
/// others to have equal ones. It is no secret, and no proof of who sent it.
pub fn fingerprint(rules: &Rules) -> u64
    ensures value { result ≡ fingerprint_of rules.now }
    ensures equal { (p : Params) → p ≡ rules.now → fingerprint_of p ≡ result }
{
    let params = rules.params();
    let numbers = [
        params.mpl,
        params.r,
        params.a,
        params.rto,
        params.probe,
        params.seg,
        params.cap,
        params.rcap,
        params.window,
        params.run_limit,
        params.start,
    ];
    BigEndian::read_u64(&digest_of(&numbers))
}

/// The digest of numbers, each written as four octets, the greatest first.
fn digest_of(numbers: &[u32]) -> [u8; 32]
    ensures { result ≡ digest_of numbers.now }
{
    let mut hasher = Sha256::new();
    for i in 0..numbers.len() {
        hasher.update(numbers[i].to_be_bytes());
    }
    hasher.finalize()
}
