#![tactic(auto)]
// Certificates: a certificate is read from the sheet's own bytes, pair after pair.
ghost use Rattle.std.specs.Prelude.{◌≡◌, ◌+◌, ◌*◌, ◌^◌, ◌≤◌, ◌<◌, length, drop};
ghost use Rattle.certificate.specs.Certificate.{pair_of};
ghost use Rattle.sheet_laws.specs.AtOffset.{certificate_at};
ghost use Rattle.format.specs.Pairs.{pair_is, listed_at};
ghost use Rattle.pairs.specs.Found.{pair_found};

use format::listing::{END_BYTES, PAIR_BYTES, Pair, listed_at, pair_at};

// The certificate's part of the sheet: the bytes from its first pair on. Document 01 asks for this form.
#[derive(Clone, Copy)]
pub struct Certificate<'a> {
    pub pairs: &'a [u8],
}

// The part of the sheet from an offset on; it is empty where the offset lies past the end.
pub fn part_from<'a>(s: &'a [u8], from: usize) -> &'a [u8]
    ensures { result.now ≡ drop from s.now }
{
    &s[from.min(s.len())..]
}

// The pair at an offset of the certificate; where none stands, the fields that would be its own.
pub fn listed_of<'a>(c: Certificate<'a>, at: usize) -> Result<Pair, Pair>
    ensures { result ≡ listed_at c.entry.pairs.now at }
{
    listed_at(c.pairs, at)
}

// The same for callers that have the part and no struct.
pub fn listed_in(pairs: &[u8], at: usize) -> Result<Pair, Pair>
    ensures { result ≡ listed_at pairs.now at }
{
    listed_of(Certificate { pairs }, at)
}

// Pair number i of the certificate, or none at its end.
pub fn pair_in(pairs: &[u8], i: usize) -> Option<Pair>
    requires { i ≤ length (certificate_at pairs.now 0) }
    ensures { result ≡ pair_found (certificate_at pairs.now 0) i }
{
    listed_in(pairs, PAIR_BYTES * i).ok()
}

// Pair number i, which the certificate has: neither its kind nor the end need be looked at.
pub fn known_pair(pairs: &[u8], i: usize) -> Pair
    requires { i < length (certificate_at pairs.now 0) }
    ensures { pair_of (certificate_at pairs.now 0) i ≡ pair_is result }
{
    pair_at(pairs, PAIR_BYTES * i)
}

// The bytes of a certificate of so many pairs, with its end.
pub fn bytes_of(count: usize) -> usize
    requires { 6 * count + 1 < 2 ^ 64 }
    ensures { result ≡ 6 * count + 1 }
{
    PAIR_BYTES * count + END_BYTES
}
