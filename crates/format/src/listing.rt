// Pairs of a certificate: kind 13, "left place (1), right set (4)".
ghost use Rattle.std.specs.Prelude.{◌≡◌, ◌+◌, ◌<◌, length};
ghost use Rattle.sheet_laws.specs.AtOffset.{pair_at};
ghost use Rattle.format.specs.Pairs.{pair_is, listed_at};

use fields::set_inside;
use kinds::Kind;

// The bytes of a pair, and of the end of a certificate.
pub const PAIR_BYTES: usize = 6;

pub const END_BYTES: usize = 1;

// A left place and a set of right places.
#[derive(Clone, Copy)]
pub struct Pair {
    pub place: usize,
    pub set: u64,
}

// The fields of the pair at an offset, of which all six bytes are there.
pub fn pair_at(s: &[u8], at: usize) -> Pair
    requires { at + 5 < length s.now }
    ensures { pair_is result ≡ pair_at s.now at }
{
    Pair {
        place: usize::from(s[at + 1]),
        set: set_inside(s, at + 2),
    }
}

// The pair at an offset; where none stands, the fields that would be its own. One test serves for all six bytes.
pub fn listed_at(s: &[u8], at: usize) -> Result<Pair, Pair>
    ensures { result ≡ listed_at s.now at }
{
    if at < s.len().saturating_sub(5) {
        let pair = pair_at(s, at);
        return if s[at] == Kind::Pair as u8 {
            Ok(pair)
        } else {
            Err(pair)
        };
    }
    Err(Pair { place: 0, set: 0 })
}
