// The mark of the new edition, and whether a stop may stand in a sheet: refusal 20.
ghost use Rattle.std.specs.Prelude.{◌≡◌};
ghost use Rattle.kinds.specs.Numbers.{kind_number};
ghost use Rattle.refusals.specs.Editions.{past_mark, stop_fits};

use format::is_new;
use kinds::Kind;

// The offset of the first record behind the mark of the new edition; without a mark, that of the first record.
pub fn past_mark(s: &[u8], kinds: u8) -> usize
    ensures { result ≡ past_mark kinds s.now }
{
    if is_new(s) && Kind::Edition as u8 <= kinds {
        1
    } else {
        0
    }
}

// Not 20, of a record of a kind.
pub fn stop_fits(s: &[u8], kind: Kind) -> bool
    ensures { result ≡ stop_fits s.now (kind_number kind) }
{
    match kind {
        Kind::Stop => is_new(s),
        _ => true,
    }
}
