// What a record of points, methods or steps is refused for by what it names.
ghost use Rattle.std.specs.Prelude.{◌≡◌};
ghost use Rattle.kinds.specs.Numbers.{kind_number};
ghost use Rattle.format.specs.Named.{Named};
ghost use Rattle.names.specs.Judge.{judged_at};

use crate::channels::channel_fits;
use crate::names_exist;
use crate::outcomes::outcomes_fit;
use format::Refusal;
use kinds::Kind;
use owners::owners_fit;
use tally::Tally;

// 7, 9 for a first method that is a primitive, 18, 24 and 26, in that order. The points and the methods stand at the offsets of two tables. Each of the
// five tests takes others of the parameters, so a struct of them would only be taken apart.
pub fn judge(
    s: &[u8],
    at: usize,
    kind: Kind,
    first: bool,
    tally: Tally,
    events: usize,
    points: &[u32],
    methods: &[u32],
) -> Result<(), Refusal>
    requires { Named s.now at (kind_number kind) }
    ensures { result ≡ judged_at events s.now at (kind_number kind) first tally points.now methods.now }
{
    if !names_exist(s, at, kind, tally, events) {
        return Err(Refusal::UnknownName(at));
    }
    if first && kind.is_primitive() {
        return Err(Refusal::NoFirstBody(at));
    }
    if !outcomes_fit(s, at, kind as u8, methods) {
        return Err(Refusal::WrongOutcomes(at));
    }
    if !owners_fit(s, at, kind, tally.methods, points) {
        return Err(Refusal::WrongOwner(at));
    }
    if !channel_fits(s, at, kind as u8, methods) {
        return Err(Refusal::WrongChannel(at));
    }
    Ok(())
}
