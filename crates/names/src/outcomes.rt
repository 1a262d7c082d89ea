// Whether a call names a method with as many outcomes as it has targets: refusal 18.
ghost use Rattle.std.specs.Prelude.{◌≡◌, not, ◌<◌, length};
ghost use Rattle.names.specs.Outcomes.{kind_listed, wrong_outcomes_at};

use fields::{byte_at, short_at};
use kinds::Kind;
use kinds::bytes::has_two_outcomes;

const CALL: u8 = Kind::Call as u8;

const TWO_OUTCOME_CALL: u8 = Kind::TwoOutcomeCall as u8;

// The byte of kind of the method m of a table of offsets, 0 past its end. A byte: the clause tells it also where it stands for no kind.
pub fn kind_listed(s: &[u8], methods: &[u32], m: usize) -> u8
    ensures { result ≡ kind_listed s.now methods.now m }
{
    match methods.get(m) {
        Some(at) => byte_at(s, *at as usize),
        None => 0,
    }
}

// Not 18, of a record of a kind, by its byte, where the methods stand at the offsets of a table.
pub fn outcomes_fit(s: &[u8], at: usize, kind: u8, methods: &[u32]) -> bool
    requires { at < length s.now }
    ensures { result ≡ not (wrong_outcomes_at s.now at kind methods.now) }
{
    match kind {
        CALL => !has_two_outcomes(kind_listed(s, methods, short_at(s, at + 5))),
        TWO_OUTCOME_CALL => has_two_outcomes(kind_listed(s, methods, short_at(s, at + 7))),
        _ => true,
    }
}
