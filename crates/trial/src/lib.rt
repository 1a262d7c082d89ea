#![tactic(auto)]
// A question about a rule, put to its certificate.
ghost use Rattle.std.specs.Prelude.{◌≡◌, List, [], ◌∷◌, ℕ, ◌≤◌, length};
ghost use Rattle.condition.specs.Condition.{Condition};
ghost use Rattle.meets.specs.Meets.{table_rows};
ghost use Rattle.places.specs.Tables.{Tables};
ghost use Rattle.runs.specs.Rules as runs;
ghost use Rattle.runs.specs.Rules.{holds_empty};
ghost use Rattle.claims.specs.Claims.{◌says◌};
ghost use Rattle.sides.specs.Questions.{QuestionIs};
ghost use Rattle.trial.specs.Tested.{Tries};

use answers::Rule;
use bits::member;
use clauses::{Inclusion, Room, first_fault};
use faults::{Fault, fault_of};
use items::Places;
use pairs::part_from;
use places::Side;
use sides::Question;

// A rule that fails, and the fault of its test.
#[derive(Clone, Copy)]
pub struct Failure {
    pub rule: Rule,
    pub fault: Fault,
}

// A question that is put to the certificate at an offset, over so many events.
#[derive(Clone, Copy)]
pub struct Trial {
    pub at: usize,
    pub events: usize,
    pub question: Question,
}

// The side holds the empty word: no certificate is read. Place 0 ends a word exactly then.
fn empty_word(at: usize, rule: Rule, side: Side) -> Result<usize, Failure>
    ensures { (events : ℕ) (s : List ℕ) (a : Condition) (follow sets : List ℕ) → Tables a side follow sets →
        Tries events s ((rule says holds_empty a) ∷ []) at result }
{
    let ends = side.ends;
    if member(ends, 0) {
        return Ok(at);
    }
    Err(Failure {
        rule,
        fault: fault_of(5, 0),
    })
}

// A question about a rule, put to the certificates from an offset on: an inclusion to the certificate there, whose part of the sheet is taken here,
// once for the rule, and the empty word to none. Where the rule passes the next certificate starts at the offset that is returned.
pub fn test(
    s: &[u8],
    trial: Trial,
    left: &Places,
    right: &Places,
    room: &mut Room,
) -> Result<usize, Failure>
    requires { trial.events ≤ 64 }
    ensures tried { (x : runs.Rule) → QuestionIs left.now right.now trial.question x →
        Tries trial.events s.now (x ∷ []) trial.at result }
    ensures room { (length room.new.missing ≡ 64) × (length room.new.rows ≡ table_rows) }
{
    // a borrow, which costs nothing, tells the proof how much room there is
    let _row = &room.rows[0];
    let at = trial.at;
    let events = trial.events;
    match trial.question {
        Question::Inclusion {
            rule,
            left: left_side,
            right: right_side,
        } => {
            let t = Inclusion {
                events,
                left_side,
                right_side,
            };
            // no `map_err` with `?`: no proof names what its closure gives
            match first_fault(part_from(s, at), t, left, right, room) {
                Ok(bytes) => Ok(at + bytes),
                Err(fault) => Err(Failure { rule, fault }),
            }
        }
        Question::HoldsEmpty { rule, side } => empty_word(at, rule, side),
    }
}
