#![tactic(auto)]
// The tests of a sheet's rules, claim after claim, with the certificates that stand in its bytes one after the other.
ghost use Rattle.std.specs.Prelude.{◌≤◌};
ghost use Rattle.sheet.specs.Sheet.{Sheet};
ghost use Rattle.runs.specs.Rules.{rules};
ghost use Rattle.rules.specs.Order.{IndexOf};
ghost use Rattle.trial.specs.Tested.{Tries};

use clauses::Room;
use index::Index;
use items::{Places, Stack};
use meets::ROWS;
use rules::cursor::Cursor;
use sides::sides_of;
use trial::{Failure, Trial, test};

// All rules of a sheet over so many events, with the certificates from an offset on: where the last of them ends, or the first rule that fails. The
// tables that the tests need are made once, here.
pub fn test_rules(x: Index, events: usize, from: usize) -> Result<usize, Failure>
    requires sheet_in { (S : Sheet) × IndexOf S x }
    requires events_bound { events ≤ 64 }
    ensures { (S : Sheet) → IndexOf S x.entry → Tries events x.entry.sheet.now (rules S) from result }
{
    let mut stack = Stack::EMPTY;
    let mut left = Places::EMPTY;
    let mut right = Places::EMPTY;
    let mut room = Room {
        rows: [0; ROWS],
        missing: [0; 64],
    };
    let mut at = from;
    let mut cursor = Cursor::start(x);
    while let Some(claim) = cursor.next_claim(x) {
        let question = sides_of(x.sheet, claim, &mut stack, &mut left, &mut right);
        let trial = Trial {
            at,
            events,
            question,
        };
        at = test(x.sheet, trial, &left, &right, &mut room)?;
    }
    Ok(at)
}
