// From one claim of a sheet to the next, in the order of testing.
ghost use Rattle.std.specs.Prelude.{List, IsSome, ◌<◌};
ghost use Rattle.sheet.specs.Sheet.{Sheet};
ghost use Rattle.runs.specs.Rules as runs;
ghost use Rattle.runs.specs.Rules.{rules};
ghost use Rattle.rules.specs.Order.{IndexOf};
ghost use Rattle.rules.specs.Cursor.{LeftAt, NextIs, weight};

use crate::order::subject_at;
use crate::subjects::{Subject, claim_of};
use claims::Claim;
use index::Index;

// What a number is of, a subject or a primitive, and the number of the next of its claims.
#[derive(Clone, Copy)]
pub struct Cursor {
    pub number: usize,
    pub subject: Option<Subject>,
    pub k: usize,
}

impl Cursor {
    // Before the first claim.
    pub fn start(x: Index) -> Cursor
        requires { (S : Sheet) × IndexOf S x }
        ensures { (S : Sheet) → IndexOf S x.entry → LeftAt x.entry.sheet.now S result (rules S) }
    {
        Cursor {
            number: 0,
            subject: subject_at(x, 0),
            k: 0,
        }
    }

    // The next claim, or none behind the last one.
    pub fn next_claim(&mut self, x: Index) -> Option<Claim>
        requires { (S : Sheet) × IndexOf S x × ((xs : List runs.Rule) × LeftAt x.sheet.now S self.old xs) }
        ensures next { (S : Sheet) (xs : List runs.Rule) → IndexOf S x.entry → LeftAt x.entry.sheet.now S self.old xs →
            NextIs x.entry.sheet.now S xs self.new result }
        ensures nearer { IsSome result → weight x.entry.counts self.new < weight x.entry.counts self.old }
    {
        let last = x.counts.methods + x.counts.steps;
        // no `for`: the number goes on only where a subject has no further claim, and the cursor is left there for the next call
        loop {
            if let Some(claim) = claim_of(self.subject, self.k) {
                self.k += 1;
                return Some(claim);
            }
            if last <= self.number {
                return None;
            }
            self.number += 1;
            self.subject = subject_at(x, self.number);
            self.k = 0;
        }
    }
}
