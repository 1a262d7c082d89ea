// What rules are about, and their claims by number. A subject is a value: no table and no byte of the sheet is read here.
ghost use Rattle.std.specs.Prelude.{List, ℕ};
ghost use Rattle.sheet.specs.Sheet.{Sheet};
ghost use Rattle.runs.specs.Rules as runs;
ghost use Rattle.claims.specs.Claims.{Kth};
ghost use Rattle.rules.specs.Subjects.{ListedIs};

use claims::Claim;
use index::{MethodConditions, PointConditions};
use method_claims::{MethodBody, body_claim, first_claim};
use step_claims::{Call, call_claim, event_claim, pass_claim, stop_claim};

// A method that runs start at, a method with its body, or a step.
#[derive(Clone, Copy)]
pub enum Subject {
    First {
        method: usize,
        declared: MethodConditions,
    },
    Body(MethodBody),
    Event {
        step: usize,
        from: PointConditions,
        to: PointConditions,
        event: usize,
    },
    Call(Call),
    Pass {
        step: usize,
        from: PointConditions,
        to: PointConditions,
    },
    Stop {
        step: usize,
        due: u32,
    },
}

// Claim number k of a subject; a primitive is none, and has no rules.
pub fn claim_of(subject: Option<Subject>, k: usize) -> Option<Claim>
    ensures { (s : List ℕ) (S : Sheet) (xs : List runs.Rule) → ListedIs s S subject xs → Kth s xs k result }
{
    match subject? {
        Subject::First { method, declared } => first_claim(method, declared, k),
        Subject::Body(body) => body_claim(body, k),
        Subject::Event {
            step,
            from,
            to,
            event,
        } => event_claim(step, from, to, event, k),
        Subject::Call(call) => call_claim(call, k),
        Subject::Pass { step, from, to } => pass_claim(step, from, to, k),
        Subject::Stop { step, due } => stop_claim(step, due, k),
    }
}
