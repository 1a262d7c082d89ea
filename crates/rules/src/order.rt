// What rules are about, read from the sheet once: the subject of a number, in the order of testing, with the conditions that its rules name.
ghost use Rattle.std.specs.Prelude.{◌≡◌, List, ℕ, ◌+◌, ◌≤◌, ◌<◌, length, get_or};
ghost use Rattle.std.proofs.Math.Option.{Option, some};
ghost use Rattle.sheet_laws.specs.AtOffset.{step_at};
ghost use Rattle.sheet.specs.Sheet.{Outcome, failed, call_step, Sheet, body};
ghost use Rattle.runs.specs.Rules as runs;
ghost use Rattle.runs.specs.Rules.{is_among, method_rules, entry_asked, step_rules};
ghost use Rattle.values.specs.Values.{body_value, call_value};
ghost use Rattle.index.specs.Indexed.{OutcomeIs, IndexesAll, HasPoint, HasFailed};
ghost use Rattle.index.specs.Ways.{WayIs, FailingIs, EnteredIs};
ghost use Rattle.claims.specs.Claims.{NthIs, ChannelIs};
ghost use Rattle.rules.specs.Subjects.{SubjectIs, ListedIs};
ghost use Rattle.rules.specs.Order.{IndexOf, groups};

use crate::subjects::Subject;
use index::ways::Way;
use index::{Index, OutcomeConditions};
use method_claims::MethodBody;
use step_claims::Call;
use values::{Body, CallStep, Method, Step, method_at, step_at};

// A way of returning, at or to the point p, by what the method declares of its outcome.
fn way_of(x: Index, p: usize, declared: OutcomeConditions) -> Way
    requires { (S : Sheet) × HasPoint S x p }
    ensures { (S : Sheet) (m : ℕ) (o : Outcome) → HasPoint S x.entry p → OutcomeIs x.entry.sheet.now S m o declared →
        WayIs x.entry.sheet.now S m o p result }
{
    let point = x.point(p);
    Way { point, declared }
}

// The failed way of the method m, which has two outcomes, at or to the point p. Inlined, as the subjects of a body and of a call are below: each call would put
// a copy of the index on the stack at the depth where a load takes most.
#[inline(always)]
fn failed_way(x: Index, m: usize, p: usize) -> Way
    requires { (S : Sheet) × HasPoint S x p × HasFailed S x m }
    ensures { (S : Sheet) → HasPoint S x.entry p → HasFailed S x.entry m → WayIs x.entry.sheet.now S m failed p result }
{
    way_of(x, p, x.failed(m))
}

// The method m with its body and its failed way; whether runs start at it.
#[inline(always)]
fn body_subject(x: Index, m: usize, inner: Body, failed: Option<Way>, first: bool) -> Subject
    requires { (S : Sheet) × IndexesAll S x × (m < length S.methods) × (inner.entry < length S.points) × (inner.exit < length S.points) }
    ensures { (S : Sheet) (starts : List ℕ) (e : Option ℕ) → first ≡ is_among starts m → IndexesAll S x.entry → m < length S.methods →
        inner.entry < length S.points → inner.exit < length S.points → FailingIs x.entry.sheet.now S m e failed →
        SubjectIs x.entry.sheet.now S result (method_rules S starts m (some (body_value inner e))) }
{
    let declared = x.method(m);
    let exit = way_of(x, inner.exit, declared.normal);
    Subject::Body(MethodBody {
        method: m,
        pre: declared.pre,
        entry: x.point(inner.entry),
        exit,
        failed,
        first,
    })
}

// The method m, with its body if it has one; whether runs start at it.
fn method_subject(x: Index, m: usize, first: bool) -> Option<Subject>
    requires { (S : Sheet) × IndexesAll S x × (m < length S.methods) }
    ensures { (S : Sheet) (starts : List ℕ) → first ≡ is_among starts m → IndexesAll S x.entry → m < length S.methods →
        ListedIs x.entry.sheet.now S result (method_rules S starts m (body S m)) }
{
    match method_at(x.sheet, x.offsets.methods[m] as usize) {
        Method::Primitive(_) | Method::TwoOutcomePrimitive(_, _) => None,
        Method::WithBody(_, inner) => Some(body_subject(x, m, inner, None, first)),
        Method::TwoOutcomeBody(_, inner, failed) => {
            let way = failed_way(x, m, failed.exit);
            Some(body_subject(x, m, inner, Some(way), first))
        }
    }
}

// What a call of the method m enters, as far as rule 26 asks about it: the due of the entry.
fn entered_by(x: Index, m: usize) -> Option<u32>
    requires { (S : Sheet) × IndexesAll S x × (m < length S.methods) }
    ensures { (S : Sheet) → IndexesAll S x.entry → m < length S.methods → EnteredIs x.entry.sheet.now S (entry_asked S m) result }
{
    let e = x.entry_asked(m)?;
    let entry = x.point(e);
    Some(entry.due)
}

// The call step i with its channel, 0 where it names none (`on_channel` says why 0 serves), and its failed way. Inlined, since a call of its own would take
// 350 bytes of stack more at the depth where a load takes most.
#[inline(always)]
fn call_subject(x: Index, i: usize, call: CallStep, channel: u32, failed: Option<Way>) -> Subject
    requires { (S : Sheet) × IndexesAll S x × (call.method < length S.methods) × (call.from < length S.points) × (call.to < length S.points) }
    ensures { (S : Sheet) (f c : Option ℕ) → IndexesAll S x.entry →
        call.method < length S.methods → call.from < length S.points → call.to < length S.points →
        FailingIs x.entry.sheet.now S call.method f failed → ChannelIs c channel →
        SubjectIs x.entry.sheet.now S result (step_rules S i (call_step (call_value call f c))) }
{
    let declared = x.method(call.method);
    let to = way_of(x, call.to, declared.normal);
    let entered = entered_by(x, call.method);
    Subject::Call(Call {
        step: i,
        pre: declared.pre,
        channel,
        from: x.point(call.from),
        to,
        failed,
        entered,
    })
}

// The step i, by its kind. What a call asks and promises is what its method declares. A step has a subject always; an option is what the caller answers, and
// is made in place.
fn step_subject(x: Index, i: usize) -> Option<Subject>
    requires { (S : Sheet) × IndexesAll S x × (i < length S.steps) }
    ensures { (S : Sheet) → IndexesAll S x.entry → i < length S.steps →
        ListedIs x.entry.sheet.now S result (step_rules S i (step_at x.entry.sheet.now (get_or x.entry.offsets.now.steps i 0))) }
{
    match step_at(x.sheet, x.offsets.steps[i] as usize) {
        Step::Event { from, to, event } => Some(Subject::Event {
            step: i,
            from: x.point(from),
            to: x.point(to),
            event,
        }),
        Step::Call(call) => Some(call_subject(x, i, call, 0, None)),
        Step::TwoOutcomeCall(call, to) => {
            let way = failed_way(x, call.method, to);
            Some(call_subject(x, i, call, 0, Some(way)))
        }
        Step::ChannelCall(call, channel) => {
            Some(call_subject(x, i, call, u32::from(channel), None))
        }
        Step::Pass { from, to } => Some(Subject::Pass {
            step: i,
            from: x.point(from),
            to: x.point(to),
        }),
        Step::Stop(from) => {
            let point = x.point(from);
            Some(Subject::Stop {
                step: i,
                due: point.due,
            })
        }
    }
}

// The subject of a number: first the method that runs start at, then the methods, then the steps. A primitive is none.
pub fn subject_at(x: Index, number: usize) -> Option<Subject>
    requires sheet_in { (S : Sheet) × IndexOf S x }
    requires number_bound { number ≤ x.counts.methods + x.counts.steps }
    ensures { (S : Sheet) (xs : List runs.Rule) → IndexOf S x.entry → NthIs (groups S) number xs → ListedIs x.entry.sheet.now S result xs }
{
    if number == 0 {
        return Some(Subject::First {
            method: 0,
            declared: x.method(0),
        });
    }
    let k = number - 1;
    let listed = x.counts.methods;
    if k < listed {
        return method_subject(x, k, k == 0);
    }
    step_subject(x, k - listed)
}
