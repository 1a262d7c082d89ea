#![tactic(auto)]
// What stands at an offset, as a value: a point, a method, a step. The offset is that of a record of such a kind. That it lies in the sheet is a fact of
// two parameters, so each function asks for it, and no type of one of them holds it.
ghost use Rattle.std.specs.Prelude.{◌≡◌, ◌+◌, ◌≤◌, ◌<◌, length};
ghost use Rattle.sheet_laws.specs.AtOffset.{short_at, declared_at, point_at, method_at, step_at};
ghost use Rattle.values.specs.Values.{PointHas, declared_value, Declares, DeclaresFailed, method_value, step_value};

use fields::{byte_at, short_at};
use format::kind_at;
use kinds::Kind;

// A point's conditions, by their numbers.
#[derive(Clone, Copy)]
pub struct Point {
    pub past: usize,
    pub own: usize,
    pub due: usize,
}

// What a method declares of one outcome: its conditions, by their numbers.
#[derive(Clone, Copy)]
pub struct Declared {
    pub trace: usize,
    pub future: usize,
}

// What a method declares of its beginning and of the normal outcome.
#[derive(Clone, Copy)]
pub struct Declaration {
    pub pre: usize,
    pub normal: Declared,
}

// The points of a method's body, by their numbers.
#[derive(Clone, Copy)]
pub struct Body {
    pub entry: usize,
    pub exit: usize,
}

// The failed outcome of a method with body: what the method declares of it, and its failed exit.
#[derive(Clone, Copy)]
pub struct FailedBody {
    pub declared: Declared,
    pub exit: usize,
}

#[derive(Clone, Copy)]
pub enum Method {
    Primitive(Declaration),
    WithBody(Declaration, Body),
    TwoOutcomePrimitive(Declaration, Declared),
    TwoOutcomeBody(Declaration, Body, FailedBody),
}

// A call: the points that it goes from and to, and the method that it calls.
#[derive(Clone, Copy)]
pub struct CallStep {
    pub from: usize,
    pub to: usize,
    pub method: usize,
}

// A step. A call of a method that can fail has a failed target behind it, and a call on a channel the channel; a stop has the point that it is at.
#[derive(Clone, Copy)]
pub enum Step {
    Event {
        from: usize,
        to: usize,
        event: usize,
    },
    Call(CallStep),
    TwoOutcomeCall(CallStep, usize),
    ChannelCall(CallStep, u8),
    Pass {
        from: usize,
        to: usize,
    },
    Stop(usize),
}

pub fn point_at(s: &[u8], at: usize) -> Point
    requires { at < length s.now }
    ensures { PointHas result (point_at s.now at) }
{
    Point {
        past: short_at(s, at + 1),
        own: short_at(s, at + 3),
        due: short_at(s, at + 5),
    }
}

// What is declared of an outcome by two fields, the first `ahead` bytes behind the offset of a record.
fn declared_at(s: &[u8], at: usize, ahead: usize) -> Declared
    requires { (at < length s.now) × (ahead ≤ 16) }
    ensures { declared_value result ≡ declared_at s.now (at + ahead) }
{
    let first = at + ahead;
    Declared {
        trace: short_at(s, first),
        future: short_at(s, first + 2),
    }
}

pub fn declaration_at(s: &[u8], at: usize) -> Declaration
    requires { at < length s.now }
    ensures { Declares result (method_at s.now at) }
{
    let normal = declared_at(s, at, 3);
    Declaration {
        pre: short_at(s, at + 1),
        normal,
    }
}

// What a method of two outcomes declares of the failed one: of a primitive it stands behind the future, of a method with body behind the exit.
pub fn failed_at(s: &[u8], at: usize) -> Declared
    requires { at < length s.now }
    ensures { DeclaresFailed result (method_at s.now at) }
{
    if byte_at(s, at) == Kind::TwoOutcomePrimitive as u8 {
        return declared_at(s, at, 7);
    }
    declared_at(s, at, 11)
}

fn body_at(s: &[u8], at: usize) -> Body
    requires { at < length s.now }
    ensures { (result.entry ≡ short_at s.now (at + 7)) × (result.exit ≡ short_at s.now (at + 9)) }
{
    Body {
        entry: short_at(s, at + 7),
        exit: short_at(s, at + 9),
    }
}

pub fn method_at(s: &[u8], at: usize) -> Method
    requires { at < length s.now }
    ensures { method_value result ≡ method_at s.now at }
{
    let declaration = declaration_at(s, at);
    match kind_at(s, at).unwrap_or(Kind::WithBody) {
        Kind::Primitive => Method::Primitive(declaration),
        Kind::TwoOutcomePrimitive => Method::TwoOutcomePrimitive(declaration, failed_at(s, at)),
        Kind::TwoOutcomeBody => {
            let body = body_at(s, at);
            let declared = failed_at(s, at);
            let exit = short_at(s, at + 15);
            Method::TwoOutcomeBody(declaration, body, FailedBody { declared, exit })
        }
        _ => Method::WithBody(declaration, body_at(s, at)),
    }
}

pub fn step_at(s: &[u8], at: usize) -> Step
    requires { at < length s.now }
    ensures { step_value result ≡ step_at s.now at }
{
    let from = short_at(s, at + 1);
    let to = short_at(s, at + 3);
    match kind_at(s, at).unwrap_or(Kind::Pass) {
        Kind::Event => {
            let event = usize::from(byte_at(s, at + 5));
            Step::Event { from, to, event }
        }
        Kind::Call => {
            let method = short_at(s, at + 5);
            Step::Call(CallStep { from, to, method })
        }
        Kind::TwoOutcomeCall => {
            let failed = short_at(s, at + 5);
            let method = short_at(s, at + 7);
            Step::TwoOutcomeCall(CallStep { from, to, method }, failed)
        }
        Kind::ChannelCall => {
            let method = short_at(s, at + 5);
            let channel = byte_at(s, at + 7);
            Step::ChannelCall(CallStep { from, to, method }, channel)
        }
        Kind::Stop => Step::Stop(from),
        _ => Step::Pass { from, to },
    }
}
