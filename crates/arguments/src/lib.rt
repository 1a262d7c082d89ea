#![tactic(auto)]
// The arguments of a program, the instrument and the files that they name, and what is said on standard error about them. What standard error
// does not take is lost, so the functions that only write there have no contract.
ghost use Rattle.std.specs.Prelude.{◌≡◌, true, ◌≤◌, length};
ghost use Rattle.input.specs.Input.{ReadInto};
ghost use Rattle.arguments.specs.Choice.{Chosen};

use input::{argument, first, read_all, read_file};
use instrument::Instrument;
use std::env::{Env, FillError};
use std::io::{Cursor, Error, ErrorKind, Write};
use std::rt::Files;
use std::{io, str};

// The instrument that the arguments name, if they name one, and the number of the first argument behind the option.
#[derive(Clone, Copy)]
pub struct Choice {
    pub instrument: Option<Instrument>,
    pub next: usize,
}

// Whether argument i is this text. There is room for 4,096 bytes of it.
pub fn is_argument<E: Env>(env: &E, i: usize, text: &[u8]) -> bool
    ensures { result ≡ true → length text.now ≤ 4096 }
{
    let mut room = [0u8; 4096];
    let n = argument(env, i, &mut room);
    &room[..n] == text
}

// On standard error ----------------------------------------------------------------------------------------------------

fn say<W: Write>(errors: &mut W, text: &[u8]) {
    let _ = errors.write_all(text);
}

// What an error's text says, without the number that the system has for it.
fn without_number(text: &str) -> &str {
    match text.split_once(" (os error ") {
        Some((reason, _)) => reason,
        None => text,
    }
}

// Why something failed, and the end of the line.
fn say_reason<W: Write>(errors: &mut W, why: Error) {
    let mut text = Cursor::new([0u8; 256]);
    let _ = write!(text, "{why}");
    let size = text.position() as usize;
    say(errors, b": ");
    if let Ok(all) = str::from_utf8(first(text.get_ref(), size)) {
        say(errors, without_number(all).as_bytes());
    }
    say(errors, b"\n");
}

// That something cannot be read, and why.
fn cannot_read<W: Write>(errors: &mut W, program: &[u8], what: &[u8], why: Error) {
    say(errors, program);
    say(errors, b": cannot read ");
    say(errors, what);
    say_reason(errors, why);
}

// That the answer could not be written, and why.
pub fn cannot_write<W: Write>(errors: &mut W, program: &[u8], why: Error) {
    say(errors, program);
    say(errors, b": cannot write the answer");
    say_reason(errors, why);
}

// What argument i is: missing, its text, or too long.
fn say_argument<E: Env, W: Write>(env: &E, errors: &mut W, i: usize) {
    let mut text = [0u8; 4096];
    match env.arg(i, &mut text) {
        Err(FillError::NotPresent) => say(errors, b" is missing"),
        Ok(n) => {
            say(errors, b" is `");
            say(errors, &text[..n]);
            say(errors, b"`");
        }
        Err(FillError::TooLong) => say(errors, b" is too long"),
    }
}

// That argument i is wrong, what it is, and what was expected.
pub fn wrong_argument<E: Env, W: Write>(
    env: &E,
    errors: &mut W,
    program: &[u8],
    i: usize,
    expected: &[u8],
) {
    say(errors, program);
    let _ = write!(errors, ": argument {i}");
    say_argument(env, errors, i);
    say(errors, b": expected ");
    say(errors, expected);
    say(errors, b"\n");
}

// The instrument, or a line on standard error that says what was expected ------------------------------------------------

// The instrument that argument i names. There is room for 4,096 bytes of it.
fn instrument_at<E: Env>(env: &E, i: usize) -> Option<Instrument> {
    let mut room = [0u8; 4096];
    let n = argument(env, i, &mut room);
    match &room[..n] {
        b"large" => Some(Instrument::Large),
        b"entry" => Some(Instrument::Entry),
        b"four" => Some(Instrument::Four),
        _ => None,
    }
}

// The instrument that `--instrument` names, in front of the other arguments; the large one where the option is not given.
pub fn chosen_instrument<E: Env, W: Write>(env: &E, errors: &mut W, program: &[u8]) -> Choice
    ensures chosen { Chosen result }
    ensures next_bound { result.next ≤ 3 }
{
    if !is_argument(env, 1, b"--instrument") {
        return Choice {
            instrument: Some(Instrument::Large),
            next: 1,
        };
    }
    let instrument = instrument_at(env, 2);
    if instrument.is_none() {
        wrong_argument(
            env,
            errors,
            program,
            2,
            b"an instrument, large, entry or four",
        );
    }
    Choice {
        instrument,
        next: 3,
    }
}

// Input, or a line on standard error that says what could not be read ----------------------------------------------------

// What was read; where it could not be, that is said.
fn told<W: Write>(
    errors: &mut W,
    program: &[u8],
    what: &[u8],
    got: io::Result<usize>,
) -> io::Result<usize>
    ensures { result ≡ got }
{
    if let Err(why) = got {
        cannot_read(errors, program, what, why);
    }
    got
}

// Why an argument cannot be a file's name.
fn no_name(why: FillError) -> Error {
    match why {
        FillError::NotPresent => Error::new(ErrorKind::InvalidInput, "Invalid argument"),
        FillError::TooLong => Error::new(ErrorKind::InvalidFilename, "File name too long"),
    }
}

// The bytes of the file that argument i names.
pub fn read_named<R: Env + Files, W: Write>(
    rt: &R,
    errors: &mut W,
    program: &[u8],
    i: usize,
    room: &mut [u8],
) -> io::Result<usize>
    ensures { ReadInto room.old room.new result }
{
    let mut name = [0u8; 4096];
    match rt.arg(i, &mut name) {
        Ok(n) => told(errors, program, &name[..n], read_file(rt, &name[..n], room)),
        Err(e) => told(errors, program, b"the file", Err(no_name(e))),
    }
}

// The bytes of standard input.
pub fn read_input<I: io::Input, W: Write>(
    rt: &I,
    errors: &mut W,
    program: &[u8],
    room: &mut [u8],
) -> io::Result<usize>
    ensures { ReadInto room.old room.new result }
{
    let got = read_all(&mut rt.reader(), room);
    told(errors, program, b"standard input", got)
}
