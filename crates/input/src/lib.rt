#![tactic(auto)]
// Bytes from files, from standard input and from arguments. A contract says which bytes a read gives only where the reader's type says which ones
// it has left.
ghost use Rattle.std.specs.Prelude.{◌≡◌, ◌≤◌, ◌<◌, length, take, OnOk};
ghost use Rattle.std.specs.Io.KnownBytes.{Consumes, IsAtEnd};
ghost use Rattle.input.specs.Input.{ReadInto, GivesAll};

use std::env::{Env, FillError};
use std::io::{Error, ErrorKind, Read};
use std::rt::Files;
use std::{fs, io};

// Reads until the room is full, the input ends or a read fails: how many bytes were read, and whether it was a failure that ended the reading.
// std's read_exact and read_to_end do not say how many bytes came before a failure.
fn fill<R: Read>(file: &mut R, room: &mut [u8]) -> (usize, io::Result<()>)
    ensures within { result.0 ≤ length room.old }
    ensures bytes { Consumes (R.remaining file.old) (R.remaining file.new) (take result.0 room.new) }
    ensures end { OnOk result.1 (result.0 < length room.old → IsAtEnd (R.remaining file.new)) }
{
    let mut done = 0;
    while done < room.len() {
        match file.read(&mut room[done..]) {
            Ok(0) => return (done, Ok(())),
            Ok(n) => done += n,
            Err(e) => return (done, Err(e)),
        }
    }
    (done, Ok(()))
}

// The bytes that a reader has left, as many as there is room for. A read that fails is told from the end of the input, and ends the reading.
pub fn read_all<R: Read>(file: &mut R, room: &mut [u8]) -> io::Result<usize>
    ensures into { ReadInto room.old room.new result }
    ensures bytes { GivesAll (R.remaining file.old) (R.remaining file.new) result room.new }
{
    let (n, ended) = fill(file, room);
    ended?;
    Ok(n)
}

// The same where a read that fails is taken for the end of the input: how many bytes there are.
pub fn read_full<R: Read>(file: &mut R, room: &mut [u8]) -> usize
    ensures within { result ≤ length room.new }
    ensures bytes { Consumes (R.remaining file.old) (R.remaining file.new) (take result room.new) }
{
    fill(file, room).0
}

// The bytes of the file with this name. A name that is not UTF-8 opens no file: std takes a name as text.
pub fn read_file<F: Files>(files: &F, name: &[u8], room: &mut [u8]) -> io::Result<usize>
    ensures { ReadInto room.old room.new result }
{
    let Ok(path) = str::from_utf8(name) else {
        return Err(Error::new(ErrorKind::InvalidFilename, "File name is not UTF-8"));
    };
    read_all(&mut fs::open(files, path)?, room)
}

// How many bytes argument i has, put in front; none of one that is missing or that there is no room for.
pub fn argument<E: Env>(env: &E, i: usize, room: &mut [u8]) -> usize
    ensures { result ≤ length room.new }
{
    env.arg(i, room).unwrap_or(0)
}

// Whether there is an argument i. One that there is no room for is there too.
pub fn has_argument<E: Env>(env: &E, i: usize) -> bool {
    !matches!(env.arg(i, &mut [0u8; 1]), Err(FillError::NotPresent))
}

// How many arguments there are, the program's name among them.
pub fn argument_count<E: Env>(env: &E) -> usize {
    (0..usize::MAX)
        .find(|&i| !has_argument(env, i))
        .unwrap_or(usize::MAX)
}

// The first n bytes of a buffer, or all where there are fewer.
pub fn first<'a>(room: &'a [u8], n: usize) -> &'a [u8]
    ensures { result.now ≡ take n room.now }
{
    &room[..n.min(room.len())]
}
