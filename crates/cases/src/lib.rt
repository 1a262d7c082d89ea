#![tactic(auto)]
// Cases in a file: a number of bytes, then as many bytes. None where the file ends before a number is whole.
ghost use Rattle.std.specs.Prelude.{◌≡◌, ◌≤◌, length, take};
ghost use Rattle.std.specs.Io.KnownBytes.{Consumes};
ghost use Rattle.sheet.specs.Record.{number_at};
ghost use Rattle.cases.specs.Bounds.{AtMost, Reads, ReadsSheet};

use fields::short_at;
use input::read_full;
use std::io::Read;

// The number in the first two bytes, low byte first.
fn first_short(bytes: &[u8]) -> usize
    ensures upper_bound { result ≤ 65535 }
    ensures value { result ≡ number_at bytes.now 2 0 }
{
    short_at(bytes, 0)
}

// The number in the next two bytes.
pub fn next_short<R: Read>(file: &mut R) -> Option<usize>
    ensures at_most { AtMost 65535 result }
    ensures bytes { Reads 2 (R.remaining file.old) (R.remaining file.new) result }
{
    let mut bytes = [0u8; 2];
    let n = read_full(file, &mut bytes);
    if n < bytes.len() {
        return None;
    }
    Some(first_short(&bytes))
}

// The number in the next four bytes.
pub fn next_number<R: Read>(file: &mut R) -> Option<usize>
    ensures at_most { AtMost 4294967295 result }
    ensures bytes { Reads 4 (R.remaining file.old) (R.remaining file.new) result }
{
    let low = next_short(file)?;
    let high = next_short(file)?;
    Some(low + 65536 * high)
}

// The next n bytes, as many as there is room for and as there are; how many they are.
pub fn next_bytes<R: Read>(file: &mut R, n: usize, room: &mut [u8]) -> usize
    ensures upper_bound { result ≤ n }
    ensures upper_bound_2 { result ≤ length room.old }
    ensures room_len_unchanged { length room.new ≡ length room.old }
    ensures bytes { Consumes (R.remaining file.old) (R.remaining file.new) (take result room.new) }
{
    if room.len() < n {
        return 0;
    }
    read_full(file, &mut room[..n])
}

// The next sheet: a number of four bytes and as many bytes; how many they are.
pub fn next_sheet<R: Read>(file: &mut R, room: &mut [u8]) -> Option<usize>
    ensures at_most { AtMost (length room.old) result }
    ensures room_len_unchanged { length room.new ≡ length room.old }
    ensures bytes { ReadsSheet (R.remaining file.old) (R.remaining file.new) room.new result }
{
    let size = next_number(file)?;
    Some(next_bytes(file, size, room))
}
