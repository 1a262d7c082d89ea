#![tactic(auto)]
// Fields of a sheet, low byte first. A byte past the end reads as 0, so each of these is total.
ghost use Rattle.std.specs.Prelude.{◌≡◌, ◌+◌, ◌*◌, ◌≤◌, length};
ghost use Rattle.sheet.specs.Record.{byte_at};
ghost use Rattle.sheet_laws.specs.AtOffset.{short_at, set_at, long_set_at};

// The byte at an offset.
pub fn byte_at(s: &[u8], i: usize) -> u8
    ensures { result ≡ byte_at s.now i }
{
    s.get(i).copied().unwrap_or(0)
}

// Two bytes as a field, and four as a set, the low byte first.
fn short_of(low: u8, high: u8) -> usize
    ensures { result ≡ low + 256 * high }
{
    usize::from(u16::from_le_bytes([low, high]))
}

fn set_of(a: u8, b: u8, c: u8, d: u8) -> u64
    ensures { result ≡ a + 256 * b + 65536 * (c + 256 * d) }
{
    u64::from(u32::from_le_bytes([a, b, c, d]))
}

// The two-byte field at an offset. Where both bytes are there, one test serves them.
pub fn short_at(s: &[u8], i: usize) -> usize
    ensures { result ≡ short_at s.now i }
{
    let Some(rest) = s.get(i..) else {
        return 0;
    };
    match rest {
        [low, high, ..] => short_of(*low, *high),
        _ => usize::from(byte_at(rest, 0)),
    }
}

// The same without a test, for a caller that knows that both bytes are there.
pub fn short_inside(s: &[u8], i: usize) -> usize
    requires { i + 2 ≤ length s.now }
    ensures { result ≡ short_at s.now i }
{
    short_of(s[i], s[i + 1])
}

// The four-byte set at an offset without a test, for a caller that knows that its bytes are there.
pub fn set_inside(s: &[u8], i: usize) -> u64
    requires { i + 4 ≤ length s.now }
    ensures { result ≡ set_at s.now i }
{
    set_of(s[i], s[i + 1], s[i + 2], s[i + 3])
}

// The same at any offset. Where four bytes are there, one test serves them.
pub fn set_at(s: &[u8], i: usize) -> u64
    ensures { result ≡ set_at s.now i }
{
    let Some(rest) = s.get(i..) else {
        return 0;
    };
    match rest {
        [a, b, c, d, ..] => set_of(*a, *b, *c, *d),
        _ => set_of(byte_at(rest, 0), byte_at(rest, 1), byte_at(rest, 2), 0),
    }
}

// The eight-byte set at any offset.
pub fn long_set_at(s: &[u8], i: usize) -> u64
    ensures { result ≡ long_set_at s.now i }
{
    if i < s.len() {
        return set_at(s, i) + 4294967296 * set_at(s, i + 4);
    }
    0
}
