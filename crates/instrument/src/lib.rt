#![tactic(auto)]
// The instruments that sheets are loaded on, and what each takes.
ghost use Rattle.std.specs.Prelude.{◌≡◌};
ghost use Rattle.instrument.specs.Model.{limits_of, Names};

// The large two-channel instrument, which is document 01's, the entry instrument, which is request 8's, and the four-channel instrument, which is
// request 11's.
#[derive(Clone, Copy, Debug, PartialEq, Eq)]
pub enum Instrument {
    Large,
    Entry,
    Four,
}

// A number that is no instrument's.
#[derive(Clone, Copy, Debug, PartialEq, Eq)]
pub struct UnknownInstrument(pub usize);

// What an instrument takes: how many bytes, points and events, and the highest kind of record. That is a byte and no kind by name: reading compares it
// with bytes that stand for no kind, too.
#[derive(Clone, Copy)]
pub struct Limits {
    pub bytes: usize,
    pub points: usize,
    pub events: usize,
    pub kinds: u8,
}

pub fn limits_of(instrument: Instrument) -> Limits
    ensures { result ≡ limits_of instrument }
{
    match instrument {
        Instrument::Large => Limits {
            bytes: 65536,
            points: 512,
            events: 32,
            kinds: 20,
        },
        Instrument::Entry => Limits {
            bytes: 8192,
            points: 64,
            events: 32,
            kinds: 20,
        },
        Instrument::Four => Limits {
            bytes: 65536,
            points: 512,
            events: 64,
            kinds: 22,
        },
    }
}

// The instruments by number, for callers in C and Rust; harness/include/sheet_loader.h has the same. 0 is none, so that memory which was only
// cleared names no instrument.
impl TryFrom<usize> for Instrument {
    type Error = UnknownInstrument;

    ghost try_from_gives = { Names };

    fn try_from(number: usize) -> Result<Self, UnknownInstrument> {
        match number {
            1 => Ok(Instrument::Large),
            2 => Ok(Instrument::Entry),
            3 => Ok(Instrument::Four),
            _ => Err(UnknownInstrument(number)),
        }
    }
}
