// Whether a call on a channel names a primitive of one outcome and one of the channels 0 to 3: refusal 26.
ghost use Rattle.std.specs.Prelude.{◌≡◌, not, ◌<◌, length};
ghost use Rattle.names.specs.Channels.{plain_kind, wrong_channel_at};

use crate::outcomes::kind_listed;
use fields::{byte_at, short_at};
use kinds::Kind;
use kinds::bytes::{has_two_outcomes, is_primitive};

const CHANNEL_CALL: u8 = Kind::ChannelCall as u8;

const LAST_CHANNEL: u8 = 3;

// The byte is that of the kind of a primitive of one outcome.
fn is_plain(kind: u8) -> bool
    ensures { result ≡ plain_kind kind }
{
    is_primitive(kind) && !has_two_outcomes(kind)
}

// Not 26, of a record of a kind, by its byte, where the methods stand at the offsets of a table.
pub fn channel_fits(s: &[u8], at: usize, kind: u8, methods: &[u32]) -> bool
    requires { at < length s.now }
    ensures { result ≡ not (wrong_channel_at s.now at kind methods.now) }
{
    match kind {
        CHANNEL_CALL => {
            let plain = is_plain(kind_listed(s, methods, short_at(s, at + 5)));
            plain && byte_at(s, at + 7) <= LAST_CHANNEL
        }
        _ => true,
    }
}
