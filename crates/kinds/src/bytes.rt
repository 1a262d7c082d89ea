// What is asked of a byte where a kind may stand, as that of a method in a table of offsets: of a byte that stands for no kind the tests are false, and it
// takes no items.
ghost use Rattle.std.specs.Prelude.{◌≡◌};
ghost use Rattle.sheet.specs.Kind.{kind_of};
ghost use Rattle.kinds.specs.Kinds.{takes_items, primitive_kind, two_outcome_kind};

use crate::Kind;

pub fn is_primitive(byte: u8) -> bool
    ensures { result ≡ primitive_kind byte }
{
    let Ok(kind) = Kind::try_from(byte) else {
        return false;
    };
    kind.is_primitive()
}

pub fn has_two_outcomes(byte: u8) -> bool
    ensures { result ≡ two_outcome_kind byte }
{
    let Ok(kind) = Kind::try_from(byte) else {
        return false;
    };
    kind.has_two_outcomes()
}

pub fn items_taken(byte: u8) -> usize
    ensures { result ≡ takes_items (kind_of byte).role }
{
    let Ok(kind) = Kind::try_from(byte) else {
        return 0;
    };
    kind.items_taken()
}
