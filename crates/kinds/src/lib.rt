#![tactic(auto)]
// The kinds of records and the sections by name, and what reading asks of a kind: its section, and what it is to an open condition or certificate.
ghost use Rattle.std.specs.Prelude.{◌≡◌, ltb};
ghost use Rattle.sheet.specs.Kind.{kind_of, section_of};
ghost use Rattle.sheet.specs.Reading.{in_condition};
ghost use Rattle.kinds.specs.Kinds.{counts_one, takes_items, leaf_kind, primitive_kind, body_kind, two_outcome_kind};
ghost use Rattle.kinds.specs.Numbers.{kind_number, section_number};

pub mod bytes; // bytes.rt: tests of a byte that may stand for no kind
pub mod lengths; // lengths.rt: the length of a body

// The sections in their order, each called by what is counted in it.
#[derive(Clone, Copy, PartialEq, Eq, PartialOrd, Ord)]
pub enum Section {
    Conditions = 1,
    Points = 2,
    Methods = 3,
    Steps = 4,
    Certificates = 5,
}

impl Section {
    // The number that documents give the section.
    pub fn number(self) -> u8
        ensures { result ≡ section_number self }
    {
        self as u8
    }

    // The section stands before another one in a sheet. By their numbers: order as it is derived reads a table, which takes longer.
    pub fn is_before(self, other: Section) -> bool
        ensures { result ≡ ltb (section_number self) (section_number other) }
    {
        self.number() < other.number()
    }
}

// The kinds, each with the byte that stands for it.
#[derive(Clone, Copy, PartialEq, Eq)]
pub enum Kind {
    Leaf = 1,
    Empty = 2,
    Join = 3,
    Either = 4,
    Star = 5,
    ConditionEnd = 6,
    Point = 7,
    Primitive = 8,
    WithBody = 9,
    Event = 10,
    Call = 11,
    Pass = 12,
    Pair = 13,
    CertificateEnd = 14,
    TwoOutcomePrimitive = 15,
    TwoOutcomeBody = 16,
    TwoOutcomeCall = 17,
    Edition = 18,
    Stop = 19,
    OwnedPoint = 20,
    LongLeaf = 21,
    ChannelCall = 22,
}

// A byte that stands for no kind.
#[derive(Clone, Copy, PartialEq, Eq)]
pub struct UnknownKind(pub u8);

impl TryFrom<u8> for Kind {
    ghost use Rattle.kinds.specs.Numbers.{Reads};

    type Error = UnknownKind;

    ghost try_from_gives = { Reads };

    fn try_from(byte: u8) -> Result<Self, UnknownKind> {
        match byte {
            1 => Ok(Kind::Leaf),
            2 => Ok(Kind::Empty),
            3 => Ok(Kind::Join),
            4 => Ok(Kind::Either),
            5 => Ok(Kind::Star),
            6 => Ok(Kind::ConditionEnd),
            7 => Ok(Kind::Point),
            8 => Ok(Kind::Primitive),
            9 => Ok(Kind::WithBody),
            10 => Ok(Kind::Event),
            11 => Ok(Kind::Call),
            12 => Ok(Kind::Pass),
            13 => Ok(Kind::Pair),
            14 => Ok(Kind::CertificateEnd),
            15 => Ok(Kind::TwoOutcomePrimitive),
            16 => Ok(Kind::TwoOutcomeBody),
            17 => Ok(Kind::TwoOutcomeCall),
            18 => Ok(Kind::Edition),
            19 => Ok(Kind::Stop),
            20 => Ok(Kind::OwnedPoint),
            21 => Ok(Kind::LongLeaf),
            22 => Ok(Kind::ChannelCall),
            _ => Err(UnknownKind(byte)),
        }
    }
}

impl Kind {
    pub fn section(self) -> Section
        ensures { section_number result ≡ section_of (kind_number self) }
    {
        match self {
            Kind::Leaf | Kind::Empty | Kind::Join | Kind::Either | Kind::Star => {
                Section::Conditions
            }
            Kind::ConditionEnd | Kind::Edition | Kind::LongLeaf => Section::Conditions,
            Kind::Point | Kind::OwnedPoint => Section::Points,
            Kind::Primitive | Kind::WithBody => Section::Methods,
            Kind::TwoOutcomePrimitive | Kind::TwoOutcomeBody => Section::Methods,
            Kind::Event | Kind::Pass | Kind::Stop => Section::Steps,
            Kind::Call | Kind::TwoOutcomeCall | Kind::ChannelCall => Section::Steps,
            Kind::Pair | Kind::CertificateEnd => Section::Certificates,
        }
    }

    // A record of the kind may stand in a condition: it is a symbol or its end.
    pub fn in_condition(self) -> bool
        ensures { result ≡ in_condition (section_of (kind_number self)) (kind_of (kind_number self)).role }
    {
        self.section() == Section::Conditions && self != Kind::Edition
    }

    // A record of the kind is one of its section, whole or at its end: no symbol of a condition, no pair, and no mark of the edition.
    pub fn counts(self) -> bool
        ensures { result ≡ counts_one (kind_of (kind_number self)).role }
    {
        match self {
            Kind::Leaf | Kind::Empty | Kind::Join | Kind::Either | Kind::Star => false,
            Kind::Pair | Kind::Edition | Kind::LongLeaf => false,
            _ => true,
        }
    }

    // How many items of a condition a record of the kind takes: JOIN and EITHER two, STAR one.
    pub fn items_taken(self) -> usize
        ensures { result ≡ takes_items (kind_of (kind_number self)).role }
    {
        match self {
            Kind::Join | Kind::Either => 2,
            Kind::Star => 1,
            _ => 0,
        }
    }

    pub fn is_leaf(self) -> bool
        ensures { result ≡ leaf_kind (kind_number self) }
    {
        matches!(self, Kind::Leaf | Kind::LongLeaf)
    }

    pub fn is_primitive(self) -> bool
        ensures { result ≡ primitive_kind (kind_number self) }
    {
        matches!(self, Kind::Primitive | Kind::TwoOutcomePrimitive)
    }

    // The kind is that of a method with body.
    pub fn has_body(self) -> bool
        ensures { result ≡ body_kind (kind_number self) }
    {
        matches!(self, Kind::WithBody | Kind::TwoOutcomeBody)
    }

    // A method of the kind can fail.
    pub fn has_two_outcomes(self) -> bool
        ensures { result ≡ two_outcome_kind (kind_number self) }
    {
        matches!(self, Kind::TwoOutcomePrimitive | Kind::TwoOutcomeBody)
    }
}
