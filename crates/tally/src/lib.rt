#![tactic(auto)]
// The tally of a sheet, which advances record by record.
ghost use Rattle.std.specs.Prelude.{◌≡◌};
ghost use Rattle.tally.specs.Tally.{count_of, Room, tally_after, nothing_counted};

use kinds::Section;

// The sections by their numbers, since what is counted is told for each byte: of one that is no section's there is nothing.
const CONDITIONS: u8 = Section::Conditions as u8;

const POINTS: u8 = Section::Points as u8;

const METHODS: u8 = Section::Methods as u8;

const STEPS: u8 = Section::Steps as u8;

const CERTIFICATES: u8 = Section::Certificates as u8;

#[derive(Clone, Copy)]
pub struct Tally {
    pub conditions: usize,
    pub points: usize,
    pub methods: usize,
    pub steps: usize,
    pub certificates: usize,
}

pub fn nothing_counted() -> Tally
    ensures { result ≡ nothing_counted }
{
    Tally {
        conditions: 0,
        points: 0,
        methods: 0,
        steps: 0,
        certificates: 0,
    }
}

impl Tally {
    // How many of a section are counted.
    pub fn count(self, section: u8) -> usize
        ensures { result ≡ count_of self section }
    {
        match section {
            CONDITIONS => self.conditions,
            POINTS => self.points,
            METHODS => self.methods,
            STEPS => self.steps,
            CERTIFICATES => self.certificates,
            _ => 0,
        }
    }

    // The tally with one more of a section.
    pub fn counted(self, section: u8) -> Tally
        requires { Room self section }
        ensures { result ≡ tally_after self section }
    {
        let mut next = self;
        match section {
            CONDITIONS => next.conditions += 1,
            POINTS => next.points += 1,
            METHODS => next.methods += 1,
            STEPS => next.steps += 1,
            CERTIFICATES => next.certificates += 1,
            _ => {}
        }
        next
    }
}

// The same of a tally that is lent: document 01 asks for this form, one thin update of a struct behind `&mut`.
pub fn advance(t: &mut Tally, section: u8)
    requires { Room t.old section }
    ensures { t.new ≡ tally_after t.old section }
{
    *t = t.counted(section);
}

// By value over the lent update, for callers that hold a tally.
pub fn past(t: Tally, section: u8) -> Tally
    requires { Room t section }
    ensures { result ≡ tally_after t section }
{
    let mut next = t;
    advance(&mut next, section);
    next
}
