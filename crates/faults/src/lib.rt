#![tactic(auto)]
// What the test of a rule finds, as values.
ghost use Rattle.std.specs.Prelude.{◌≡◌};
ghost use Rattle.certificate.specs.Certificate.{found, fault};
ghost use Rattle.faults.specs.Fault.{fault_of};

// A fault of a rule's test: the clause that fails, and the pair, the event and the place at which it does.
#[derive(Clone, Copy)]
pub struct Fault {
    pub clause: usize,
    pub pair: usize,
    pub event: usize,
    pub place: usize,
}

// A fault without event and place, as clauses 1, 2, 3 and 5 give it. A clause has no name but its number, which answers print, so an enum would only be
// turned into the number.
pub fn fault_of(clause: usize, pair: usize) -> Fault
    ensures { found (fault_of result) ≡ fault clause pair 0 0 }
{
    Fault {
        clause,
        pair,
        event: 0,
        place: 0,
    }
}
