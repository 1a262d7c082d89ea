#![tactic(auto)]
// The tables of offsets whose size is the same on each instrument: where the conditions, the methods and the steps of a sheet stand, by their numbers. The
// table of points stands beside them, since its size is the instrument's.

// An offset has four bytes.
#[derive(Clone, Copy)]
pub struct Offsets {
    pub conditions: [u32; 256],
    pub methods: [u32; 64],
    pub steps: [u32; 512],
}

impl Offsets {
    // The tables before a sheet is read.
    pub const EMPTY: Offsets = Offsets {
        conditions: [0; 256],
        methods: [0; 64],
        steps: [0; 512],
    };
}
