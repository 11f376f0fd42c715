// The moving parts of a controller, and the prices that are set.
use ladder::types::{Place, Rung, Table};
use limits::reading::Reading;

// A rung's measured delivery, decayed: data bytes delivered, seconds of air spent, frames sent. Each copy of a frame spends its air, one never detected
// too.
#[derive(Clone, Copy, PartialEq, Debug)]
pub struct Account {
    pub bytes: f64,
    pub air: f64,
    pub frames: f64,
}

// A try: its rung, the calls that it has counted, and its own frames.
#[derive(Clone, Copy, PartialEq, Eq, Debug)]
pub struct Try {
    pub rung: Rung,
    pub calls: u32,
    pub frames: u32,
}

// Whether this station's own and the other's control frames go on the floor.
// (Bools: document 01 asks of a rung whether it is floor, and its file has a family as 1 floor, 0 ordinary; so have the source's call, C's and the
// definitions of the rules. An enum of the two families would be turned into a bool in each contract.)
#[derive(Clone, Copy, PartialEq, Eq, Debug)]
pub struct Families {
    pub own_floor: bool,
    pub other_floor: bool,
}

// What an exchange takes: control lengths by family, the gap, and burst counts by rung, of which the first `counted` are given. (Document 01 has "32-entry
// arrays with a count" for the source's vectors; the library has no heap.)
#[derive(Clone, Copy, PartialEq, Debug)]
pub struct Tariff {
    pub floor: f64,
    pub ordinary: f64,
    pub gap: f64,
    pub bursts: [u32; 32],
    pub counted: u32,
}

// The prices and the families last set; by default none.
#[derive(Clone, Copy, Default, PartialEq, Debug)]
pub struct Prices {
    pub tariff: Option<Tariff>,
    pub families: Option<Families>,
}

// What a controller's rungs are rated by beside its state, and no step moves: its table and the prices set, both lent. (What needs no price takes the
// table alone, as `t`; why the state goes beside is said in the root of crate steps.)
#[derive(Clone, Copy)]
pub struct Terms<'a> {
    pub table: &'a Table,
    pub prices: &'a Prices,
}

// How far each family's rungs are read under the SNR, in dB.
#[derive(Clone, Copy, PartialEq, Debug)]
pub struct Offsets {
    pub floor: f64,
    pub ofdm: f64,
}

// What the calls move outside the arrays: the running try, the smoothed SNR and echo, the choice as a place on the front, the offsets, whether the last
// OFDM frames all failed, and the clean mark: the rung whose frames of the last transmission were each decoded alone.
#[derive(Clone, Copy, PartialEq, Debug)]
pub struct Core {
    pub trying: Option<Try>,
    pub snr: Reading,
    pub echo: Reading,
    pub place: Place,
    pub offsets: Offsets,
    pub failed: bool,
    pub clean: Option<Rung>,
}

// What the calls move. By rung: accounts, seconds of air since its last try, and its wait in full transmissions; and all that is no array.
// (An array each, and not one of structs: document 01 has the accounts "kept in an array by rung". A frame is booked on that array alone, `book_frame`,
// which is lent it and so need promise nothing of times and waits.)
#[derive(Clone, Copy, PartialEq, Debug)]
pub struct State {
    pub accounts: [Account; 32],
    pub since: [f64; 32],
    pub wait: [u32; 32],
    pub core: Core,
}
