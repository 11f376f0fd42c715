// What a transmission is made of.
use ladder::types::Rung;

// One data frame of a transmission, as the receiving station saw it: the rung that it was read at, or sent at where it was never detected; whether it was
// detected at all; whether this copy delivered it, alone or combined with copies held; the data bytes that a frame at its rung carries; and its air in
// seconds, which a frame never detected took all the same.
#[derive(Clone, Copy, PartialEq, Debug)]
pub struct Frame {
    pub rung: Rung,
    pub detected: bool,
    pub decoded: bool,
    pub combined: bool,
    pub capacity: u32,
    pub air: f64,
}
