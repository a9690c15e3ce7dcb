/// A word some bits of which may be unknown (x) or of high impedance (z): a width, a sign, and three masks (IEEE Std
/// 1364-2005, 3.5.1).
#[derive(Clone, Copy, Debug, PartialEq, Eq)]
pub struct Literal {
    pub width: u32,
    pub signed: bool,
    pub ones: u128,
    pub unknown: u128,
    pub impedance: u128,
}
