/// A format of a netlist's text. Format 1 has no enables, and at most four leaves in a look-up table. Format 2 has both
/// as netlists have them.
#[derive(Clone, Copy, Debug, PartialEq, Eq)]
pub enum Format {
    One,
    Two,
}
