/// A form of the command line. The names of its files are the words in capitals but COUNT, in their order.
#[derive(Clone, Copy, Debug, PartialEq, Eq)]
pub enum Command {
    /// `synth FILE`
    Synth,
    /// `map NETWORK`
    Map,
    /// `map NETWORK PROPOSAL`
    MapFile,
    /// `simv FILE STIM CHOICES`
    Simv,
    /// `simv FILE STIM CHOICES --schedule SCHEDULES`
    SimvBy,
    /// `simn NETLIST STIM`
    Simn,
    /// `lanes NETLIST STIM COUNT`, where COUNT is one or two decimal digits, from 1 to 64.
    Lanes { count: u32 },
    /// `upgrade NETLIST`
    Upgrade,
}
