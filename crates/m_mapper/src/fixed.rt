ghost use Rattle.std.specs.Prelude.{◌≡◌, IfOk};

use crate::Mapper;
use g_net::{Leaves, Line, Network, Proposal};
use lz_base::{Items, OutOfMemory};
use std::alloc::Global;
use std::marker::Model;

/// Answers a copy of the proposal that it was given, whatever the network. Contracts see it as that proposal.
#[derive(Drop)]
pub struct FixedMapper {
    alloc: Global,
    answer: Proposal,
}

impl Model for FixedMapper {
    ghost use Rattle.g_net.specs.declared.proposal.Proposal.{Proposal};

    ghost Value = { Proposal };

    ghost view = { λ m. m.answer };
}

impl FixedMapper {
    /// A mapper with this one answer.
    pub fn new(alloc: Global, answer: Proposal) -> FixedMapper
        ensures { result ≡ answer }
    {
        FixedMapper { alloc, answer }
    }
}

// A copy of a line.
fn copied_line(alloc: Global, line: &Line) -> Result<Line, OutOfMemory>
    ensures { IfOk result (λ l. l ≡ line.now) }
{
    let leaves = Leaves::from_slice(alloc, line.leaves.as_slice())?;
    Ok(Line {
        root: line.root,
        leaves,
        table: line.table,
    })
}

// A copy of lines.
fn copied_lines(alloc: Global, lines: &[Line]) -> Result<Items<Line>, OutOfMemory>
    ensures { IfOk result (λ copies. copies ≡ lines.now) }
{
    let mut copies = Items::new(alloc);
    for line in lines {
        copies.push(copied_line(alloc, line)?)?;
    }
    Ok(copies)
}

impl Mapper for FixedMapper {
    ghost use Rattle.std.specs.Prelude.{◌≡◌};

    ghost may_answer = { λ m _ _ p. p ≡ m };

    fn propose(&self, _network: &Network, _k: u32) -> Result<Proposal, OutOfMemory> {
        Ok(Proposal {
            lines: copied_lines(self.alloc, self.answer.lines.as_slice())?,
        })
    }
}
