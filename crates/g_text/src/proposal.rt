ghost use Rattle.std.specs.Prelude.{◌≡◌, ◌≤◌, ◌++◌, [], List, length, flat_map, IfOk, OnOk};
ghost use Rattle.lz_base.specs.Limits.{text_limit};
ghost use Rattle.lz_lines.specs.Fields.{AllUpTo, Each, greatest};
ghost use Rattle.lz_lines.specs.Forms.{Anything, Nothing, Obtains};
ghost use Rattle.g_net.specs.declared.proposal.Line.{Line};
ghost use Rattle.g_text.specs.Luts.{IsNextLut, Tail, head_word};
ghost use Rattle.g_text.specs.Proposals.{Gives, HasTable, IsLut, IsProposal, TellsWhere, lut_line, proposal_text};

use g_net::{Leaves, Line, Proposal};
use lz_base::{Items, Num, OutOfMemory};
use lz_lines::{
    Keyword, Unread, end_line, push_line_end, push_number, push_table, read_end, read_key,
    read_number, read_table, read_word,
};
use std::alloc::Global;
use thiserror::Error;

/// Why bytes were not read as a proposal.
#[derive(Clone, Copy, Debug, PartialEq, Eq, Error)]
pub enum ProposalEnd {
    /// They are the text of no proposal. The place is the length of the longest prefix with which one begins.
    #[error("unreadable at {at}")]
    Unreadable { at: u64 },
    #[error("out of memory")]
    OutOfMemory,
}

/// The word that begins a line.
#[derive(Clone, Copy)]
pub(crate) enum Head {
    Lut,
    End,
}

impl Keyword for Head {
    ghost use Rattle.g_text.specs.Luts.{head_word};

    ghost spelled = { head_word };

    fn word(self) -> &'static [u8] {
        match self {
            Head::Lut => b"lut",
            Head::End => b"end",
        }
    }
}

// Takes what stands behind the word of a line.
fn read_lut<'a>(
    alloc: Global,
    bytes: &'a [u8],
    leaves: &mut Vec<Num>,
) -> Result<(Option<Line>, &'a [u8]), Unread>
    ensures { Obtains (Tail Head.Lut) Anything (λ r. r.0) (λ r. r.1.now) bytes.now result }
{
    let (root, rest) = read_number(bytes, 0, u128::MAX)?;
    let (table, rest) = read_table(rest, 6, leaves)?;
    let leaves = Leaves::from_slice(alloc, leaves)?;
    let line = Line {
        root,
        leaves,
        table,
    };
    end_line(Some(line), rest)
}

// Takes what stands behind the word that begins a line.
fn read_tail<'a>(
    alloc: Global,
    bytes: &'a [u8],
    head: Head,
    leaves: &mut Vec<Num>,
) -> Result<(Option<Line>, &'a [u8]), Unread>
    ensures { Obtains (Tail head) Anything (λ r. r.0) (λ r. r.1.now) bytes.now result }
{
    match head {
        Head::Lut => read_lut(alloc, bytes, leaves),
        Head::End => end_line(None, bytes),
    }
}

// Takes a line, or the last one, for which it gives none. The vector is room for its leaves.
fn read_line<'a>(
    alloc: Global,
    bytes: &'a [u8],
    leaves: &mut Vec<Num>,
) -> Result<(Option<Line>, &'a [u8]), Unread>
    ensures { Obtains IsNextLut Anything (λ r. r.0) (λ r. r.1.now) bytes.now result }
{
    let (head, rest) = read_key(bytes, &[Head::Lut], Head::End)?;
    read_tail(alloc, rest, head, leaves)
}

// The lines of a proposal's text.
fn read_lines(alloc: Global, bytes: &[u8]) -> Result<Items<Line>, Unread>
    ensures { Obtains IsProposal Nothing (λ r. r) (λ _. []) bytes.now result }
{
    let mut left = read_word(bytes, b"proposal 1\n")?;
    let mut leaves = Vec::new(alloc);
    let mut lines = Items::new(alloc);
    'lines: loop {
        let (line, rest) = read_line(alloc, left, &mut leaves)?;
        let Some(line) = line else {
            read_end(rest)?;
            return Ok(lines);
        };
        lines.push(line)?;
        left = rest;
    }
}

/// The proposal whose text the bytes are. Whether its numbers are those of nodes and its tables are right is not judged.
///
/// `Unreadable` comes exactly where the bytes are the text of no proposal.
pub fn read_proposal(alloc: Global, bytes: &[u8]) -> Result<Proposal, ProposalEnd>
    requires { length bytes.now ≤ text_limit }
    ensures found { IfOk result (λ p. IsProposal p.lines bytes.now) }
    ensures only { (lines : List Line) → IsProposal lines bytes.now → Gives result lines }
    ensures place { TellsWhere result bytes.now }
{
    match read_lines(alloc, bytes) {
        Ok(lines) => Ok(Proposal { lines }),
        Err(Unread::Broken(broken)) => Err(ProposalEnd::Unreadable {
            at: (bytes.len() - broken.left) as u64,
        }),
        Err(Unread::OutOfMemory) => Err(ProposalEnd::OutOfMemory),
    }
}

fn push_lut(out: &mut Vec<u8>, line: &Line) -> Result<(), OutOfMemory>
    requires { HasTable line.now }
    ensures text { OnOk result (out.new.items ≡ out.old.items ++ lut_line line.now) }
    ensures fields { OnOk result (IsLut line.now) }
{
    out.extend_from_slice(b"lut")?;
    push_number(out, line.root)?;
    push_table(out, line.leaves.as_slice(), line.table)?;
    push_line_end(out)
}

fn push_luts(out: &mut Vec<u8>, lines: &[Line]) -> Result<(), OutOfMemory>
    requires { Each HasTable lines.now }
    ensures text { OnOk result (out.new.items ≡ out.old.items ++ flat_map lut_line lines.now) }
    ensures fields { OnOk result (Each IsLut lines.now) }
{
    for line in lines {
        push_lut(out, line)?;
    }
    Ok(())
}

/// The one text of a proposal of which each line has at most six leaves and a table over them. `read_proposal` reads it
/// back.
pub fn print_proposal(alloc: Global, proposal: &Proposal) -> Result<Vec<u8>, OutOfMemory>
    requires { Each HasTable proposal.now.lines }
    ensures { IfOk result (λ v. IsProposal proposal.now.lines v.items) }
{
    let mut out = Vec::new(alloc);
    out.extend_from_slice(b"proposal 1\n")?;
    push_luts(&mut out, proposal.lines.as_slice())?;
    out.extend_from_slice(b"end\n")?;
    Ok(out)
}
