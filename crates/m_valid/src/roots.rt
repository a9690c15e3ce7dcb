ghost use Rattle.std.specs.Prelude.{◌≡◌, ◌<◌, ◌^◌, ◌&&◌, nat_le, length, IfNone, IsTrue};
ghost use Rattle.std.specs.List.{All};
ghost use Rattle.m_valid.specs.Nodes.{is_gate, node_at};
ghost use Rattle.m_valid.specs.Validity.{first_broken, roots_hold};

use crate::nodes::{Node, is_gate, node_at};
use g_net::Line;
use lz_base::Num;

// Whether a number is that of an `and` or `xor` node, and at least so much.
fn is_root(nodes: &[Node], least: Num, root: Num) -> bool
    ensures root { result ≡ (nat_le least root && is_gate (node_at nodes.now root)) }
    ensures there { IsTrue result → root < length nodes.now }
    ensures small { IsTrue result → root < 2 ^ 64 }
{
    least <= root && is_gate(node_at(nodes, root))
}

/// The first line at which roots do not strictly increase or are no `and` or `xor` nodes.
pub fn wrong_root(nodes: &[Node], lines: &[Line]) -> Option<Num>
    ensures first { result ≡ first_broken 1 (roots_hold nodes.now 0 lines.now) }
    ensures there { IfNone result (All (λ l. l.root < length nodes.now) lines.now) }
{
    let mut least = 0;
    for (i, line) in lines.iter().enumerate() {
        if !is_root(nodes, least, line.root) {
            return Some(i as Num + 1);
        }
        least = line.root + 1;
    }
    None
}
