ghost use Rattle.std.specs.Prelude.{◌≡◌, ◌<◌, ◌≤◌, ◌||◌, length, List, ℕ, [], IfNone};
ghost use Rattle.std.specs.List.{All};
ghost use Rattle.m_valid.specs.Nodes.{is_source, node_at};
ghost use Rattle.m_valid.specs.Validity as validity;
ghost use Rattle.m_valid.specs.Validity.{first_broken, increase, is_among, leaves_hold, may_be_leaves, roots_of};
ghost use Rattle.m_valid.specs.Walk.{IsReady, Tells};

use crate::flags::{has_flag, set_flag};
use crate::nodes::{Node, is_source, node_at};
use g_net::Line;
use lz_base::Num;

// Whether leaves strictly increase and are smaller than the root.
fn increase(leaves: &[Num], root: Num) -> bool
    ensures { result ≡ increase 0 leaves.now root }
{
    let mut least = 0;
    for leaf in leaves {
        if *leaf < least {
            return false;
        }
        if root <= *leaf {
            return false;
        }
        least = *leaf + 1;
    }
    least <= root
}

// Whether a leaf is an input, a flip-flop, a node of a carry gate, or a root that is flagged.
fn may_be_leaf(nodes: &[Node], roots: &[bool], leaf: Num) -> bool
    ensures { (before : List ℕ) → Tells roots.now before → result ≡ (is_source (node_at nodes.now leaf) || is_among leaf before) }
{
    let rooted = has_flag(roots, leaf);
    is_source(node_at(nodes, leaf)) || rooted
}

// Whether each leaf is an input, a flip-flop, a node of a carry gate, or a root that is flagged.
fn may_be_leaves(nodes: &[Node], roots: &[bool], leaves: &[Num]) -> bool
    ensures { (before : List ℕ) → Tells roots.now before → result ≡ may_be_leaves nodes.now before leaves.now }
{
    for leaf in leaves {
        if !may_be_leaf(nodes, roots, *leaf) {
            return false;
        }
    }
    true
}

// Whether a line has leaves that it may have.
fn has_leaves(nodes: &[Node], roots: &[bool], line: &Line, most: u32) -> bool
    ensures { (before : List ℕ) → Tells roots.now before → result ≡ validity.has_leaves nodes.now most before line.now }
{
    let leaves = line.leaves.as_slice();
    let allowed = may_be_leaves(nodes, roots, leaves);
    leaves.len() <= most as usize && increase(leaves, line.root) && allowed
}

/// The first line that has too many leaves, or leaves that it may not have. Where there is none, the roots of all lines
/// are flagged.
pub fn wrong_leaves(nodes: &[Node], roots: &mut [bool], lines: &[Line], most: u32) -> Option<Num>
    requires few { most ≤ 6 }
    requires flagged { length roots.old ≡ length nodes.now }
    requires there { All (λ l. l.root < length nodes.now) lines.now }
    requires none { Tells roots.old [] }
    ensures first { result ≡ first_broken 1 (leaves_hold nodes.now most [] lines.now) }
    ensures roots { IfNone result (Tells roots.new (roots_of lines.now)) }
    ensures ready { IfNone result (All (IsReady (length nodes.now)) lines.now) }
{
    for (i, line) in lines.iter().enumerate() {
        if !has_leaves(nodes, roots, line, most) {
            return Some(i as Num + 1);
        }
        set_flag(roots, line.root as usize);
    }
    None
}
