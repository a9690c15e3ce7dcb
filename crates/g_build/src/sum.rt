ghost use Rattle.std.specs.Prelude.{◌≡◌, ◌≤◌, ◌/◌, List, Bool, IfSome};
ghost use Rattle.std.specs.Bool.{xor};
ghost use Rattle.g_net.specs.Network.{most_nodes};
ghost use Rattle.g_net.specs.Run.{literal_value};
ghost use Rattle.lz_circuit.specs.Values.{value_at};
ghost use Rattle.g_build.specs.Sums.{IsSum, SameSum};

use g_net::two_literals;
use g_rules::{inverse, inverted, inverted_values};
use lz_base::Num;

/// Three literals.
pub type Trio = (Num, Num, Num);

/// The literal of a node, inverted where it is asked.
pub fn literal_of(node: Num, invert: bool) -> Num
    requires { node ≤ most_nodes }
    ensures value { (values : List Bool) → literal_value values result ≡ xor invert (value_at values node) }
    ensures node { result / 2 ≡ node }
{
    two_literals();
    inverted_values();
    inverted(2 * node, invert)
}

// The smaller one of the first two first.
fn first_two(trio: Trio) -> Trio
    ensures { SameSum trio result }
{
    let (a, b, c) = trio;
    if b < a { (b, a, c) } else { (a, b, c) }
}

// The smaller one of the last two first.
fn last_two(trio: Trio) -> Trio
    ensures { SameSum trio result }
{
    let (a, b, c) = trio;
    if c < b { (a, c, b) } else { (a, b, c) }
}

/// The literals in order, the smallest first.
pub fn in_order(trio: Trio) -> Trio
    ensures { SameSum trio result }
{
    first_two(last_two(first_two(trio)))
}

/// The sum and the majority of three literals in order, where no gate is needed for them.
pub fn without_gate(trio: Trio) -> Option<(Num, Num)>
    ensures { IfSome result (IsSum trio) }
{
    let (a, b, c) = trio;
    inverted_values();
    if a == b {
        Some((c, a))
    } else if b == c {
        Some((a, b))
    } else if a == inverse(b) {
        Some((inverse(c), c))
    } else if b == inverse(c) {
        Some((inverse(a), a))
    } else {
        None
    }
}
