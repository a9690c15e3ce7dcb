ghost use Rattle.std.specs.Prelude.{◌≡◌, ◌<◌, ◌≤◌, ◌+◌, ◌*◌, ◌++◌, ℕ, List, Bool, false, not, Some, length, slice_get, slice_index_or};
ghost use Rattle.lz_base.specs.Bits.{words_bits};
ghost use Rattle.lz_base.specs.Ports.{FitPorts};
ghost use Rattle.lz_base.specs.WordValue.{WordValue};
ghost use Rattle.lz_machine.specs.Machine.{Lasts};
ghost use Rattle.g_net.specs.declared.network.Gate.{Gate};
ghost use Rattle.g_net.specs.AsMachine.{network_machine, NetworkDoes};
ghost use Rattle.g_net.specs.Grown.{Grows, KeepsValues, StandsAt};
ghost use Rattle.g_net.specs.Network.{NetworkValue, IsWellFormed, node_count, source_bits, nodes_of};
ghost use Rattle.lz_circuit.specs.Values.{value_at};
ghost use Rattle.g_net.specs.Run.{IsValuation, literal_value, shown, next_state, first_state};
ghost use Rattle.g_net.specs.Walk.{values_of, node_of};

/// Law: a well-formed network has at most one valuation for the words at its inputs and the bits in its flip-flops.
pub fn one_valuation()
    ensures { (n : NetworkValue) (inputs : List WordValue) (state a b : List Bool) → IsWellFormed n → IsValuation n inputs state a → IsValuation n inputs state b → a ≡ b }
{}

/// Law: a well-formed network has a valuation for words that fit its inputs and a bit for each flip-flop: the values
/// that come out node after node.
pub fn node_after_node()
    ensures bits { (n : NetworkValue) (inputs : List WordValue) (state : List Bool) → FitPorts n.inputs inputs → length state ≡ length n.flips → length (words_bits inputs ++ state) ≡ source_bits n }
    ensures valued { (n : NetworkValue) (inputs : List WordValue) (state : List Bool) → IsWellFormed n → FitPorts n.inputs inputs → length state ≡ length n.flips → IsValuation n inputs state (values_of n (words_bits inputs ++ state)) }
{}

/// Law: among the values that come out node after node, node 0 is the constant 0, and behind it come the bits of the
/// inputs and the flip-flops. There is a value for each node.
pub fn sources_first()
    ensures constant { (n : NetworkValue) (sources : List Bool) → value_at (values_of n sources) 0 ≡ false }
    ensures source { (n : NetworkValue) (sources : List Bool) (k : ℕ) → k < length sources → value_at (values_of n sources) (k + 1) ≡ slice_index_or sources k false }
    ensures count { (n : NetworkValue) (sources : List Bool) → length sources ≡ source_bits n → length (values_of n sources) ≡ node_count n }
{}

/// Law: a node has two literals, of which the even one has its value and the odd one the inverse.
pub fn two_literals()
    ensures even { (values : List Bool) (node : ℕ) → literal_value values (2 * node) ≡ value_at values node }
    ensures odd { (values : List Bool) (node : ℕ) → literal_value values (2 * node + 1) ≡ not (value_at values node) }
{}

/// Law: each gate of a well-formed network stands at its node, which is there.
pub fn gates_stand()
    ensures stands { (n : NetworkValue) (index : ℕ) (gate : Gate) → IsWellFormed n → slice_get n.gates index ≡ Some gate → StandsAt n (node_of n index) gate }
    ensures there { (n : NetworkValue) (index : ℕ) (gate : Gate) → slice_get n.gates index ≡ Some gate → node_of n index + nodes_of gate ≤ node_count n }
{}

/// Law: where gates come behind, no literal that was there has another value, and gates stay where they stand. What has
/// grown twice has grown.
pub fn values_stay()
    ensures longer { (old new : NetworkValue) → Grows old new → node_count old ≤ node_count new }
    ensures keeps { (old new : NetworkValue) → Grows old new → KeepsValues old new }
    ensures stands { (old new : NetworkValue) (index : ℕ) (gate : Gate) → Grows old new → slice_get old.gates index ≡ Some gate → (slice_get new.gates index ≡ Some gate) × (node_of new index ≡ node_of old index) }
    ensures itself { (n : NetworkValue) → Grows n n }
    ensures further { (a b c : NetworkValue) → Grows a b → Grows b c → Grows a c }
{}

/// Law: as a machine, a well-formed network begins with the first bits of its flip-flops, which are as many as these,
/// and never stops.
pub fn machine_lasts()
    ensures begins { (n : NetworkValue) → length (first_state n) ≡ length n.flips }
    ensures lasts { (n : NetworkValue) (state : List Bool) (cycles : ℕ) → IsWellFormed n → length state ≡ length n.flips → Lasts (network_machine n) cycles state }
{}

/// Law: in a cycle a well-formed network does one thing, that of the values that come out node after node. It has a bit
/// for each flip-flop afterwards.
pub fn machine_step()
    ensures does { (n : NetworkValue) (inputs : List WordValue) (state : List Bool) → IsWellFormed n → FitPorts n.inputs inputs → length state ≡ length n.flips → NetworkDoes n state inputs (shown n (values_of n (words_bits inputs ++ state))) (next_state n state (values_of n (words_bits inputs ++ state))) }
    ensures alone { (n : NetworkValue) (inputs outputs : List WordValue) (state after : List Bool) → IsWellFormed n → FitPorts n.inputs inputs → length state ≡ length n.flips → NetworkDoes n state inputs outputs after → (outputs ≡ shown n (values_of n (words_bits inputs ++ state))) × (after ≡ next_state n state (values_of n (words_bits inputs ++ state))) }
    ensures bits { (n : NetworkValue) (state values : List Bool) → length state ≡ length n.flips → length (next_state n state values) ≡ length n.flips }
{}
