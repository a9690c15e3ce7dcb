ghost use Rattle.std.specs.Prelude.{◌≡◌, ◌≤◌, length, IfOk};
ghost use Rattle.lz_base.specs.Answers.{Answers, IfFault};
ghost use Rattle.lz_base.specs.Limits.{text_limit};
ghost use Rattle.g_net.specs.Network.{IsWellFormed, NetworkValue};
ghost use Rattle.g_text.specs.Answers.{IsRefusal, IsTextOf};
ghost use Rattle.g_text.specs.Form.{HasForm};
ghost use Rattle.g_text.specs.Text.{text};

use crate::making::make;
use crate::raw_reading::read_raw;
use crate::references::judge;
use g_net::Network;
use lz_base::{Rule, Stop};
use std::alloc::Global;

/// The network whose text the bytes are. It may have equal gates.
///
/// The fault G1 comes exactly where the bytes do not have the lines and fields of such a text, and its place is the
/// length of the longest prefix with which one begins. The fault G2 comes exactly where they have, and a literal is of a
/// node that is not there, or for a gate not before its own, or a name of the clock, an input or an output stands twice
/// among these; its place is the least byte of such a literal, or of such a name where it stands again.
pub fn read(alloc: Global, bytes: &[u8]) -> Result<Network, Stop>
    requires { length bytes.now ≤ text_limit }
    ensures found { IfOk result (λ n. bytes.now ≡ text n) }
    ensures text { IfOk result (IsTextOf bytes.now) }
    ensures formed { IfOk result IsWellFormed }
    ensures only { (n : NetworkValue) → HasForm n → IsWellFormed n → bytes.now ≡ text n → Answers (λ r. r) result n }
    ensures fault { IfFault result (IsRefusal bytes.now) }
{
    let raw = match read_raw(alloc, bytes) {
        Ok(raw) => raw,
        Err(unread) => return Err(unread.stop(bytes.len(), Rule::G1)),
    };
    judge(alloc, raw.parts())?;
    Ok(make(alloc, raw)?)
}
