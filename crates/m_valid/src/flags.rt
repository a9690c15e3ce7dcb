ghost use Rattle.std.specs.Prelude.{◌≡◌, ℕ, ◌<◌, ◌++◌, ◌∷◌, [], List, length, map};
ghost use Rattle.m_valid.specs.Walk.{Tells};
ghost use Rattle.m_valid.specs.Validity.{half, is_among};
ghost use Rattle.g_net.specs.Network.{LiteralsBelow};
ghost use Rattle.std.specs.Prelude.{IfOk, replicate};
ghost use Rattle.std.specs.Vec.{vec_len};

use lz_base::{Num, OutOfMemory};
use std::alloc::Global;

/// So many flags, none of which is set.
pub fn no_flags(alloc: Global, count: usize) -> Result<Vec<bool>, OutOfMemory>
    ensures none { IfOk result (λ flags. Tells flags.items []) }
    ensures count { IfOk result (λ flags. vec_len flags ≡ count) }
{
    let flags = vec![in alloc; false; count]?;
    Ok(flags)
}

/// Sets the flag of a number.
pub fn set_flag(flags: &mut [bool], number: usize)
    requires { number < length flags.old }
    ensures { (before : List ℕ) → Tells flags.old before → Tells flags.new (before ++ number ∷ []) }
{
    flags[number] = true;
}

/// Sets the flags of the nodes of literals.
pub fn set_nodes(flags: &mut [bool], literals: &[Num])
    requires { LiteralsBelow (length flags.old) literals.now }
    ensures { (before : List ℕ) → Tells flags.old before → Tells flags.new (before ++ map half literals.now) }
{
    for literal in literals {
        set_flag(flags, (*literal / 2) as usize);
    }
}

/// Whether the flag of a number is set.
pub fn has_flag(flags: &[bool], number: Num) -> bool
    ensures { (numbers : List ℕ) → Tells flags.now numbers → result ≡ is_among number numbers }
{
    number < flags.len() as Num && flags[number as usize]
}
