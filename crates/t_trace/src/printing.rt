ghost use Rattle.std.specs.Prelude.{◌≡◌, ◌++◌, flat_map, IfOk, OnOk};
ghost use Rattle.t_trace.specs.Texts.{cycle_line, cycles_text, word_field};

use lz_base::{Items, OutOfMemory, Word};
use lz_lines::{push_hex, push_line_end};
use std::alloc::Global;

/// The text that has this first line and this key before each cycle's words.
pub(crate) fn print_cycles(
    alloc: Global,
    cycles: &[Items<Word>],
    first: &[u8],
    key: &[u8],
) -> Result<Vec<u8>, OutOfMemory>
    ensures { IfOk result (λ v. v.items ≡ cycles_text first.now key.now cycles.now) }
{
    let mut out = Vec::new(alloc);
    out.extend_from_slice(first)?;
    push_cycles(&mut out, cycles, key)?;
    out.extend_from_slice(b"end\n")?;
    Ok(out)
}

fn push_cycles(out: &mut Vec<u8>, cycles: &[Items<Word>], key: &[u8]) -> Result<(), OutOfMemory>
    ensures { OnOk result (out.new.items ≡ out.old.items ++ flat_map (cycle_line key.now) cycles.now) }
{
    for words in cycles {
        push_cycle(out, words.as_slice(), key)?;
    }
    Ok(())
}

fn push_cycle(out: &mut Vec<u8>, words: &[Word], key: &[u8]) -> Result<(), OutOfMemory>
    ensures { OnOk result (out.new.items ≡ out.old.items ++ cycle_line key.now words.now) }
{
    out.extend_from_slice(key)?;
    push_words(out, words)?;
    push_line_end(out)
}

fn push_words(out: &mut Vec<u8>, words: &[Word]) -> Result<(), OutOfMemory>
    ensures { OnOk result (out.new.items ≡ out.old.items ++ flat_map word_field words.now) }
{
    for word in words {
        push_hex(out, word.width, word.value)?;
    }
    Ok(())
}
