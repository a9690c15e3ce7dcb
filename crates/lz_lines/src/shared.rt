ghost use Rattle.std.specs.Prelude.{◌≡◌, ◌++◌, flat_map, OnOk};
ghost use Rattle.std.specs.Option.{option_copied, option_to_list};
ghost use Rattle.lz_base.specs.Names.{IsName};
ghost use Rattle.lz_lines.specs.Fields.{AllUpTo, Each, IsNameField, greatest, number};
ghost use Rattle.lz_lines.specs.Forms.{Obtains, Parted};
ghost use Rattle.lz_lines.specs.Shared.{clock_line, input_line, output_line};

use crate::names::read_name;
use crate::printing::{push_field, push_line_end, push_number};
use crate::unread::Unread;
use lz_base::{Name, OutOfMemory, Port};
use std::alloc::Global;

/// Takes a blank and a name, which is copied, and gives what is left after it. The fault is that of `read_name`.
pub fn read_name_copy<'a>(alloc: Global, bytes: &'a [u8]) -> Result<(Name, &'a [u8]), Unread>
    ensures { Obtains IsNameField Parted (λ r. r.0) (λ r. r.1.now) bytes.now result }
{
    let (name, rest) = read_name(bytes)?;
    Ok((Name::new(alloc, name)?, rest))
}

/// Appends numbers, each behind its blank.
pub fn push_numbers(out: &mut Vec<u8>, ns: &[u128]) -> Result<(), OutOfMemory>
    ensures text { OnOk result (out.new.items ≡ out.old.items ++ flat_map number ns.now) }
    ensures small { OnOk result (AllUpTo greatest ns.now) }
{
    for n in ns {
        push_number(out, *n)?;
    }
    Ok(())
}

/// Appends the line of the clock, where there is one.
pub fn push_clock(out: &mut Vec<u8>, clock: Option<&Name>) -> Result<(), OutOfMemory>
    ensures text { OnOk result (out.new.items ≡ out.old.items ++ clock_line (option_copied clock.entry)) }
    ensures named { OnOk result (Each IsName (option_to_list (option_copied clock.entry))) }
{
    match clock {
        Some(name) => {
            out.extend_from_slice(b"clock")?;
            push_field(out, name.bytes())?;
            push_line_end(out)
        }
        None => Ok(()),
    }
}

fn push_input(out: &mut Vec<u8>, port: &Port) -> Result<(), OutOfMemory>
    ensures text { OnOk result (out.new.items ≡ out.old.items ++ input_line port.now) }
    ensures named { OnOk result (IsName port.now.name) }
{
    out.extend_from_slice(b"input")?;
    push_field(out, port.name.bytes())?;
    push_number(out, u128::from(port.width))?;
    push_line_end(out)
}

/// Appends the lines of inputs.
pub fn push_inputs(out: &mut Vec<u8>, ports: &[Port]) -> Result<(), OutOfMemory>
    ensures text { OnOk result (out.new.items ≡ out.old.items ++ flat_map input_line ports.now) }
    ensures named { OnOk result (Each (λ p. IsName p.name) ports.now) }
{
    for port in ports {
        push_input(out, port)?;
    }
    Ok(())
}

/// Appends the line of an output.
pub fn push_output(out: &mut Vec<u8>, name: &Name, ns: &[u128]) -> Result<(), OutOfMemory>
    ensures text { OnOk result (out.new.items ≡ out.old.items ++ output_line name.now ns.now) }
    ensures named { OnOk result (IsName name.now) }
    ensures small { OnOk result (AllUpTo greatest ns.now) }
{
    out.extend_from_slice(b"output")?;
    push_field(out, name.bytes())?;
    push_numbers(out, ns)?;
    push_line_end(out)
}
