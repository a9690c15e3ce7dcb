ghost use Rattle.std.specs.Prelude.{◌≡◌, [], ◌∷◌, IfOk, IsTrue, ◌↔◌};
ghost use Rattle.lz_base.specs.Names.{AreDistinct, IsAmong, AreAmong};
ghost use Rattle.v_syntax.specs.Small.{HasNames, port_names, register_names, read_names};

use crate::distinct::is_distinct;
use lz_base::OutOfMemory;
use std::alloc::Global;
use v_syntax::{Ident, SmallExpr, SmallModule, SmallPort};

// Whether the names of the module agree.
pub(crate) fn has_names(alloc: Global, small: &SmallModule) -> Result<bool, OutOfMemory>
    ensures { IfOk result (λ b. IsTrue b ↔ HasNames small.now) }
{
    let ports = small.ports.as_slice();
    let event = small.event.name.bytes() == small.clock.name.bytes();
    let target = is_register(ports, small.target.name.bytes());
    let reads = reads_ports(ports, &small.value);
    let distinct = is_distinct_list(alloc, &small.clock, ports)?;
    Ok(event && target && reads && distinct)
}

// Whether the clock's name and the ports' names are distinct.
fn is_distinct_list(alloc: Global, clock: &Ident, ports: &[SmallPort]) -> Result<bool, OutOfMemory>
    ensures { IfOk result (λ b. IsTrue b ↔ AreDistinct (clock.now.name ∷ port_names ports.now)) }
{
    let mut names = Vec::new(alloc);
    names.push(clock.name.bytes())?;
    for port in ports {
        names.push(name_of(port))?;
    }
    is_distinct(alloc, names.as_slice())
}

// Whether the value reads ports behind the clock.
fn reads_ports(ports: &[SmallPort], value: &SmallExpr) -> bool
    ensures { IsTrue result ↔ AreAmong (read_names value.now) (port_names ports.now) }
{
    match value {
        SmallExpr::One(a) => is_port(ports, a.name.name.bytes()),
        SmallExpr::Two(a, _, b) => is_port(ports, a.name.name.bytes())
            && is_port(ports, b.name.name.bytes()),
    }
}

// Whether a port behind the clock has this name.
fn is_port(ports: &[SmallPort], name: &[u8]) -> bool
    ensures { IsTrue result ↔ IsAmong name.now (port_names ports.now) }
{
    for port in ports {
        if is_named(port, name) {
            return true;
        }
    }
    false
}

// Whether a register has this name.
fn is_register(ports: &[SmallPort], name: &[u8]) -> bool
    ensures { IsTrue result ↔ IsAmong name.now (register_names ports.now) }
{
    for port in ports {
        if is_register_of(port, name) {
            return true;
        }
    }
    false
}

// Whether the port has this name.
fn is_named(port: &SmallPort, name: &[u8]) -> bool
    ensures { IsTrue result ↔ IsAmong name.now (port_names (port.now ∷ [])) }
{
    match port {
        SmallPort::Input(input) => input.name.bytes() == name,
        SmallPort::Register(register) => register.name.bytes() == name,
    }
}

// Whether the port is a register of this name.
fn is_register_of(port: &SmallPort, name: &[u8]) -> bool
    ensures { IsTrue result ↔ IsAmong name.now (register_names (port.now ∷ [])) }
{
    match port {
        SmallPort::Input(_) => false,
        SmallPort::Register(register) => register.name.bytes() == name,
    }
}

// The bytes of the port's name.
fn name_of(port: &SmallPort) -> &[u8]
    ensures { result.now ∷ [] ≡ port_names (port.now ∷ []) }
{
    match port {
        SmallPort::Input(port) => port.name.bytes(),
        SmallPort::Register(port) => port.name.bytes(),
    }
}
