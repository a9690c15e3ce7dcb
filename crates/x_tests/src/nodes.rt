use lz_base::OutOfMemory;
use std::alloc::Global;
use x_expr::{Arena, Node};

// A node that is made twice has one number, and another one has another.
fn is_made_once(alloc: Global) -> Result<bool, OutOfMemory> {
    let mut arena = Arena::new(alloc);
    let first = arena.mk(Node::Input { index: 0, width: 4 })?;
    let other = arena.mk(Node::Input { index: 1, width: 4 })?;
    let again = arena.mk(Node::Input { index: 0, width: 4 })?;
    Ok(first == again && first != other && arena.len() == 2)
}

// 11, which as a signed word of four bits is -5, has 251 at eight bits.
fn is_extended(alloc: Global) -> Result<bool, OutOfMemory> {
    let mut arena = Arena::new(alloc);
    let eleven = arena.mk(Node::Constant {
        width: 4,
        value: 11,
    })?;
    let number = arena.fold(Node::Extend {
        from: 4,
        to: 8,
        signed: true,
        operand: eleven,
    })?;
    let wanted = Node::Constant {
        width: 8,
        value: 251,
    };
    Ok(*arena.node(number) == wanted)
}

#[test]
fn nodes_are_made_once_and_folded(rt: HostRuntime) {
    assert!(rt; matches!(is_made_once(rt.alloc()), Ok(true)));
    assert!(rt; matches!(is_extended(rt.alloc()), Ok(true)));
}
