ghost use Rattle.std.specs.Prelude.{◌≡◌, IfSome};
ghost use Rattle.v_values.specs.Queues as queues;
ghost use Rattle.v_machine.specs.Executed.{arm_counts, write_count, write_counts};
ghost use Rattle.v_machine.specs.Runnable.{process_counts};

use v_core::{TypedArm, TypedProcess, TypedStmt, TypedTarget};

// How many writes a target makes at most; None where they are past counting, here and below.
#[cycle(target_counting)]
fn target_writes(target: &TypedTarget) -> Option<usize>
    ensures { IfSome result (λ n. n ≡ queues.write_count target.now) }
{
    match target {
        TypedTarget::Part { .. } => Some(1),
        TypedTarget::Select { .. } => Some(1),
        TypedTarget::Concat(parts) => parts_writes(parts.as_slice()),
    }
}

#[cycle(target_counting)]
fn parts_writes(parts: &[TypedTarget]) -> Option<usize>
    ensures { IfSome result (λ n. n ≡ queues.write_counts parts.now) }
{
    let mut all = 0usize;
    for part in parts {
        let count = target_writes(part)?;
        all = all.checked_add(count)?;
    }
    Some(all)
}

// How many steps a statement takes at most, and how many writes it makes.
#[cycle(counting)]
fn stmt_writes(body: &TypedStmt) -> Option<usize>
    ensures { IfSome result (λ n. n ≡ write_count body.now) }
{
    match body {
        TypedStmt::Null => Some(0),
        TypedStmt::Block(all) => all_writes(all.as_slice()),
        TypedStmt::If(_, one, other) => {
            let count = stmt_writes(one.get())?;
            let more = stmt_writes(other.get())?;
            count.checked_add(more)?.checked_add(1)
        }
        TypedStmt::Case { arms, .. } => {
            let count = arms_writes(arms.as_slice())?;
            count.checked_add(1)
        }
        TypedStmt::Assign { target, .. } => target_writes(target.get())?.checked_add(1),
    }
}

#[cycle(counting)]
fn all_writes(all: &[TypedStmt]) -> Option<usize>
    ensures { IfSome result (λ n. n ≡ write_counts all.now) }
{
    let mut counted = 0usize;
    for one in all {
        let count = stmt_writes(one)?;
        counted = counted.checked_add(count)?;
    }
    Some(counted)
}

#[cycle(counting)]
fn arms_writes(arms: &[TypedArm]) -> Option<usize>
    ensures { IfSome result (λ n. n ≡ arm_counts arms.now) }
{
    let mut counted = 0usize;
    for arm in arms {
        let count = stmt_writes(&arm.body)?;
        counted = counted.checked_add(count)?;
    }
    Some(counted)
}

/// How many steps and writes a cycle of these processes has at most; None where they are past counting.
pub fn process_writes(processes: &[TypedProcess]) -> Option<usize>
    ensures { IfSome result (λ n. n ≡ process_counts processes.now) }
{
    let mut counted = 0usize;
    for process in processes {
        let count = stmt_writes(&process.body)?;
        counted = counted.checked_add(count)?;
    }
    Some(counted)
}
