ghost use Rattle.std.specs.Prelude.{◌≡◌, slice_index, IfNone, IfSome};
ghost use Rattle.v_order.specs.Counting.{IsCounted, IsShortAt};
ghost use Rattle.v_machine.specs.Walked.{are_none};

// How many steps a process has left; 0 of what is none.
fn steps_left(left: &[usize], process: u32) -> usize
    ensures { result ≡ slice_index left.now process }
{
    if (process as usize) < left.len() {
        left[process as usize]
    } else {
        0
    }
}

// Whether no process has steps left.
fn are_none(left: &[usize]) -> bool
    ensures { result ≡ are_none left.now }
{
    for steps in left {
        if *steps != 0 {
            return false;
        }
    }
    true
}

/// Where a schedule does not go on that takes these numbers of steps down: at its first entry whose process has none left or
/// is none, or else behind its last entry; None where it takes all of them (IEEE Std 1364-2005, 11.4.2). It takes no memory,
/// and is linear in the schedule and the processes.
pub fn short_entry(left: &mut [usize], schedule: &[u32]) -> Option<usize>
    ensures short { IfSome result (λ index. IsShortAt left.old schedule.now index) }
    ensures counted { IfNone result (IsCounted left.old schedule.now) }
{
    for i in 0..schedule.len() {
        let process = schedule[i];
        let steps = steps_left(left, process);
        if steps == 0 {
            return Some(i);
        }
        left[process as usize] = steps - 1;
    }
    if are_none(left) {
        None
    } else {
        Some(schedule.len())
    }
}
