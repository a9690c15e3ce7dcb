ghost use Rattle.std.specs.Prelude.{◌≡◌, ◌+◌, ℕ, length, take};
ghost use Rattle.n_sim.specs.Lanes.{stream};
ghost use Rattle.n_sim.specs.Steps.{AreBackwards, run_steps};

// A word from those at three places before it: the word at `base`, changed in the bits that both others have.
#[derive(Clone, Copy, Debug)]
pub(crate) struct Step {
    pub(crate) base: u32,
    pub(crate) change: u32,
    pub(crate) by: u32,
}

// Puts the words of the steps behind those that are there, step after step.
pub(crate) fn put_steps(words: &mut [u64], first: usize, steps: &[Step])
    requires room { first + length steps.now ≡ length words.old }
    requires back { AreBackwards first steps.now }
    ensures { (j : ℕ) → stream j words.new ≡ run_steps (take first (stream j words.old)) steps.now }
{
    let mut next = first;
    for step in steps {
        words[next] = words[step.base as usize]
            ^ (words[step.change as usize] & words[step.by as usize]);
        next += 1;
    }
}
