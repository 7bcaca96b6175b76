// A schedule in fixed memory.
ghost use Rattle.std.specs.Prelude.{◌≡◌, ◌≤◌, take};

// The schedule is the first `steps` bytes.
#[derive(Clone, Copy)]
pub struct Steps<const N: usize> {
    pub schedule: [u8; N],
    pub steps: usize,
}

impl<const N: usize> Steps<N> {
    // The schedule.
    pub fn as_slice(&self) -> &[u8]
        ensures { result.now ≡ take self.now.steps self.now.schedule }
    {
        &self.schedule[..self.steps.min(N)]
    }
}

// The same schedule where there is more room.
pub fn widened<const N: usize, const M: usize>(s: &Steps<N>) -> Steps<M>
    requires wide { N ≤ M }
    requires short { s.now.steps ≤ N }
    ensures steps { result.steps ≡ s.now.steps }
    ensures same { take result.steps result.schedule ≡ take s.now.steps s.now.schedule }
{
    let mut schedule = [0u8; M];
    schedule[..N].copy_from_slice(&s.schedule);
    Steps {
        schedule,
        steps: s.steps,
    }
}
