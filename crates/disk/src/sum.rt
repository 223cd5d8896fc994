// Two running sums over numbers: of the numbers, and of the sums so far, so that two that change places are seen too.
ghost use Rattle.std.specs.Prelude.{◌≡◌};
ghost use Rattle.disk.specs.Sums.{with_one, sum_over, no_sum};

#[derive(Clone, Copy)]
pub struct Sum {
    pub a: u64,
    pub b: u64,
}

impl Sum {
    // Before the first number.
    pub const START: Sum = Sum { a: 1, b: 0 };

    // After one number more.
    #[tactic(auto, unfolding(crate::specs::Sums::with_one))]
    fn with(self, x: u64) -> Sum
        ensures { result ≡ with_one self x }
    {
        let a = self.a.wrapping_add(x);
        let b = self.b.wrapping_add(a);
        Sum { a, b }
    }
}

pub fn summed(sum: Sum, bytes: &[u8]) -> Sum
    ensures { result ≡ sum_over sum bytes.now }
{
    bytes
        .iter()
        .fold(sum, |sum, &byte| sum.with(u64::from(byte)))
}

// The same over day numbers: a line each, where a generic function could not say in its contract which numbers its items are.
pub fn days_summed(days: &[u16]) -> Sum
    ensures { result ≡ sum_over no_sum days.now }
{
    days.iter()
        .fold(Sum::START, |sum, &day| sum.with(u64::from(day)))
}
