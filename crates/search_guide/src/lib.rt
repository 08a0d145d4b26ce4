//! The choice of a search at its decisions: a closure that is kept with the fact that it answers in range.
#![tactic(auto)]

ghost use Rattle.std.specs.Prelude.{ℕ, ◌<◌, ◌≤◌, ◌^◌, ◌≡◌};

/// A closure that names one of `n` candidates, by a seed and by the number of decisions so far.
pub type Pick = Box<dyn Fn(u64, u64, u32) -> u32>;

/// A stored choice. It keeps that its closure may be called and answers below `n`, for each seed and
/// turn and each `n` from 1, so whoever asks it makes no test of the answer.
///
/// The closure comes in a box: a struct can't keep a fact about the calls of a type parameter.
#[derive(Drop)]
pub struct Guide {
    pub pick: Pick,
    ghost answers: { (seed : ℕ) (turn : ℕ) (n : ℕ) → seed < 2 ^ 64 → turn < 2 ^ 64 → 1 ≤ n → n < 2 ^ 32 → Pick.pre pick seed turn n },
    ghost in_range: { (seed : ℕ) (turn : ℕ) (n : ℕ) (r : ℕ) → seed < 2 ^ 64 → turn < 2 ^ 64 → 1 ≤ n → n < 2 ^ 32 → Pick.post pick seed turn n r → r < n },
}

impl Guide {
    /// The guide of a closure that answers in range.
    pub fn new(pick: Pick) -> Guide
        requires answers { (seed : ℕ) (turn : ℕ) (n : ℕ) → seed < 2 ^ 64 → turn < 2 ^ 64 → 1 ≤ n → n < 2 ^ 32 → Pick.pre pick seed turn n }
        requires in_range { (seed : ℕ) (turn : ℕ) (n : ℕ) (r : ℕ) → seed < 2 ^ 64 → turn < 2 ^ 64 → 1 ≤ n → n < 2 ^ 32 → Pick.post pick seed turn n r → r < n }
        ensures { result.pick ≡ pick }
    {
        Guide { pick }
    }

    /// Which of `n` candidates is taken: what the closure answers. It takes no memory.
    pub fn pick(&self, seed: u64, turn: u64, n: u32) -> u32
        requires { 1 ≤ n }
        ensures in_range { result < n }
        ensures asked { Pick.post self.now.pick seed turn n result }
    {
        (self.pick)(seed, turn, n)
    }
}

#[cfg(test)]
mod tests {
    use super::*;
    use std::test::Fail;

    #[test]
    fn picks_the_first_and_the_last(rt: HostRuntime) -> Result<(), Fail> {
        let first = Guide::new(Box::new(rt.alloc(), |_seed: u64, _turn: u64, _n: u32| 0)?);
        let last = Guide::new(Box::new(
            rt.alloc(),
            |_seed: u64, _turn: u64, n: u32| n.saturating_sub(1),
        )?);
        assert_eq!(rt; first.pick(7, 8, 9), 0);
        assert_eq!(rt; last.pick(7, 8, 9), 8);
        assert_eq!(rt; last.pick(7, 8, 1), 0);
        Ok(())
    }
}
