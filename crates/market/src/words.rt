// Sets of agents as the bits of a word, which has 32.
ghost use Rattle.std.specs.Prelude.{◌≡◌, ◌≤◌, ◌<◌, ◌^◌, cond, eqb};
ghost use Rattle.std.specs.Int.Bits.{bit_or};
ghost use Rattle.finite.specs.Bits.{bit};
ghost use Rattle.finite.specs.Search.{first_below, if_below};
ghost use Rattle.model.specs.Limits.{max_agents};

pub fn has(w: u32, i: usize) -> bool
    requires { i < 32 }
    ensures { result ≡ bit w i }
{
    (w >> i) % 2 == 1
}

// The set with agent i.
pub fn with(w: u32, i: usize) -> u32
    requires { i < 32 }
    ensures { result ≡ bit_or w (2 ^ i) }
{
    w | (1u32 << i)
}

// The set with agent i, unless its mark is 1, difficult. The compiler makes it a choice without a branch, for four chores at once.
pub fn with_easy(w: u32, i: usize, mark: u8) -> u32
    requires { i < 32 }
    ensures { result ≡ cond (eqb mark 1) w (bit_or w (2 ^ i)) }
{
    if mark == 1 { w } else { with(w, i) }
}

// The lowest agent of the set, if there is one.
pub fn lowest(w: u32, n: usize) -> Option<usize>
    requires { n ≤ max_agents }
    ensures { result ≡ if_below n (first_below n (λ i. bit w i)) }
{
    let t = w.trailing_zeros() as usize;
    (t < n).then_some(t)
}
