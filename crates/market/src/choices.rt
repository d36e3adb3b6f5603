// The choices of step 2a.
ghost use Rattle.std.specs.Prelude.{◌≡◌, ◌≤◌, eqb, ltb, length, get_or};
ghost use Rattle.finite.specs.Search.{if_below, chosen};
ghost use Rattle.market.specs.Market.{group_of};

// The member of the group of greatest price up to one, the first of them.
pub fn greatest_in(groups: &[u8], ups: &[u32], stage: u8) -> Option<usize>
    requires { length groups.now ≤ length ups.now }
    ensures { result ≡ if_below (length groups.now) (chosen (length groups.now) (λ i. eqb (group_of groups.now i) stage) (λ j i. ltb (get_or ups.now i 0) (get_or ups.now j 0))) }
{
    (0..groups.len())
        .filter(|&i| groups[i] == stage)
        .reduce(|best, i| if ups[i] > ups[best] { i } else { best })
}

// The agent of least sum in the later groups, the first of them.
pub fn least_after(groups: &[u8], sums: &[u32], stage: u8) -> Option<usize>
    requires { length groups.now ≤ length sums.now }
    ensures { result ≡ if_below (length groups.now) (chosen (length groups.now) (λ i. ltb stage (group_of groups.now i)) (λ j i. ltb (get_or sums.now j 0) (get_or sums.now i 0))) }
{
    (0..groups.len())
        .filter(|&i| groups[i] > stage)
        .reduce(|best, i| if sums[i] < sums[best] { i } else { best })
}
