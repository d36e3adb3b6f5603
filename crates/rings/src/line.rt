// The line of the search, in the scratch: byte i has agent i's distance plus one, 0 where it is not reached; byte 32 + k has the agent at place
// k of the line.
ghost use Rattle.std.specs.Prelude.{◌≡◌, ℕ, ◌+◌, ◌≤◌, ◌<◌, length, get_or, set};
ghost use Rattle.finite.specs.Bits.{SetOf};
ghost use Rattle.model.specs.Limits.{max_agents, scratch_size};
ghost use Rattle.rings.specs.Line.{Started, is_reached, stands_at, byte_at};

use market::words::with;

// Where the line starts.
const LINE: usize = model::MAX_AGENTS;

// Agent i takes the next place; its byte is its distance plus one.
pub fn take_place(scratch: &mut [u8], end: usize, i: usize, byte: u8)
    requires { (length scratch.old ≡ scratch_size) × (end < max_agents) × (i < max_agents) }
    ensures { scratch.new ≡ set (set scratch.old i byte) (max_agents + end) i }
{
    scratch[i] = byte;
    scratch[LINE + end] = i as u8;
}

// Those of least sum are at distance 0, all of them. Answers how many places are taken.
pub fn start(n: usize, sums: &[u32], least: u32, scratch: &mut [u8]) -> usize
    requires { (n ≤ max_agents) × (n ≤ length sums.now) × (length scratch.old ≡ scratch_size) }
    ensures { Started n sums.now least scratch.old scratch.new result }
{
    let mut end = 0;
    for i in 0..n {
        scratch[i] = 0;
        if sums[i] == least {
            take_place(scratch, end, i, 1);
            end += 1;
        }
    }
    end
}

// The byte of the agent at place k.
pub fn byte_at(scratch: &[u8], k: usize) -> u8
    requires { (length scratch.now ≡ scratch_size) × (k < max_agents) × (get_or scratch.now (max_agents + k) 0 < max_agents) }
    ensures { result ≡ byte_at scratch.now k }
{
    scratch[scratch[LINE + k] as usize]
}

// The agents at the places from `from` up to `to`, as the bits of a word.
pub fn ring(n: usize, scratch: &[u8], from: usize, to: usize) -> u32
    requires { (n ≤ max_agents) × (from ≤ to) × (max_agents + to ≤ length scratch.now) × ((k : ℕ) → k < to → get_or scratch.now (max_agents + k) 0 < n) }
    ensures { SetOf n result (stands_at scratch.now from to) }
{
    let mut w = 0u32;
    for &i in &scratch[LINE + from..LINE + to] {
        w = with(w, i as usize);
    }
    w
}

// Everyone reached, as the bits of a word.
pub fn reached(n: usize, scratch: &[u8]) -> u32
    requires { (n ≤ max_agents) × (n ≤ length scratch.now) }
    ensures { SetOf n result (is_reached scratch.now) }
{
    let mut w = 0u32;
    for i in 0..n {
        if scratch[i] != 0 {
            w = with(w, i);
        }
    }
    w
}
