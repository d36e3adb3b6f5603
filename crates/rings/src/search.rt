// The search of step 2b, ring by ring, in the scratch.
ghost use Rattle.std.specs.Prelude.{◌<◌, MatchOption};
ghost use Rattle.rings.specs.Search.{Lists, Answered};

use crate::line;

// The giver, and those of the ring before who want a chore of the giver.
#[derive(Clone, Copy)]
pub struct Found {
    pub giver: usize,
    pub takers: u32,
}

// From one distance to the next: whoever is not reached and has an offer for the ring takes a place in line, one further than the ring. The search
// leaves all rings as soon as somebody above the least sum does, through a label: document 01 names this form.
pub fn search(
    n: usize,
    offers: &[u64],
    sums: &[u32],
    ups: &[u32],
    least: u32,
    scratch: &mut [u8],
) -> Option<Found>
    requires { Lists n offers.now sums.now ups.now scratch.old }
    ensures { MatchOption result
        (Answered n offers.now sums.now ups.now least n 0 scratch.old scratch.new)
        (λ f. (f.giver < n) × Answered n offers.now sums.now ups.now least f.giver f.takers scratch.old scratch.new) }
{
    let mut found = None;
    let mut from = 0;
    let mut to = line::start(n, sums, least, scratch);
    'rings: while from < to {
        let ring = line::ring(n, scratch, from, to);
        let further = line::byte_at(scratch, from) + 1;
        let mut end = to;
        for i in 0..n {
            let wanting = (offers[i] & ring as u64) as u32;
            if wanting != 0 && scratch[i] == 0 {
                line::take_place(scratch, end, i, further);
                end += 1;
                if ups[i] > least {
                    found = Some(Found {
                        giver: i,
                        takers: wanting,
                    });
                    break 'rings;
                }
            }
        }
        from = to;
        to = end;
    }
    found
}
