// A dominating list, for a list with a wasted chore: the chore goes to a connected agent, who hands an easy chore on, and so on from ring
// to ring, until a burdened agent is relieved.

ghost use Rattle.std.specs.Prelude.{◌≡◌, ◌≤◌, ◌<◌, length};
ghost use Rattle.finite.specs.Search.{first_below, if_below};
ghost use Rattle.model.specs.Sheet.{agents_of, chores_of};
ghost use Rattle.model.specs.Promises.{Dominating};
ghost use Rattle.given.specs.Given.{Given};
ghost use Rattle.waste.specs.Tests.{passable};
ghost use Rattle.waste.specs.Walk.{Walkable, Wasting, Away, HandedOn, Burdened, Relieved};

use crate::connected;
use sheet::valid::Sheet;

// The first chore of agent h that is easy for it and for an agent nearer than the limit.
fn first_passable(
    sheet: &Sheet,
    owners: &[u8],
    distances: &[u8; model::MAX_AGENTS],
    limit: u8,
    h: usize,
) -> Option<usize>
    requires given { Given sheet.now owners.now }
    requires h_bound { h < agents_of sheet.now }
    ensures { result ≡ if_below (chores_of sheet.now) (first_below (chores_of sheet.now) (passable sheet.now owners.now distances.now limit h)) }
{
    (0..sheet.chores()).find(|&c| {
        given::owner(owners, c) == h
            && sheet.is_easy(h, c)
            && connected::first_taker(sheet, distances, limit, c).is_some()
    })
}

// Agent h hands a chore on to a nearer agent, who is returned. The chore is looked for among those that h owned before the walk: what it
// was just given stays with it.
fn hand_on(
    sheet: &Sheet,
    owners: &[u8],
    distances: &[u8; model::MAX_AGENTS],
    h: usize,
    list: &mut [u8],
) -> usize
    requires walkable { Walkable sheet.now owners.now distances.now list.old }
    requires away { Away sheet.now distances.now h }
    ensures { HandedOn sheet.now owners.now distances.now list.old list.new h result }
{
    let limit = distances[h];
    let e = first_passable(sheet, owners, distances, limit, h).unwrap();
    let g = connected::first_taker(sheet, distances, limit, e).unwrap();
    list[e] = (g + 1) as u8;
    g
}

// The walk's last agent h hands a difficult chore to agent i, unless it is i itself.
fn relieve(sheet: &Sheet, owners: &[u8], i: usize, h: usize, list: &mut [u8])
    requires { Burdened sheet.now owners.now list.old i h }
    ensures { Relieved sheet.now owners.now list.old list.new i h }
{
    if h != i {
        let f = given::first_burden(sheet, owners, h).unwrap();
        list[f] = (i + 1) as u8;
    }
}

// Writes a dominating list over the first entries, one for each chore. Chore c goes to agent j first, and its owner takes the last agent's chore.
pub fn write_dominating(
    sheet: &Sheet,
    owners: &[u8],
    distances: &[u8; model::MAX_AGENTS],
    c: usize,
    j: usize,
    list: &mut [u8],
)
    requires walkable { Walkable sheet.now owners.now distances.now list.old }
    requires wasting { Wasting sheet.now owners.now distances.now c j }
    ensures { Dominating sheet.now owners.now list.old list.new }
{
    let i = given::owner(owners, c);
    model::copy_bytes(owners, &mut list[..sheet.chores()]);
    list[c] = (j + 1) as u8;
    let mut h = j;
    while distances[h] > 0 {
        h = hand_on(sheet, owners, distances, h, list);
    }
    relieve(sheet, owners, i, h, list);
}
