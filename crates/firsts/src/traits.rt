// What the table tells chores apart by.
ghost use Rattle.std.specs.Prelude.{◌<◌, ◌≡◌, eqb, length};
ghost use Rattle.finite.specs.Bits.{SetOf};
ghost use Rattle.firsts.specs.Traits.{trait_count, wanting_word, trait_in, has_trait};

// Bit j of a chore's traits says that agent j wants it; the others follow.
pub const TRAITS: usize = 35;

pub const FREE: usize = 32;

pub const TOP: usize = 33;

pub const MID: usize = 34;

// The agents in no group and in some group, and the three prices that there are.
#[derive(Clone, Copy)]
pub struct View {
    pub free: u32,
    pub grouped: u32,
    pub low: u32,
    pub mid: u32,
    pub top: u32,
}

// Who wants a chore: members of a group want every chore that is not entitled.
#[tactic(auto, unfolding(crate::specs::Traits::wanting_word))]
fn wanting(likes: u32, entitled: u8, view: View) -> u32
    ensures { result ≡ wanting_word likes (eqb entitled 1) view.free view.grouped }
{
    if entitled == 1 {
        likes & view.grouped
    } else {
        (likes & view.free) | view.grouped
    }
}

// A chore's traits as the bits of a word.
pub fn traits(price: u32, entitled: u8, likes: u32, view: View) -> u64
    ensures { SetOf trait_count result (trait_in price (eqb entitled 1) likes view.free view.grouped view.mid view.top) }
{
    let mut word = wanting(likes, entitled, view) as u64;
    if entitled != 1 {
        word |= 1 << FREE;
    }
    if price == view.top {
        word |= 1 << TOP;
    }
    if price == view.mid {
        word |= 1 << MID;
    }
    word
}

// The chores as the table tells them apart: their lists, and the view.
#[derive(Clone, Copy)]
pub struct Chores<'a> {
    pub prices: &'a [u32],
    pub entitled: &'a [u8],
    pub likes: &'a [u32],
    pub view: View,
}

impl Chores<'_> {
    // Chore c's traits.
    #[tactic(auto, unfolding(crate::specs::Traits::has_trait, market::specs::Market::entitled_of))]
    pub fn traits(&self, c: usize) -> u64
        requires { (c < length self.now.prices.now) × (c < length self.now.entitled.now) × (c < length self.now.likes.now) }
        ensures { SetOf trait_count result (λ t. has_trait self.now.prices.now self.now.entitled.now self.now.likes.now self.now.view.free self.now.view.grouped self.now.view.mid self.now.view.top t c) }
    {
        traits(self.prices[c], self.entitled[c], self.likes[c], self.view)
    }
}
