// Who holds which cards: from the top of the deck each playing seat, lowest first, takes two cards together, and the next three are the
// community cards. Where All-Six is offered the community cards and the All-Six card come first, then the seats.
//
// Seats are taken by their antes: a seat without one doesn't play and takes no cards. Each function answers for any antes, any deck and any place. Where a card lies is
// said here and nowhere else.

#![tactic(auto)]

ghost use Rattle.std.specs.Prelude.{◌≡◌, get_or};
ghost use Rattle.holding.specs.Deal.{playing_before, hole_at, community_at, hole, community, five, six_hand};

use counting::at;

// How many seats play before place `k`.
pub fn playing_before(antes: [u16; 7], k: u8) -> u8
    ensures { result ≡ playing_before antes k }
{
    antes
        .iter()
        .take(k as usize)
        .filter(|ante| **ante != 0)
        .count() as u8
}

// A deck, and what says whose its cards are: parts of a round, which are lent and not copied.
#[derive(Clone, Copy)]
pub struct Deal<'a> {
    // The number of the All-Six pay table, 0 where it isn't offered.
    pub offer: u8,
    pub antes: &'a [u16; 7],
    pub cards: &'a [u8; 52],
}

impl Deal<'_> {
    // Where the first card of the seat at place `k` lies.
    fn hole_at(self, k: u8) -> u16
        ensures { result ≡ hole_at self.entry.offer self.entry.antes.now k }
    {
        let before = 2 * (playing_before(*self.antes, k) as u16);
        if self.offer == 0 { before } else { 4 + before }
    }

    // Where the first community card lies; the All-Six card lies after the third.
    fn community_at(self) -> u16
        ensures { result ≡ community_at self.entry.offer self.entry.antes.now }
    {
        if self.offer == 0 {
            2 * (playing_before(*self.antes, 7) as u16)
        } else {
            0
        }
    }

    fn card_at(self, place: usize) -> u8
        ensures { result ≡ get_or self.entry.cards.now place 0 }
    {
        let cards = self.cards;
        at(cards, place, 0)
    }

    // The two cards of the seat at place `k`.
    pub fn hole(self, k: u8) -> [u8; 2]
        ensures { result ≡ hole self.entry.offer self.entry.antes.now self.entry.cards.now k }
    {
        let first = self.hole_at(k) as usize;
        [self.card_at(first), self.card_at(first + 1)]
    }

    pub fn community(self) -> [u8; 3]
        ensures { result ≡ community self.entry.offer self.entry.antes.now self.entry.cards.now }
    {
        let first = self.community_at() as usize;
        [
            self.card_at(first),
            self.card_at(first + 1),
            self.card_at(first + 2),
        ]
    }

    // The five cards that the hand of the seat at place `k` is named by.
    pub fn five(self, k: u8) -> [u8; 5]
        ensures { result ≡ five self.entry.offer self.entry.antes.now self.entry.cards.now k }
    {
        let board = self.community();
        let own = self.hole(k);
        [board[0], board[1], board[2], own[0], own[1]]
    }

    // The six cards of its All-Six hand, in the order community, All-Six card, the seat's two.
    pub fn six(self, k: u8) -> [u8; 6]
        ensures { result ≡ six_hand self.entry.offer self.entry.antes.now self.entry.cards.now k }
    {
        let board = self.community();
        let card = self.card_at(self.community_at() as usize + 3);
        let own = self.hole(k);
        [board[0], board[1], board[2], card, own[0], own[1]]
    }
}
