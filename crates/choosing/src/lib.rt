// The choices: who is still in, which street is open, what a choice does.
//
// A choice record is answered here by its refusal and by what it makes of the play; whether such a record may
// come is the round's to say. Seats are taken by their antes: a seat without one doesn't play. Each function answers for any antes, any play and
// any bytes. `fits` is true of the plays that accepted records leave, and proofs/ shows it from both sides. The order of choices within a
// street isn't held: a raise stands at street × 7 + place, a fold's street, counted from 1, at the seat's place.

#![tactic(auto)]

ghost use Rattle.std.specs.Prelude.{◌≡◌, ◌<◌};
ghost use Rattle.causes.specs.Refusal.{number_of};
ghost use Rattle.choosing.specs.Streets.{raise_on, fold_of, still_in, has_to_choose, is_open, streets_over};
ghost use Rattle.choosing.specs.Choice.{standing_refusal, choice_refusal, chosen, with_choice};
ghost use Rattle.choosing.specs.Slots.{fold_fits, raise_fits, slot_at, street_fits, play_fits};

use causes::Refusal;
use counting::at;
use records::{byte_at, is_between, is_zero_from, place_of};

#[derive(Clone, Copy)]
pub struct Play {
    pub raises: [u8; 21],
    pub folds: [u8; 7],
}

// A seat with this ante and fold, where so many streets have opened: not folded, or it plays and folded on one of them.
fn fold_fits(opened: u8, ante: u16, fold: u8) -> bool
    ensures { result ≡ fold_fits opened ante fold }
{
    (fold == 0) | ((ante != 0) & ((fold <= 3) & (fold <= opened)))
}

// Its raise on street `s`: none and no later fold; or one by a seat that plays, on a street that has opened, before any fold.
fn raise_fits(opened: u8, s: u8, ante: u16, fold: u8, raise: u8) -> bool
    requires { s < 3 }
    ensures { result ≡ raise_fits opened s ante fold raise }
{
    if raise == 0 {
        return fold <= s + 1;
    }
    ((raise <= 3) & (s < opened)) & ((ante != 0) & ((fold == 0) | (s + 1 < fold)))
}

impl Play {
    // By how many antes the seat at place `k` raised on street `s`.
    pub fn raise_on(self, s: u8, k: u8) -> u8
        ensures { result ≡ raise_on self s k }
    {
        at(&self.raises, s as usize * 7 + k as usize, 0)
    }

    fn fold_of(self, k: u8) -> u8
        ensures { result ≡ fold_of self k }
    {
        at(&self.folds, k as usize, 0)
    }

    // The seat at place `k` plays and hasn't folded.
    pub fn is_in(self, antes: [u16; 7], k: u8) -> bool
        ensures { result ≡ still_in antes self k }
    {
        (at(&antes, k as usize, 0) != 0) & (self.fold_of(k) == 0)
    }

    // The seat at place `k` is still in and hasn't chosen on street `s`.
    fn has_to_choose(self, antes: [u16; 7], s: u8, k: u8) -> bool
        ensures { result ≡ has_to_choose antes self s k }
    {
        self.is_in(antes, k) & (self.raise_on(s, k) == 0)
    }

    // Some seat has still to choose on street `s`.
    fn is_open(self, antes: [u16; 7], s: u8) -> bool
        ensures { result ≡ is_open antes self s }
    {
        (0..7).any(|k| self.has_to_choose(antes, s, k))
    }

    // How many streets are over: the open one's place, and 3 where the round is finished.
    pub fn streets_over(self, antes: [u16; 7]) -> u8
        ensures { result ≡ streets_over antes self }
    {
        (0..3).find(|s| self.is_open(antes, *s)).unwrap_or(3)
    }

    // The refusal of a choice by the seat at place `k`.
    fn standing_refusal(self, antes: [u16; 7], k: u8) -> Result<(), Refusal>
        ensures { number_of result ≡ standing_refusal antes self k }
    {
        if at(&antes, k as usize, 0) == 0 {
            return Err(Refusal::SeatNotIn);
        }
        if self.fold_of(k) != 0 {
            return Err(Refusal::SeatFolded);
        }
        if self.raise_on(self.streets_over(antes), k) != 0 {
            return Err(Refusal::AlreadyChosen);
        }
        Ok(())
    }

    // The refusal of what a choice record says.
    #[tactic(auto, unfolding(crate::specs::Choice::choice_refusal))]
    pub fn choice_refusal(self, antes: [u16; 7], bytes: &[u8]) -> Result<(), Refusal>
        ensures { number_of result ≡ choice_refusal antes self bytes.now }
    {
        if !is_zero_from(bytes, 3) {
            return Err(Refusal::ByteNotZero);
        }
        let seat = byte_at(bytes, 1);
        if !is_between(1, 7, seat) {
            return Err(Refusal::SeatNumber);
        }
        if 3 < byte_at(bytes, 2) {
            return Err(Refusal::Choice);
        }
        self.standing_refusal(antes, place_of(seat))
    }

    // The seat at place `k` chooses on street `s`. A place past the end of its array changes nothing.
    #[tactic(auto, unfolding(crate::specs::Choice::chosen))]
    fn chosen_on(mut self, s: u8, k: u8, choice: u8) -> Play
        requires { s < 4 }
        ensures { result ≡ chosen self s k choice }
    {
        let place = k as usize;
        let slot = s as usize * 7 + place;
        if choice == 0 {
            if place < 7 {
                self.folds[place] = s + 1;
            }
        } else if slot < 21 {
            self.raises[slot] = choice;
        }
        self
    }

    // The play with the choice of a record, made on the street that is open.
    #[tactic(auto, using(crate::proofs::Street::streets_le))]
    pub fn with_choice(self, antes: [u16; 7], bytes: &[u8]) -> Play
        ensures { result ≡ with_choice antes self bytes.now }
    {
        let s = self.streets_over(antes);
        let k = place_of(byte_at(bytes, 1));
        self.chosen_on(s, k, byte_at(bytes, 2))
    }

    #[tactic(auto, unfolding(crate::specs::Slots::slot_fits))]
    fn slot_fits(self, antes: [u16; 7], opened: u8, s: u8, k: u8) -> bool
        requires { s < 3 }
        ensures { result ≡ slot_at antes self opened s k }
    {
        let ante = at(&antes, k as usize, 0);
        let fold = self.fold_of(k);
        fold_fits(opened, ante, fold) & raise_fits(opened, s, ante, fold, self.raise_on(s, k))
    }

    // What each seat has on street `s` fits.
    fn street_fits(self, antes: [u16; 7], opened: u8, s: u8) -> bool
        requires { s < 3 }
        ensures { result ≡ street_fits antes self opened s }
    {
        (0..7).all(|k| self.slot_fits(antes, opened, s, k))
    }

    // What each seat has on each street fits, where so many streets have opened.
    pub fn fits(self, antes: [u16; 7], opened: u8) -> bool
        ensures { result ≡ play_fits antes self opened }
    {
        (0..3).all(|s| self.street_fits(antes, opened, s))
    }
}
