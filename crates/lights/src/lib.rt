// Which cards of a hand are lit: those that make its name.
//
// What a hand is called says which of its ranks make the name (Light), and a card is lit where its rank does. The lit cards are one number, the sum of what their places
// count: 1, 2, 4, .. for the first, second, third card. ranks_of gives the ranks in a word (crate words), and sum the number of a hand's cards that have one
// of them; they answer for any bytes, of which none above 51 is lit, and copy no hand. That they are two calls keeps each small enough for a caller's own code.
// specs/Lit.antt has the definitions.

#![tactic(auto)]

ghost use Rattle.std.specs.Prelude.{◌≡◌, Bool, ◌&&◌, [], ◌∷◌, ℕ, ◌*◌, ◌^◌, ◌≤◌, ◌<◌, length, ltb};
ghost use Rattle.counting.specs.Choose.{one};
ghost use Rattle.cards.specs.Card.{rank};
ghost use Rattle.words.specs.Word.{word, Says};
ghost use Rattle.lights.specs.Lit.{makes, lit_sum, places, without};

// Which cards make a name.
#[derive(Clone, Copy)]
pub enum Light {
    All,
    // The four, three or two equal ones; of two pairs both.
    Fours,
    Threes,
    Pairs,
    // The one of this rank.
    High(u8),
    // None.
    Dark,
}

// The ranks that make the name, in a word: the digit 1 at each.
pub fn ranks_of(light: Light, w: u64) -> u64
    ensures { Says 5 w (λ h. word (λ k. one (makes light h k))) result }
{
    match light {
        Light::All => 0x1111111111111,
        Light::Fours => words::fours(w),
        Light::Threes => words::threes(w),
        Light::Pairs => words::twos(w),
        Light::High(top) => words::word_of(top),
        Light::Dark => 0,
    }
}

// What a card adds to the sum: what its place counts, where its rank is one of these.
fn added(ranks: u64, card: u8, counts: u8) -> u8
    ensures most { result ≤ counts }
    ensures sum { (f : ℕ → Bool) → ranks ≡ word (λ k. one (f k)) → result ≡ counts * one (ltb (rank card) 13 && f (rank card)) }
{
    if ranks & words::word1(card) != 0 {
        return counts;
    }
    0
}

// Of up to six cards, those that have one of these ranks.
pub fn sum(ranks: u64, cards: &[u8]) -> u8
    ensures most { result < 2 ^ length cards.now }
    ensures sum { (f : ℕ → Bool) → ranks ≡ word (λ k. one (f k)) → result ≡ lit_sum (λ x. ltb (rank x) 13 && f (rank x)) places cards.now }
{
    let six = &cards[..cards.len().min(6)];
    let mut sum = 0;
    let mut place = 1;
    for card in six {
        sum += added(ranks, *card, place);
        place *= 2;
    }
    sum
}

// Five cards that lie at the places of six but for the one at `out`: from there on each counts twice as much.
pub fn spread(own: u8, out: u8) -> u8
    ensures { (f : ℕ → Bool) (a b c d e : ℕ) → own ≡ lit_sum f places (a ∷ b ∷ c ∷ d ∷ e ∷ []) → result ≡ lit_sum f (without out places) (a ∷ b ∷ c ∷ d ∷ e ∷ []) }
{
    let five = own % 32;
    if out <= 4 {
        return 2 * five - five % (1u8 << out);
    }
    five
}
