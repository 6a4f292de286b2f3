// Counting, choosing and total access to arrays: what every layer above reads and cites.
//
// specs/ has the definitions: choosing by a test, tests and sums over the numbers below n and over a list, and lists
// that hold the same numbers in another order. proofs/ has their laws, once; the crates above cite the laws and not
// the definitions' texts. `at` and `put` read and write at any place: past the end a read gives what the
// caller names, a write changes nothing and `rest_from` leaves nothing, so that no caller owes a bound. above_of counts what is larger.

#![tactic(auto)]

ghost use Rattle.std.specs.Prelude.{◌≡◌, ◌≤◌, get_or, set, drop};
ghost use Rattle.counting.specs.Choose.{one};
ghost use Rattle.counting.specs.Count.{above};

// A test as a number.
pub fn one_where(test: bool) -> u64
    ensures { (result ≡ one test) × (result ≤ 1) }
{
    test as u64
}

// How many of the numbers are larger than this one. With no branch: which of two is larger can't be foretold.
pub fn above_of(numbers: &[u64], own: u64) -> u64
    ensures { result ≡ above numbers.now own }
{
    let mut count: u64 = 0;
    for number in numbers {
        count += one_where(own < *number);
    }
    count
}

// What stands at a place of a list, and `otherwise` where the list has no such place.
pub fn at<T: Copy>(list: &[T], i: usize, otherwise: T) -> T
    ensures { result ≡ get_or list.now i otherwise }
{
    list.get(i).copied().unwrap_or(otherwise)
}

// A list from a place on, which costs the same wherever the place is; nothing where the list has no such place.
pub fn rest_from<T: Copy>(list: &[T], from: usize) -> &[T]
    ensures { result.now ≡ drop from list.now }
{
    &list[from.min(list.len())..]
}

// The array with `x` at a place, and the same array where it has no such place.
pub fn put<T: Copy, const N: usize>(list: [T; N], i: usize, x: T) -> [T; N]
    ensures { result ≡ set list i x }
{
    let mut new = list;
    if i < N {
        new[i] = x;
    }
    new
}
