//! What is known of a sweep after some of its searches: the first two sequences so far.

ghost use Rattle.std.specs.Prelude.{◌≡◌};
ghost use Rattle.sweep_due.specs.Standings.{beside, first_key, is_same_sequence, lesser_of, nothing_yet, sooner, with_key, with_one, with_two};

/// A key, and the least offset at which a sequence has it.
#[derive(Clone, Copy)]
pub struct Placed {
    /// The key.
    pub key: u64,
    /// The offset, from 0 to 10.
    pub offset: u8,
}

/// The least of the keys that sequences have at the offsets so far, and the least key of another sequence.
#[derive(Clone, Copy)]
pub struct Standing {
    /// The least key, if there is any.
    pub first: Option<Placed>,
    /// The least of the keys of other sequences, if there is any.
    pub second: Option<u64>,
}

impl Standing {
    /// Before any search.
    pub fn new() -> Standing
        ensures { result ≡ nothing_yet }
    {
        Standing {
            first: None,
            second: None,
        }
    }

    /// The least key.
    pub fn first_key(self) -> Option<u64>
        ensures { result ≡ first_key self }
    {
        match self.first {
            Some(placed) => Some(placed.key),
            None => None,
        }
    }

    /// What is known once a search at an offset has found these two keys, as far as there are any.
    pub fn with_two(self, offset: u8, first: Option<u64>, second: Option<u64>) -> Standing
        ensures { result ≡ with_two self offset first second }
    {
        with_one(with_one(self, offset, first), offset, second)
    }
}

fn with_one(standing: Standing, offset: u8, key: Option<u64>) -> Standing
    ensures { result ≡ with_one standing offset key }
{
    match key {
        Some(key) => with_key(standing, offset, key),
        None => standing,
    }
}

fn with_key(standing: Standing, offset: u8, key: u64) -> Standing
    ensures { result ≡ with_key standing offset key }
{
    let placed = Placed { key, offset };
    match standing.first {
        Some(first) => beside(first, standing.second, placed),
        None => Standing {
            first: Some(placed),
            second: None,
        },
    }
}

// One key more than the first two so far.
fn beside(first: Placed, second: Option<u64>, placed: Placed) -> Standing
    ensures { result ≡ beside first second placed }
{
    if is_same_sequence(first.key, placed.key) {
        return Standing {
            first: Some(sooner(first, placed)),
            second,
        };
    }
    if placed.key < first.key {
        return Standing {
            first: Some(placed),
            second: Some(first.key),
        };
    }
    Standing {
        first: Some(first),
        second: Some(lesser_of(second, placed.key)),
    }
}

fn is_same_sequence(key: u64, other: u64) -> bool
    ensures { result ≡ is_same_sequence key other }
{
    key % (1 << 33) == other % (1 << 33)
}

// The one with the lesser key, and of one key the one with the lesser offset.
fn sooner(first: Placed, other: Placed) -> Placed
    ensures { result ≡ sooner first other }
{
    if other.key < first.key {
        return other;
    }
    if other.key == first.key && other.offset < first.offset {
        return other;
    }
    first
}

fn lesser_of(second: Option<u64>, key: u64) -> u64
    ensures { result ≡ lesser_of second key }
{
    match second {
        Some(second) => second.min(key),
        None => key,
    }
}
