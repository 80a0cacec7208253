//! The order of sequences: by cost, then those that aren't announced, then by the first second and minute.

ghost use Rattle.std.specs.Prelude.{◌≡◌, ◌%◌, ◌^◌, ◌<◌, ◌≤◌};
ghost use Rattle.std.specs.Option.{ForSome};
ghost use Rattle.definitions.specs.sequences.Walks.{IsSequence};
ghost use Rattle.definitions.specs.sequences.Keys.{ceiling_key, cost_of, index_end, index_of, key_of, sequence_of};
ghost use Rattle.definitions.specs.answers.FirstTwo.{answer_from};
ghost use Rattle.signal_base.specs.declared.limits.TheConstants.{GREATEST_COST};

use definitions::{Answer, CENTURY_MINUTES, Sequence};

/// The place of a sequence in the order of those that cost the same: `(a * 61 + second) * 52596000 + first`, where
/// `a` is 1 for announced, else 0.
pub fn index(q: &Sequence) -> u64
    requires { IsSequence q.now }
    ensures { result ≡ index_of q.now }
{
    let announced = if q.announced { 61 } else { 0 };
    (announced + q.second as u64) * CENTURY_MINUTES as u64 + q.first as u64
}

/// The place of a sequence in the order of all: `cost * 2^33 + index`. The cost is at most 1,920,000,000.
pub fn key(cost: u32, q: &Sequence) -> u64
    requires sequence { IsSequence q.now }
    requires cost { cost ≤ GREATEST_COST }
    ensures { result ≡ key_of cost q.now }
{
    cost as u64 * (1 << 33) + index(q)
}

/// The key that no sequence of a cost up to the ceiling is above, and each sequence beyond it is; the ceiling is at most
/// 1,920,000,000.
pub fn ceiling_key(ceiling: u32) -> u64
    requires { ceiling ≤ GREATEST_COST }
    ensures { result ≡ ceiling_key ceiling }
{
    ceiling as u64 * (1 << 33) + ((1 << 33) - 1)
}

/// The sequence of a key.
pub fn sequence_of(key: u64) -> Sequence
    requires { key % 2 ^ 33 < index_end }
    ensures { result ≡ sequence_of key }
{
    let index = key % (1 << 33);
    let seconds = index / CENTURY_MINUTES as u64;
    Sequence {
        first: (index % CENTURY_MINUTES as u64) as u32,
        second: (seconds % 61) as u8,
        announced: seconds >= 61,
    }
}

/// The cost of a key.
pub fn cost_of(key: u64) -> u32
    ensures { result ≡ cost_of key }
{
    (key / (1 << 33)) as u32
}

/// The answer where the first two admitted sequences have these keys.
pub fn answer_of(first: Option<u64>, second: Option<u64>) -> Answer
    requires first { ForSome first (λ key. key % 2 ^ 33 < index_end) }
    requires second { ForSome second (λ key. key % 2 ^ 33 < index_end) }
    ensures { result ≡ answer_from first second }
{
    let Some(first) = first else {
        return Answer::Nothing;
    };
    let cost = cost_of(first);
    let sequence = sequence_of(first);
    let Some(second) = second else {
        return Answer::Decided {
            cost,
            sequence,
            next: None,
        };
    };
    let next = cost_of(second);
    if cost < next {
        return Answer::Decided {
            cost,
            sequence,
            next: Some(next),
        };
    }
    Answer::Undecided {
        cost,
        sequence,
        other: sequence_of(second),
    }
}
