//! A field of a telegram: a decimal number whose digits are sent in binary, each bit in a second of its own.

ghost use Rattle.std.specs.Prelude.{◌≡◌, ◌*◌, ◌%◌, ◌<◌, ◌≤◌, IfSome, IsTrue, length, nat_lt};
ghost use Rattle.std.specs.List.{list_all};
ghost use Rattle.definitions.specs.codes.Vocabulary.{carried_bit, digit_bit, ones, weight_of};
ghost use Rattle.telegram_fields.specs.Laying.{laid};

use crate::set::only;
use std::marker::Model;

/// The seconds that carry a number, each with its weight, and the number. The weights 1 to 8 carry its units, 10 to 80
/// its tens, 100 and 200 its hundreds. Contracts see it as the pair of both.
#[derive(Drop)]
pub struct Field<'a> {
    weights: &'a [(u8, u8)],
    value: u16,
}

impl<'a> Model for Field<'a> {
    ghost use Rattle.std.specs.Prelude.{ℕ, List, IsTrue, nat_lt, length, ◌≤◌};
    ghost use Rattle.std.specs.List.{list_all};

    ghost Value = { List (ℕ × ℕ) × ℕ };

    ghost view = { λ f. (f.weights.now, f.value) };

    ghost invariant = { λ f. IsTrue (list_all (λ w. nat_lt 0 w.1) f.weights.now) × (length f.weights.now ≤ 10) };
}

impl<'a> Field<'a> {
    /// The field of these seconds and this number. It has at most ten seconds, and no weight is 0.
    pub fn new(weights: &'a [(u8, u8)], value: u16) -> Field<'a>
        requires positive { IsTrue (list_all (λ w. nat_lt 0 w.1) weights.now) }
        requires few { length weights.now ≤ 10 }
        ensures { result ≡ (weights.now, value) }
    {
        Field { weights, value }
    }

    /// How many ones the field has, at most ten.
    pub fn ones(&self) -> u8
        ensures value { result ≡ ones self.now.0 self.now.1 }
        ensures bound { result ≤ 10 }
    {
        let mut count = 0;
        for weight in self.weights {
            count += digit_bit(self.value, weight.1);
        }
        count
    }

    /// Puts the field's bits into the sets of a telegram, where each second has its own: the symbol 0, or this one in the
    /// place of a one.
    // With the seconds of a table inlined, the loop is unrolled.
    #[inline(always)]
    pub fn lay(&self, sets: &mut [u8; 61], one: u8)
        requires seconds { IsTrue (list_all (λ w. nat_lt w.0 61) self.now.0) }
        requires symbol { one < 8 }
        ensures { sets.new ≡ laid (λ bit. one * bit) self.now.0 self.now.1 sets.old }
    {
        for weight in self.weights {
            sets[weight.0 as usize] = only(one * digit_bit(self.value, weight.1));
        }
    }

    // The weight of the second, if the field has it.
    fn weight_of(&self, second: u8) -> Option<u8>
        ensures value { result ≡ weight_of self.now.0 second }
        ensures positive { IfSome result (λ w. 0 < w) }
    {
        for weight in self.weights {
            if weight.0 == second {
                return Some(weight.1);
            }
        }
        None
    }
}

/// The bit that a second carries: that of the field that has it, and 0 in a second of no field.
pub fn carried_bit(fields: &[Field], second: u8) -> u8
    ensures value { result ≡ carried_bit fields.now second }
    ensures bound { result < 2 }
{
    for field in fields {
        if let Some(weight) = field.weight_of(second) {
            return digit_bit(field.value, weight);
        }
    }
    0
}

// The bit of a number's digits that has this weight.
fn digit_bit(value: u16, weight: u8) -> u8
    requires { 0 < weight }
    ensures value { result ≡ digit_bit value weight }
    ensures bound { result < 2 }
{
    let (digit, weight) = match weight {
        0..=9 => (value % 10, weight),
        10..=99 => (value / 10 % 10, weight / 10),
        _ => (value / 100 % 10, weight / 100),
    };
    (digit / weight as u16 % 2) as u8
}
