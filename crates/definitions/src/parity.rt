//! What the numbers and the parity bits of the telegrams make sure of.

ghost use Rattle.std.specs.Prelude.{ℕ, ◌≡◌, ◌<◌, Bool, map};
ghost use Rattle.signal_base.specs.declared.station.Station.TheVariants.{Dcf77, Jjy, Msf};
ghost use Rattle.definitions.specs.declared.dcf77.DcfFacts.{DcfFacts};
ghost use Rattle.definitions.specs.declared.jjy.JjyFacts.{JjyFacts};
ghost use Rattle.definitions.specs.declared.msf.MsfFacts.{MsfFacts};
ghost use Rattle.definitions.specs.declared.wwvb.WwvbFacts.{WwvbFacts};
ghost use Rattle.definitions.specs.codes.Allowed.{allowed};
ghost use Rattle.definitions.specs.codes.Dcf77.{dcf_fields};
ghost use Rattle.definitions.specs.codes.Jjy.{jjy_fields};
ghost use Rattle.definitions.specs.codes.Msf.{msf_fields};
ghost use Rattle.definitions.specs.codes.Parity.{IsEvenGroup, IsOddGroup, sent_in};
ghost use Rattle.definitions.specs.codes.Vocabulary.{value_of, weight_of_ones};
ghost use Rattle.definitions.specs.codes.Wwvb.{wwvb_fields};

/// The weights of a field's ones add up to its number, in each field of each station.
pub fn weights_add_up()
    ensures dcf77 { (f : DcfFacts) → f.minute < 60 → f.hour < 24 → f.day < 32 → f.weekday < 7 → f.month < 13 → f.year < 100
        → map weight_of_ones (dcf_fields f) ≡ map value_of (dcf_fields f) }
    ensures msf { (f : MsfFacts) → f.minute < 60 → f.hour < 24 → f.day < 32 → f.weekday < 7 → f.month < 13 → f.year < 100
        → map weight_of_ones (msf_fields f) ≡ map value_of (msf_fields f) }
    ensures wwvb { (f : WwvbFacts) → f.minute < 60 → f.hour < 24 → f.day_of_year < 367 → f.year < 100
        → map weight_of_ones (wwvb_fields f) ≡ map value_of (wwvb_fields f) }
    ensures jjy { (f : JjyFacts) → f.minute < 60 → f.hour < 24 → f.day_of_year < 367 → f.year < 100 → f.weekday < 7
        → map weight_of_ones (jjy_fields f) ≡ map value_of (jjy_fields f) }
{}

/// In each minute of DCF77 the seconds 21 to 28, 29 to 35 and 36 to 58 may carry one bit each, and in each of these groups
/// an even number of ones.
pub fn dcf77_groups_are_even()
    ensures minute { (announced : Bool) (t : ℕ) → IsEvenGroup (λ s. allowed Dcf77 announced (t, s)) 21 7 28 }
    ensures hour { (announced : Bool) (t : ℕ) → IsEvenGroup (λ s. allowed Dcf77 announced (t, s)) 29 6 35 }
    ensures date { (announced : Bool) (t : ℕ) → IsEvenGroup (λ s. allowed Dcf77 announced (t, s)) 36 22 58 }
{}

/// In each minute of MSF the bits A of some code seconds have, with a bit B of parity, an odd number of ones: 17 to 24 with
/// 54, 25 to 35 with 55, 36 to 38 with 56, 39 to 51 with 57. In a minute of 61 seconds each is sent one second later.
pub fn msf_groups_are_odd()
    ensures year { (announced : Bool) (t : ℕ) → IsOddGroup (λ s. allowed Msf announced (t, s)) (sent_in announced t 17) 8 (sent_in announced t 54) }
    ensures date { (announced : Bool) (t : ℕ) → IsOddGroup (λ s. allowed Msf announced (t, s)) (sent_in announced t 25) 11 (sent_in announced t 55) }
    ensures weekday { (announced : Bool) (t : ℕ) → IsOddGroup (λ s. allowed Msf announced (t, s)) (sent_in announced t 36) 3 (sent_in announced t 56) }
    ensures time { (announced : Bool) (t : ℕ) → IsOddGroup (λ s. allowed Msf announced (t, s)) (sent_in announced t 39) 13 (sent_in announced t 57) }
{}

/// In each minute of JJY the seconds 12 to 18 with 36, and 1 to 8 with 37, may carry one bit each, and an even number of
/// ones.
pub fn jjy_groups_are_even()
    ensures hour { (announced : Bool) (t : ℕ) → IsEvenGroup (λ s. allowed Jjy announced (t, s)) 12 7 36 }
    ensures minute { (announced : Bool) (t : ℕ) → IsEvenGroup (λ s. allowed Jjy announced (t, s)) 1 8 37 }
{}
