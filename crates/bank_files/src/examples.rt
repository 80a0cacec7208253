//! What is told of a file over calls: worked examples that the checker computes from the definitions alone.

ghost use Rattle.std.specs.Prelude.{codes};
ghost use Rattle.bank_files.specs.Fault.{HasFault, greatest};
ghost use Rattle.bank_files.specs.Told.{AppendsFront, Holds, Missing, Tells, Told, Untold};

/// When a file is as expected, as far as it is told: never with other bytes, made or removed. What wasn't told isn't told later.
pub fn what_is_told_of_a_file()
    ensures same { (told : Told) → Tells told told }
    ensures told_no_more { (told : Told) → Tells told Untold }
    ensures cut_off { ¬ (Tells (Holds (codes "ab")) (Holds (codes "a"))) }
    ensures emptied { ¬ (Tells (Holds (codes "ab")) (Holds (codes ""))) }
    ensures made { ¬ (Tells Missing (Holds (codes ""))) }
    ensures removed { ¬ (Tells (Holds (codes "")) Missing) }
    ensures learned { ¬ (Tells Untold (Holds (codes ""))) }
{}

/// What a write of two letters that failed may leave of them behind an `x`, and what not: another letter, both of them twice, or
/// both in place of what was there.
pub fn what_a_failed_write_leaves()
    ensures nothing { AppendsFront (Holds (codes "x")) (codes "ab") (Holds (codes "x")) }
    ensures front { AppendsFront (Holds (codes "x")) (codes "ab") (Holds (codes "xa")) }
    ensures made { AppendsFront Missing (codes "ab") (Holds (codes "")) }
    ensures other_letter { ¬ (AppendsFront (Holds (codes "x")) (codes "ab") (Holds (codes "xb"))) }
    ensures twice { ¬ (AppendsFront (Holds (codes "x")) (codes "ab") (Holds (codes "xabab"))) }
    ensures in_its_place { ¬ (AppendsFront (Holds (codes "x")) (codes "ab") (Holds (codes "ab"))) }
{}

/// A count tells of a fault where it rose, or can't rise.
pub fn what_tells_of_a_fault()
    ensures risen { HasFault 1 2 }
    ensures full { HasFault greatest greatest }
    ensures same { ¬ (HasFault 1 1) }
    ensures fallen { ¬ (HasFault 2 1) }
{}
