//! Logs and their lines, spelled out.
#![tactic(auto, unfolding(crate::specs::Examples::digits))]

ghost use Rattle.std.specs.Prelude.{◌≡◌, ◌∷◌, ◌++◌, [], codes};
ghost use Rattle.definitions.specs.declared.level.Level.TheVariants.{High, Low, Unknown};
ghost use Rattle.formats.specs.Bytes.{carriage_return, line, line_feed};
ghost use Rattle.formats.specs.declared.limits.TheConstants.{LOG_LIMIT, LONGEST_NAME, MOST_RECORDS, TIME_LIMIT};
ghost use Rattle.formats.specs.declared.fault.LineFault.TheVariants.{NotRising, Shape};
ghost use Rattle.formats.specs.LogLines.{IsLog, IsRefused, lines_of, without_cr};

/// How much a log may hold, and how long the name of its receiver may be, as it is documented.
pub fn limits_of_logs()
    ensures bytes { LOG_LIMIT ≡ 8_000_000 }
    ensures records { MOST_RECORDS ≡ 200_000 }
    ensures times { TIME_LIMIT ≡ 1_000_000_000_000 }
    ensures name { LONGEST_NAME ≡ 32 }
{}

/// The lines of texts, whose last may lack its LF, and lines without their CR.
pub fn lines_of_texts()
    ensures none { lines_of [] ≡ [] }
    ensures ended { lines_of (line (codes "0 H") ++ line (codes "7 L")) ≡ codes "0 H" ∷ codes "7 L" ∷ [] }
    ensures cut { lines_of (line (codes "0 H") ++ codes "7 L") ≡ codes "0 H" ∷ codes "7 L" ∷ [] }
    ensures blank { lines_of (line [] ++ line []) ≡ [] ∷ [] ∷ [] }
    ensures carriage_return { without_cr (codes "5 H" ++ carriage_return ∷ []) ≡ codes "5 H" }
    ensures only_one { without_cr (codes "5 H" ++ carriage_return ∷ carriage_return ∷ []) ≡ codes "5 H" ++ carriage_return ∷ [] }
{}

/// Logs: lines that end in CR and LF, and one with an empty line, a comment and the greatest time.
pub fn good_logs()
    ensures crlf { IsLog (codes "5 H" ++ carriage_return ∷ line_feed ∷ codes "7 L") ((5, High) ∷ (7, Low) ∷ []) }
    ensures comment { IsLog (line [] ++ line (codes "# x") ++ line (codes "999999999999 X")) ((999_999_999_999, Unknown) ∷ []) }
    ensures empty { IsLog [] [] }
{}

/// First bad lines: a letter that is no level's, which stands before a time that doesn't rise, and such a time.
pub fn bad_lines()
    ensures shape { IsRefused (line (codes "# x") ++ line [] ++ line (codes "5 H") ++ codes "4 Q") 4 Shape }
    ensures rising { IsRefused (line (codes "12 L") ++ line (codes "12 H")) 2 NotRising }
{}
