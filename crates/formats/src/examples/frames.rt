//! Frames of IRIG-B, spelled out. The elements were worked out from the published table, apart from these definitions.
#![tactic(auto, unfolding(crate::specs::Examples::digits, definitions::specs::time::Calendar::day_at))]

ghost use Rattle.std.specs.Prelude.{◌≡◌, ℕ, List, [], ◌∷◌, ◌++◌, codes, length, set, take};
ghost use Rattle.definitions.specs.examples.Dates.{at, on};
ghost use Rattle.formats.specs.Bytes.{line};
ghost use Rattle.formats.specs.declared.frame.Frame.{Frame};
ghost use Rattle.formats.specs.declared.frame.FrameLineFault.TheVariants.{Meaning, Shape, Timing, TooManyFrames};
ghost use Rattle.formats.specs.declared.frame.TheConstants.{EDGE_LIMIT, FRAMES_LIMIT, FRAME_LIMIT, FRAME_TIME, MOST_FRAMES};
ghost use Rattle.formats.specs.Examples.{frame_at, signs};
ghost use Rattle.formats.specs.Frames.{elements, frame_line, frame_text, frames_text, pulses};
ghost use Rattle.formats.specs.FrameTexts.{AreInOrder, IsRefused, IsSecond, IsTextOf};
ghost use Rattle.formats.specs.Refusals.{frame_fault_line, frames_too_large};

/// How much a text of frames may hold, and when frames begin, as it is documented.
pub fn limits_of_frames()
    ensures bytes { FRAMES_LIMIT ≡ 8_000_000 }
    ensures frames { MOST_FRAMES ≡ 1_200 }
    ensures starts { FRAME_LIMIT ≡ 2_000_000_000_000 }
    ensures edges { EDGE_LIMIT ≡ 10_000_000_000_000 }
    ensures apart { FRAME_TIME ≡ 1_000 }
{}

/// The elements of a second of summer, of a leap second, of the last second of a year, and of the first of all.
pub fn element_tables()
    ensures june { signs (elements (at (on 2024 6 10) 6 16) 0)
        ≡ codes "M00000000M011001000M011000000M010000110M100000000M001000100M000000000M000000000M000001000M001101000M" }
    ensures leap_second { signs (elements (at (on 2016 12 31) 23 59) 60)
        ≡ codes "M00000011M100101010M110000100M011000110M110000000M011001000M000000000M000000000M000000011M000101010M" }
    ensures year_end { signs (elements (at (on 2023 12 31) 23 59) 59)
        ≡ codes "M10010101M100101010M110000100M101000110M110000000M110000100M000000000M000000000M111111101M000101010M" }
    ensures first { signs (elements (at (on 2000 1 1) 0 0) 0)
        ≡ codes "M00000000M000000000M000000000M100000000M000000000M000000000M000000000M000000000M000000000M000000000M" }
{}

/// Four seconds more, the last of the century among them. Any two elements that carry bits of one number differ in some second of
/// these and of those above, so that no two can be exchanged.
pub fn elements_told_apart()
    ensures century_end { signs (elements (at (on 2099 12 31) 23 59) 60)
        ≡ codes "M00000011M100101010M110000100M101000110M110000000M100101001M000000000M000000000M000000011M000101010M" }
    ensures may { signs (elements (at (on 2000 5 4) 13 21) 43)
        ≡ codes "M11000001M100000100M110001000M101000100M100000000M000000000M000000000M000000000M111001111M101110100M" }
    ensures november { signs (elements (at (on 2003 11 9) 14 26) 14)
        ≡ codes "M00100100M011000100M001001000M110001000M110000000M110000000M000000000M000000000M011000001M101001100M" }
    ensures march { signs (elements (at (on 2008 3 9) 7 53) 49)
        ≡ codes "M10010001M110001010M111000000M100100110M000000000M000100000M000000000M000000000M101100001M111011000M" }
{}

/// The first lines of a frame, the pulses of a one, and what is printed of frames that were read.
pub fn frame_lines()
    ensures first { take 18 (frame_text (frame_at 0 (at (on 2024 6 10) 6 16) 0))
        ≡ line (codes "0 H") ++ line (codes "8 L") ++ line (codes "10 H") ++ line (codes "12 L") }
    ensures one { pulses 119010 (1 ∷ 2 ∷ []) ≡ line (codes "119010 H") ++ line (codes "119015 L") ++ line (codes "119020 H") ++ line (codes "119028 L") }
    ensures printed { frame_line (frame_at 119000 (at (on 2024 6 10) 6 17) 59) ≡ line (codes "at 119000 2024-06-10T06:17Z 59") }
    ensures leap { frame_line (frame_at 60237 (at (on 2016 12 31) 23 59) 60) ≡ line (codes "at 60237 2016-12-31T23:59Z 60") }
{}

/// Texts of frames: of none, and of two that begin a second apart. Second 60 is one of a minute that ends a year, and of
/// no minute in the morning.
pub fn good_frames()
    ensures none { IsTextOf [] [] }
    ensures two { IsTextOf (frame_at 0 (at (on 2024 6 10) 6 16) 0 ∷ frame_at 1000 (at (on 2024 6 10) 6 16) 1 ∷ [])
        (frame_text (frame_at 0 (at (on 2024 6 10) 6 16) 0) ++ frame_text (frame_at 1000 (at (on 2024 6 10) 6 16) 1)) }
    ensures leap_second { IsSecond (at (on 2016 12 31) 23 59) 60 }
    ensures no_leap_second { ¬ (IsSecond (at (on 2024 6 10) 6 16) 60) }
{}

/// First bad lines. A frame that begins 999 ms after the one before is refused where it begins, one whose digits tell second 1
/// and whose straight binary seconds tell second 0 where it ends.
pub fn bad_frames()
    ensures level { IsRefused (line (codes "0 L")) 1 Shape }
    ensures zeros { IsRefused (line (codes "00 H")) 1 Shape }
    ensures digits { IsRefused (line (codes "10000000000000 H")) 1 Shape }
    ensures unended { IsRefused (codes "0 H") 1 Shape }
    ensures missing { IsRefused (line (codes "0 H")) 2 Shape }
    ensures shape_first { IsRefused (line (codes "0 H") ++ line (codes "9 H")) 2 Shape }
    ensures late { IsRefused (line (codes "2000000000000 H")) 1 Timing }
    ensures width { (rest : List ℕ) → IsRefused (line (codes "0 H") ++ line (codes "9 L") ++ rest) 2 Timing }
    ensures early { IsRefused (frame_text (frame_at 0 (at (on 2024 6 10) 6 16) 0) ++ line (codes "999 H")) 201 Timing }
    ensures meaning { IsRefused (pulses 0 (set (elements (at (on 2024 6 10) 6 16) 0) 1 1)) 200 Meaning }
    ensures many { (frames : List Frame) → AreInOrder frames → length frames ≡ MOST_FRAMES
        → IsRefused (frames_text frames ++ line (codes "1999999999999 H")) 240001 TooManyFrames }
{}

/// The line of each refusal.
pub fn refused_frames()
    ensures large { frames_too_large ≡ line (codes "frames: too large") }
    ensures shape { frame_fault_line 24000 Shape ≡ line (codes "frames: line 24000: shape") }
    ensures many { frame_fault_line 240001 TooManyFrames ≡ line (codes "frames: line 240001: too many frames") }
    ensures timing { frame_fault_line 2 Timing ≡ line (codes "frames: line 2: timing") }
    ensures meaning { frame_fault_line 200 Meaning ≡ line (codes "frames: line 200: meaning") }
{}
