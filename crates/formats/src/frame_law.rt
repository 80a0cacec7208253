//! Laws of frames: what a text is is settled by the text, and elements tell one second.

ghost use Rattle.std.specs.Prelude.{◌≡◌, ◌<◌, ◌≤◌, ℕ, List};
ghost use Rattle.signal_base.specs.declared.limits.TheConstants.{MOST_SECONDS, START_LIMIT};
ghost use Rattle.signal_base.specs.declared.window.Window.{Window};
ghost use Rattle.definitions.specs.declared.sequence.Sequence.{Sequence};
ghost use Rattle.definitions.specs.sequences.Walks.{IsWalkable};
ghost use Rattle.formats.specs.declared.frame.Frame.{Frame};
ghost use Rattle.formats.specs.declared.frame.FrameLineFault.{FrameLineFault};
ghost use Rattle.formats.specs.Frames.{elements, frames_text, told_minute, told_second};
ghost use Rattle.formats.specs.FrameTexts.{AreInOrder, HasOutcome, IsRefused, IsSecond, IsTextOf};
ghost use Rattle.formats.specs.FrameWalks.{walk_frames};

/// Each text has exactly one outcome: it is that of one list of frames in order, or it is refused, for one line and in
/// one way. What frames in order are written as is their text, and what a text of frames is read as is written as the
/// same text.
pub fn frames_have_one_outcome()
    ensures some { (text : List ℕ) → HasOutcome text }
    ensures one_list { (text : List ℕ) (a b : List Frame) → IsTextOf a text → IsTextOf b text → a ≡ b }
    ensures one_fault { (text : List ℕ) (m n : ℕ) (a b : FrameLineFault) →
        IsRefused text m a → IsRefused text n b → (m ≡ n) × (a ≡ b) }
    ensures not_both { (text : List ℕ) (frames : List Frame) (line : ℕ) (fault : FrameLineFault) →
        IsTextOf frames text → ¬ (IsRefused text line fault) }
    ensures written { (frames : List Frame) → AreInOrder frames → IsTextOf frames (frames_text frames) }
    ensures same { (text : List ℕ) (frames : List Frame) → IsTextOf frames text → frames_text frames ≡ text }
{}

/// The elements of a second tell its minute and second, so different seconds have different elements.
pub fn elements_tell_their_second()
    ensures minute { (t second : ℕ) → IsSecond t second → told_minute (elements t second) ≡ t }
    ensures second { (t second : ℕ) → IsSecond t second → told_second (elements t second) ≡ second }
{}

/// The frames of a walk, one for each slot of its window, are in order, so their text is read as the walk.
pub fn walks_are_told_by_frames()
    ensures { (window : Window) (q : Sequence) → IsWalkable window q → window.seconds ≤ MOST_SECONDS
        → window.start < START_LIMIT → window.phase < 1000 → IsTextOf (walk_frames window q) (frames_text (walk_frames window q)) }
{}
