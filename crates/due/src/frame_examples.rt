//! Worked examples of what is due of the commands of frames.
#![tactic(auto, unfolding(crate::specs::Examples::digits))]

ghost use Rattle.std.specs.Prelude.{ℕ, ◌≡◌, ◌<◌, [], ◌∷◌, ◌++◌, None, Option, codes, false, length};
ghost use Rattle.signal_base.specs.declared.window.Window.{Window};
ghost use Rattle.definitions.specs.declared.answer.Answer.TheVariants as answer;
ghost use Rattle.definitions.specs.declared.sequence.Sequence.{Sequence};
ghost use Rattle.definitions.specs.examples.Dates.{at, on};
ghost use Rattle.formats.specs.Bytes.{line};
ghost use Rattle.formats.specs.Examples.{frame_at};
ghost use Rattle.formats.specs.WordExamples.{asked, words_in};
ghost use Rattle.formats.specs.declared.frame.FrameLineFault.TheVariants.{Shape, Timing};
ghost use Rattle.formats.specs.declared.option.OptionName.TheVariants.{Seconds};
ghost use Rattle.formats.specs.declared.refusal.Refusal.TheVariants.{LogTooLarge, WordsBad, WordsUsage};
ghost use Rattle.due.specs.declared.due.Due.TheVariants.{Refused, Report};
ghost use Rattle.due.specs.declared.frame_due.FrameDue.TheVariants.{BadLine, Frames, Read, Told, TooLarge};
ghost use Rattle.due.specs.declared.status.Status.TheVariants.{BadFrames, BadLog, Done};
ghost use Rattle.due.specs.Banks.{Bank, duts_of};
ghost use Rattle.due.specs.FrameDues.{frame_due_text, frame_outputs, frame_status};
ghost use Rattle.due.specs.FrameOrders.{AsksFrames, AsksReading};
ghost use Rattle.due.specs.FrameRules.{IsFrameDue, IsFrameRead, framed};
ghost use Rattle.due.specs.Inputs.{Contents, FramesText};
ghost use Rattle.due.specs.Status.{code_of};

/// With which status a run ends that told this.
pub fn numbers_of_frame_statuses()
    ensures frames { (window : Window) (q : Sequence) → frame_status (Frames window q) ≡ Done }
    ensures read { frame_status (Read []) ≡ Done }
    ensures large { frame_status TooLarge ≡ BadFrames }
    ensures line { frame_status (BadLine 2 Timing) ≡ BadFrames }
    ensures log { frame_status (Told (Refused (LogTooLarge 1 (codes "a")))) ≡ BadLog }
    ensures number { code_of BadFrames ≡ 10 }
{}

/// Words that are refused, whatever the files hold.
pub fn refused_words_of_frames()
    ensures none { (contents : Contents) → IsFrameDue [] contents (Told (Refused WordsUsage)) }
    ensures place { (contents : Contents) → IsFrameDue (words_in (codes "irig")) contents (Told (Refused WordsUsage)) }
    ensures other { (contents : Contents) → IsFrameDue (words_in (codes "follow k.toml")) contents (Told (Refused WordsUsage)) }
    ensures option { (contents : Contents) → IsFrameDue (words_in (codes "irig-read f.txt --seconds 60")) contents (Told (Refused WordsUsage)) }
    ensures seconds { (contents : Contents) → IsFrameDue (words_in (codes "irig k.toml --seconds 59")) contents (Told (Refused (WordsBad Seconds))) }
{}

/// What words ask: for the frames of an answer, or for what frames tell.
pub fn what_is_asked_of_frames()
    ensures irig { AsksFrames (words_in (codes "irig k.toml --seconds 120")) (codes "k.toml") (asked None 120 0 52_596_000) }
    ensures read { AsksReading (words_in (codes "irig-read f.txt")) (codes "f.txt") }
{}

/// A decided answer is told by its frames, any other by its report; the text is added to standard output.
pub fn printed_answers()
    ensures decided { (window : Window) (bank : Bank) (q : Sequence) (next : Option ℕ) → framed window bank (answer.Decided 7 q next) ≡ Frames window q }
    ensures tie { (window : Window) (bank : Bank) (q r : Sequence)
        → framed window bank (answer.Undecided 7 q r) ≡ Told (Report window (answer.Undecided 7 q r) []) }
    ensures nothing { (window : Window) (bank : Bank) → framed window bank answer.Nothing ≡ Told (Report window answer.Nothing []) }
    ensures written { frame_outputs TooLarge ≡ record { file = codes "-"; anew = false; text = line (codes "frames: too large") } ∷ [] }
{}

/// A text that is too large is refused for that, and else for its first bad line. A text without frames tells none.
pub fn refused_frames()
    ensures large { (contents : Contents) → 8_000_000 < length (contents FramesText) → IsFrameDue (words_in (codes "irig-read f.txt")) contents TooLarge }
    ensures level { (contents : Contents) → contents FramesText ≡ line (codes "0 L") → IsFrameDue (words_in (codes "irig-read f.txt")) contents (BadLine 1 Shape) }
    ensures none { (contents : Contents) → contents FramesText ≡ [] → IsFrameDue (words_in (codes "irig-read f.txt")) contents (Read []) }
    ensures text { frame_due_text (BadLine 2 Timing) ≡ line (codes "frames: line 2: timing") }
{}

/// Of each frame that was read one line tells when it began and its second. Words that ask for that read no other file.
pub fn two_frames_that_are_read()
    ensures text { frame_due_text (Read (frame_at 0 (at (on 2024 6 10) 6 16) 0 ∷ frame_at 119000 (at (on 2024 6 10) 6 17) 59 ∷ []))
        ≡ line (codes "at 0 2024-06-10T06:16Z 0") ++ line (codes "at 119000 2024-06-10T06:17Z 59") }
    ensures file { (contents : Contents) → IsFrameRead (words_in (codes "irig-read f.txt")) contents FramesText (codes "f.txt") }
    ensures other { (contents : Contents) → ¬ (IsFrameRead (words_in (codes "irig-read f.txt")) contents FramesText (codes "g.txt")) }
{}
