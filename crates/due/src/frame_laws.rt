//! What follows from the rules of what the commands of frames owe.

ghost use Rattle.std.specs.Prelude.{ℕ, ◌≡◌, ◌≢◌, ◌↔◌, List};
ghost use Rattle.signal_base.specs.declared.window.Window.{Window};
ghost use Rattle.definitions.specs.declared.sequence.Sequence.{Sequence};
ghost use Rattle.formats.specs.FrameTexts.{IsTextOf};
ghost use Rattle.formats.specs.FrameWalks.{walk_frames};
ghost use Rattle.due.specs.declared.frame_due.FrameDue.{FrameDue};
ghost use Rattle.due.specs.declared.frame_due.FrameDue.TheVariants.{Frames, Read};
ghost use Rattle.due.specs.declared.status.Status.TheVariants.{Failed, NoMemory};
ghost use Rattle.due.specs.FrameDues.{frame_due_text, frame_status};
ghost use Rattle.due.specs.FrameOrders.{AsksReading};
ghost use Rattle.due.specs.FrameRules.{IsFrameDue, IsFrameRead};
ghost use Rattle.due.specs.Inputs.{Contents, FramesText, Input};

/// For all words and contents one thing is due of the commands of frames, so one text and one status.
pub fn one_thing_is_due_of_frames()
    ensures some { (words : List (List ℕ)) (contents : Contents) → (due : FrameDue) × IsFrameDue words contents due }
    ensures one { (words : List (List ℕ)) (contents : Contents) (a b : FrameDue)
        → IsFrameDue words contents a → IsFrameDue words contents b → a ≡ b }
{}

/// Where two contents agree on all that is read for the one, the same is due for both, and the same files are read.
pub fn reads_decide_frames()
    ensures due { (words : List (List ℕ)) (some other : Contents)
        → ((input : Input) (file : List ℕ) → IsFrameRead words some input file → some input ≡ other input)
        → (due : FrameDue) → IsFrameDue words some due ↔ IsFrameDue words other due }
    ensures reads { (words : List (List ℕ)) (some other : Contents)
        → ((input : Input) (file : List ℕ) → IsFrameRead words some input file → some input ≡ other input)
        → (input : Input) (file : List ℕ) → IsFrameRead words some input file ↔ IsFrameRead words other input file }
{}

/// That a file fails or memory runs out is never due.
pub fn no_failure_is_due_of_frames()
    ensures failed { (due : FrameDue) → frame_status due ≢ Failed }
    ensures memory { (due : FrameDue) → frame_status due ≢ NoMemory }
{}

/// What is printed of a decided answer is the text of frames that tell the seconds of the walk that was decided on, one for
/// each slot of the window. Words that ask what the frames in a file tell owe these frames, where the file holds that text.
pub fn printed_frames_are_read_as_the_walk()
    ensures text { (words : List (List ℕ)) (contents : Contents) (window : Window) (q : Sequence)
        → IsFrameDue words contents (Frames window q) → IsTextOf (walk_frames window q) (frame_due_text (Frames window q)) }
    ensures read { (words reading : List (List ℕ)) (contents later : Contents) (window : Window) (q : Sequence) (file : List ℕ)
        → IsFrameDue words contents (Frames window q) → AsksReading reading file
        → later FramesText ≡ frame_due_text (Frames window q) → IsFrameDue reading later (Read (walk_frames window q)) }
{}
