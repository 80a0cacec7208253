//! What follows from the rules of what `judge` tells of the certificates of a sweep.

ghost use Rattle.std.specs.Prelude.{ℕ, ◌≡◌, ◌<◌, ◌≤◌, List};
ghost use Rattle.signal_base.specs.declared.window.Window.{Window};
ghost use Rattle.definitions.specs.time.Calendar.{century_minutes};
ghost use Rattle.due.specs.Banks.{Bank};
ghost use Rattle.sweep_due.specs.declared.offsets.TheConstants.{PHASE_LIMIT};
ghost use Rattle.sweep_due.specs.declared.standing.Standing.{Standing};
ghost use Rattle.sweep_due.specs.JudgeRules.{Files, IsJudged, IsNamed, JudgeDue};
ghost use Rattle.sweep_due.specs.Searches.{IsSearched};

use certificates::valid_certificates_name_the_first_two;

/// One thing is told of the certificates of a sweep: what is wrong with the first bad one, or the swept answer.
pub fn one_thing_is_told_of_the_certificates_of_a_sweep()
    ensures some { (window : Window) (bank : Bank) (files : Files) → window.to ≤ century_minutes → window.phase < PHASE_LIMIT
        → (due : JudgeDue) × IsJudged window bank files due }
    ensures one { (window : Window) (bank : Bank) (files : Files) (a b : JudgeDue) → window.to ≤ century_minutes
        → IsJudged window bank files a → IsJudged window bank files b → a ≡ b }
{}

/// The keys that valid certificates name, whoever made them, are put together as those that searches find; so they lead to the
/// swept answer.
pub fn valid_certificates_decide_a_sweep()
    ensures { (window : Window) (bank : Bank) (files : Files) (offsets : List ℕ) (s : Standing)
        → IsNamed window bank files offsets s → IsSearched window bank offsets s }
{
    valid_certificates_name_the_first_two();
}
