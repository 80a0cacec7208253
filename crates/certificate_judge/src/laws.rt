//! A law of what comes of a text.

ghost use Rattle.std.specs.Prelude.{ℕ, ◌≡◌, List, Some, None};
ghost use Rattle.signal_base.specs.declared.window.Window.{Window};
ghost use Rattle.definitions.specs.heard.Costs.{Costs};
ghost use Rattle.formats.specs.Refusals.{CertificateFault};
ghost use Rattle.certificates.specs.Judged.{IsBadCertificate, IsGoodCertificate};
ghost use Rattle.certificate_judge.specs.declared.outcome.Outcome.{Outcome};
ghost use Rattle.certificate_judge.specs.Outcomes.{IsOutcome, first_named, outcome_fault, second_named};

use definitions::{bound_exists, bound_is_one};

/// Exactly one outcome comes of bytes. It tells the fault that is told of them as a certificate, or they are a valid one, which
/// names its keys.
pub fn bytes_have_one_outcome()
    ensures some { (costs : Costs) (window : Window) (ceiling : ℕ) (bytes : List ℕ) → (o : Outcome) × IsOutcome costs window ceiling bytes o }
    ensures one { (costs : Costs) (window : Window) (ceiling : ℕ) (bytes : List ℕ) (a b : Outcome)
        → IsOutcome costs window ceiling bytes a → IsOutcome costs window ceiling bytes b → a ≡ b }
    ensures bad { (costs : Costs) (window : Window) (ceiling : ℕ) (bytes : List ℕ) (o : Outcome) (fault : CertificateFault)
        → IsOutcome costs window ceiling bytes o → outcome_fault o ≡ Some fault → IsBadCertificate costs window ceiling bytes fault }
    ensures good { (costs : Costs) (window : Window) (ceiling : ℕ) (bytes : List ℕ) (o : Outcome)
        → IsOutcome costs window ceiling bytes o → outcome_fault o ≡ None
        → IsGoodCertificate costs window ceiling bytes (first_named o) (second_named o) }
{
    bound_exists();
    bound_is_one();
}
