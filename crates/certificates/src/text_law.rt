//! A law of the text of certificates: what a text is is settled by the text.

ghost use Rattle.std.specs.Prelude.{◌≡◌, ◌≤◌, ℕ, List, length};
ghost use Rattle.certificates.specs.Certificates.{Certificate, IsSpelled, lines_of};
ghost use Rattle.certificates.specs.Texts.{HasOutcome, IsRefused, IsText, certificate_text};
ghost use Rattle.certificates.specs.declared.fault.CertificateLineFault.{CertificateLineFault};
ghost use Rattle.certificates.specs.declared.limits.TheConstants.{MOST_STEPS};

/// Each text has exactly one outcome: it is that of one certificate, or it is refused, for one line and in one way. What a
/// certificate that isn't too long is written as is its text, and what is read is written as the same text.
pub fn certificate_has_one_outcome()
    ensures some { (text : List ℕ) → HasOutcome text }
    ensures one_certificate { (text : List ℕ) (a b : Certificate) → IsText a text → IsText b text → a ≡ b }
    ensures one_fault { (text : List ℕ) (m n : ℕ) (a b : CertificateLineFault) →
        IsRefused text m a → IsRefused text n b → (m ≡ n) × (a ≡ b) }
    ensures not_both { (text : List ℕ) (c : Certificate) (line : ℕ) (fault : CertificateLineFault) →
        IsText c text → ¬ (IsRefused text line fault) }
    ensures written { (c : Certificate) → IsSpelled c → length (lines_of c) ≤ MOST_STEPS → IsText c (certificate_text c) }
    ensures same { (text : List ℕ) (c : Certificate) → IsText c text → certificate_text c ≡ text }
{}
