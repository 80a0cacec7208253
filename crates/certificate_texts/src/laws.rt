//! A law of texts that are read whole.

ghost use Rattle.std.specs.Prelude.{ℕ, ◌≡◌, List};
ghost use Rattle.certificates.specs.Certificates.{Certificate};
ghost use Rattle.certificates.specs.Texts.{Entry, IsText, entries_of};
ghost use Rattle.certificate_texts.specs.Reading.{IsWhole};

/// Where a text was read whole, it is that of a certificate, whose lines are those that it told.
pub fn whole_texts_are_certificates()
    ensures { (bytes : List ℕ) (read : List Entry) → IsWhole bytes read → (c : Certificate) × IsText c bytes × (read ≡ entries_of c) }
{}
