//! What follows from the rules of what `check` owes.

ghost use Rattle.std.specs.Prelude.{ℕ, ◌≡◌, ◌≢◌, ◌≤◌, ◌↔◌, ◌++◌, List, Some, codes, length};
ghost use Rattle.signal_base.specs.declared.dut.StationDut.{StationDut};
ghost use Rattle.signal_base.specs.declared.window.Window.{Window};
ghost use Rattle.definitions.specs.declared.answer.Answer.{Answer};
ghost use Rattle.definitions.specs.heard.Logs.{Records};
ghost use Rattle.formats.specs.Bytes.{line};
ghost use Rattle.formats.specs.Reports.{report};
ghost use Rattle.formats.specs.declared.refusal.Refusal.{Refusal};
ghost use Rattle.bank_config.specs.Configuration.{PlainConfig};
ghost use Rattle.certificates.specs.declared.limits.TheConstants.{MOST_STEPS};
ghost use Rattle.certificates.specs.Certificates.{Certificate as PlainCertificate, lines_of};
ghost use Rattle.certificates.specs.Texts.{certificate_text};
ghost use Rattle.due.specs.declared.check_due.CheckDue.TheVariants.{Certified};
ghost use Rattle.due.specs.declared.status.Status.TheVariants.{Done, Failed, NoMemory};
ghost use Rattle.due.specs.Banks.{IsBankAnswer, bank_of, duts_of, window_of};
ghost use Rattle.due.specs.CertificateRules.{AsksCertificate, AsksCheck, CertificateOrder, CheckOrder, IsCertificateDue, certified};
ghost use Rattle.due.specs.Inputs.{Certificate, Contents, Input};
ghost use Rattle.due.specs.Loads.{IsBankLoaded, IsBankRead, IsBankRefused};
ghost use Rattle.check_due.specs.declared.check_owed.CheckOwed.{CheckOwed};
ghost use Rattle.check_due.specs.declared.check_owed.CheckOwed.TheVariants.{Judged};
ghost use Rattle.check_due.specs.CheckPlans.{check_plan};
ghost use Rattle.check_due.specs.CheckRules.{IsCheckDue, IsCheckRead};
ghost use Rattle.check_due.specs.CheckTexts.{owed_status, owed_text};

use due::{certificates_that_are_due_are_certified, one_thing_is_told_of_a_certificate};

/// For all words and contents one thing is due of `check`, so one text and one status: its refusals exclude one another and every
/// judgement of a certificate.
pub fn one_thing_is_due_of_a_check()
    ensures some { (words : List (List ℕ)) (contents : Contents) → (owed : CheckOwed) × IsCheckDue words contents owed }
    ensures one { (words : List (List ℕ)) (contents : Contents) (a b : CheckOwed)
        → IsCheckDue words contents a → IsCheckDue words contents b → a ≡ b }
{
    one_thing_is_told_of_a_certificate();
}

/// Where two contents agree on all that is read for the one, the same is due for both, and the same files are read.
pub fn reads_decide_a_check()
    ensures due { (words : List (List ℕ)) (some other : Contents)
        → ((input : Input) (file : List ℕ) → IsCheckRead words some input file → some input ≡ other input)
        → (owed : CheckOwed) → IsCheckDue words some owed ↔ IsCheckDue words other owed }
    ensures reads { (words : List (List ℕ)) (some other : Contents)
        → ((input : Input) (file : List ℕ) → IsCheckRead words some input file → some input ≡ other input)
        → (input : Input) (file : List ℕ) → IsCheckRead words some input file ↔ IsCheckRead words other input file }
{}

/// That a file fails or memory runs out is never due.
pub fn no_failure_is_due_of_a_check()
    ensures failed { (words : List (List ℕ)) (owed : CheckOwed) → (check_plan words).status owed ≢ Failed }
    ensures memory { (words : List (List ℕ)) (owed : CheckOwed) → (check_plan words).status owed ≢ NoMemory }
{}

/// Where the configuration or a log is refused, no certificate is read; where they are good, the named one is, and no other file as
/// the certificate.
pub fn the_certificate_is_read_last()
    ensures refused { (words : List (List ℕ)) (contents : Contents) (refusal : Refusal) (file : List ℕ)
        → IsBankRefused contents refusal → ¬ (IsCheckRead words contents Certificate file) }
    ensures read { (words : List (List ℕ)) (contents : Contents) (o : CheckOrder) (config : PlainConfig) (records : List Records)
        → AsksCheck words o → IsBankLoaded contents config records → IsCheckRead words contents Certificate o.certificate }
    ensures only { (words : List (List ℕ)) (contents : Contents) (o : CheckOrder) (file : List ℕ)
        → AsksCheck words o → IsCheckRead words contents Certificate file → file ≡ o.certificate }
    ensures bank { (words : List (List ℕ)) (contents : Contents) (o : CheckOrder) (input : Input) (file : List ℕ)
        → AsksCheck words o → input ≢ Certificate → IsCheckRead words contents input file ↔ IsBankRead o.config contents input file }
{}

/// What is certified is the answer for the bank, whoever made the certificate, and the report is that of a decode.
pub fn what_a_check_certifies_is_the_answer()
    ensures { (words : List (List ℕ)) (contents : Contents) (o : CheckOrder) (config : PlainConfig) (records : List Records)
        (window : Window) (answer : Answer) (duts : List StationDut) → AsksCheck words o → IsBankLoaded contents config records
        → IsCheckDue words contents (Judged (Certified window answer duts))
        → (window ≡ window_of o.asked (bank_of config records).receivers) × IsBankAnswer window (bank_of config records) answer
        × (duts ≡ duts_of window (bank_of config records) answer) }
{
    one_thing_is_told_of_a_certificate();
}

/// A `check` that ends with 0 prints that it is certified and the report of the answer for the bank, and nothing else, whoever made
/// the certificate.
pub fn a_check_that_ends_with_0_prints_the_answer()
    ensures { (words : List (List ℕ)) (contents : Contents) (owed : CheckOwed) → IsCheckDue words contents owed → owed_status owed ≡ Done
        → (o : CheckOrder) × AsksCheck words o × ((config : PlainConfig) × (records : List Records) × IsBankLoaded contents config records
        × ((answer : Answer) × IsBankAnswer (window_of o.asked (bank_of config records).receivers) (bank_of config records) answer
        × (owed_text owed ≡ line (codes "certified") ++ report (window_of o.asked (bank_of config records).receivers)
        (duts_of (window_of o.asked (bank_of config records).receivers) (bank_of config records) answer) answer))) }
{
    one_thing_is_told_of_a_certificate();
}

/// A certificate that a decode wrote, with at most 2,000,000 steps, is certified by a `check` of the same window and bank, which tells
/// the answer.
pub fn written_certificates_are_certified()
    ensures { (words later : List (List ℕ)) (contents others : Contents) (o : CertificateOrder) (asked : CheckOrder)
        (config : PlainConfig) (records : List Records) (c : PlainCertificate) (answer : Answer)
        → AsksCertificate words o → IsBankLoaded contents config records → IsCertificateDue words contents (Some c) → length (lines_of c) ≤ MOST_STEPS
        → AsksCheck later asked → asked.asked ≡ o.asked → IsBankLoaded others config records → others Certificate ≡ certificate_text c
        → IsBankAnswer (window_of o.asked (bank_of config records).receivers) (bank_of config records) answer
        → IsCheckDue later others (Judged (certified (window_of o.asked (bank_of config records).receivers) (bank_of config records) answer)) }
{
    certificates_that_are_due_are_certified();
}
