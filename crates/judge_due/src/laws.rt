//! What follows from the rules of what `judge` owes.

ghost use Rattle.std.specs.Prelude.{ℕ, ◌≡◌, ◌≢◌, ◌≤◌, ◌↔◌, List};
ghost use Rattle.signal_base.specs.declared.dut.StationDut.{StationDut};
ghost use Rattle.signal_base.specs.declared.window.Window.{Window};
ghost use Rattle.definitions.specs.declared.answer.Answer.{Answer};
ghost use Rattle.definitions.specs.heard.Logs.{Records};
ghost use Rattle.formats.specs.declared.refusal.Refusal.{Refusal};
ghost use Rattle.formats.specs.Refusals.{CertificateFault};
ghost use Rattle.bank_config.specs.Configuration.{PlainConfig};
ghost use Rattle.certificates.specs.Certificates.{Certificate};
ghost use Rattle.due.specs.declared.due.Due.TheVariants.{Report};
ghost use Rattle.due.specs.declared.status.Status.TheVariants.{Failed, NoMemory};
ghost use Rattle.due.specs.Banks.{bank_of, duts_of, window_of};
ghost use Rattle.due.specs.Inputs.{CertificateAt, Contents, Input};
ghost use Rattle.due.specs.Loads.{IsBankLoaded, IsBankRead, IsBankRefused};
ghost use Rattle.sweep_due.specs.CertificateNames.{file_at};
ghost use Rattle.sweep_due.specs.JudgeRules.{AreGood, AsksJudge, IsFirstBad, JudgeOrder};
ghost use Rattle.sweep_due.specs.JudgeRules.JudgeDue.{Certified};
ghost use Rattle.sweep_due.specs.Phases.{IsSwept, swept_offsets};
ghost use Rattle.sweep_due.specs.SweepCertificates.{AreCertificates, AsksCertificates, CertificatesOrder};
ghost use Rattle.sweep_due.specs.SweepRules.{IsSweepReport};
ghost use Rattle.sweep_due.specs.Swept.{IsSweptAnswer, IsToldWindow};
ghost use Rattle.judge_due.specs.JudgeDues.{IsJudgeDue, IsJudgeRead, IsOffsetRead, files_in};
ghost use Rattle.judge_due.specs.JudgePlans.{judge_plan};
ghost use Rattle.judge_due.specs.JudgeTexts.{JudgeOwed};
ghost use Rattle.judge_due.specs.JudgeTexts.JudgeOwed.{Judged};
ghost use Rattle.judge_due.specs.Written.{AreShort, AreWritten};

use block_visits::blocks_share_the_sequences;
use sweep_due::one_thing_is_told_of_the_certificates_of_a_sweep;

/// For all words and contents one thing is due of `judge`, so one text and one status: its refusals exclude one another and every
/// judgement of certificates.
pub fn one_thing_is_due_of_a_judgement()
    ensures some { (words : List (List ℕ)) (contents : Contents) → (owed : JudgeOwed) × IsJudgeDue words contents owed }
    ensures one { (words : List (List ℕ)) (contents : Contents) (a b : JudgeOwed)
        → IsJudgeDue words contents a → IsJudgeDue words contents b → a ≡ b }
{
    one_thing_is_told_of_the_certificates_of_a_sweep();
}

/// Where two contents agree on all that is read for the one, the same is due for both, and the same files are read.
pub fn reads_decide_a_judgement()
    ensures due { (words : List (List ℕ)) (some other : Contents)
        → ((input : Input) (file : List ℕ) → IsJudgeRead words some input file → some input ≡ other input)
        → (owed : JudgeOwed) → IsJudgeDue words some owed ↔ IsJudgeDue words other owed }
    ensures reads { (words : List (List ℕ)) (some other : Contents)
        → ((input : Input) (file : List ℕ) → IsJudgeRead words some input file → some input ≡ other input)
        → (input : Input) (file : List ℕ) → IsJudgeRead words some input file ↔ IsJudgeRead words other input file }
{}

/// That a file fails or memory runs out is never due.
pub fn no_failure_is_due_of_a_judgement()
    ensures failed { (words : List (List ℕ)) (owed : JudgeOwed) → (judge_plan words).status owed ≢ Failed }
    ensures memory { (words : List (List ℕ)) (owed : JudgeOwed) → (judge_plan words).status owed ≢ NoMemory }
{}

/// Where the configuration or a log is refused, no certificate is read. Where they are good, the certificate of a swept offset is
/// read from the file of its name if all before it are valid, so that the first bad one is the last that is read.
pub fn certificates_are_read_in_their_order()
    ensures refused { (words : List (List ℕ)) (contents : Contents) (refusal : Refusal) (offset : ℕ) (file : List ℕ)
        → IsBankRefused contents refusal → ¬ (IsJudgeRead words contents (CertificateAt offset) file) }
    ensures read { (words : List (List ℕ)) (contents : Contents) (o : JudgeOrder) (config : PlainConfig) (records : List Records) (offset : ℕ)
        → AsksJudge words o → IsBankLoaded contents config records
        → IsJudgeRead words contents (CertificateAt offset) (file_at o.name offset) ↔ IsOffsetRead o (bank_of config records) (files_in contents) offset }
    ensures only { (words : List (List ℕ)) (contents : Contents) (o : JudgeOrder) (config : PlainConfig) (records : List Records) (offset : ℕ) (file : List ℕ)
        → AsksJudge words o → IsBankLoaded contents config records → IsJudgeRead words contents (CertificateAt offset) file
        → (file ≡ file_at o.name offset) × IsSwept (window_of o.asked (bank_of config records).receivers).phase offset }
    ensures last { (words : List (List ℕ)) (contents : Contents) (o : JudgeOrder) (config : PlainConfig) (records : List Records) (offset bad : ℕ)
        (fault : CertificateFault) (file : List ℕ) → AsksJudge words o → IsBankLoaded contents config records
        → IsFirstBad (window_of o.asked (bank_of config records).receivers) (bank_of config records) (files_in contents)
        (swept_offsets (window_of o.asked (bank_of config records).receivers).phase) bad fault
        → IsJudgeRead words contents (CertificateAt offset) file → offset ≤ bad }
    ensures bank { (words : List (List ℕ)) (contents : Contents) (o : JudgeOrder) (input : Input) (file : List ℕ)
        → AsksJudge words o → ((offset : ℕ) → input ≢ CertificateAt offset) → IsJudgeRead words contents input file ↔ IsBankRead o.config contents input file }
{}

/// What is certified is the swept answer of the bank, whoever made the certificates, and the report is that of a sweep. The
/// certificates of all swept offsets are valid then.
pub fn what_is_certified_is_the_swept_answer()
    ensures answer { (words : List (List ℕ)) (contents : Contents) (o : JudgeOrder) (config : PlainConfig) (records : List Records)
        (told : Window) (answer : Answer) (duts : List StationDut) → AsksJudge words o → IsBankLoaded contents config records
        → IsJudgeDue words contents (Judged (Certified told answer duts))
        → IsSweptAnswer (window_of o.asked (bank_of config records).receivers) (bank_of config records) answer
        × IsToldWindow (window_of o.asked (bank_of config records).receivers) (bank_of config records) answer told
        × (duts ≡ duts_of told (bank_of config records) answer) }
    ensures good { (words : List (List ℕ)) (contents : Contents) (o : JudgeOrder) (config : PlainConfig) (records : List Records)
        (told : Window) (answer : Answer) (duts : List StationDut) → AsksJudge words o → IsBankLoaded contents config records
        → IsJudgeDue words contents (Judged (Certified told answer duts))
        → AreGood (window_of o.asked (bank_of config records).receivers) (bank_of config records) (files_in contents)
        (swept_offsets (window_of o.asked (bank_of config records).receivers).phase) }
{}

/// The certificates that a sweep owes, each with at most 2,000,000 steps, are certified by a `judge` of the same window and bank, which
/// tells the report of the sweep.
pub fn certificates_of_a_sweep_are_certified()
    ensures { (words later : List (List ℕ)) (contents others : Contents) (o : CertificatesOrder) (asked : JudgeOrder)
        (config : PlainConfig) (records : List Records) (cs : List Certificate) (told : Window) (answer : Answer) (duts : List StationDut)
        → AsksCertificates words o → IsBankLoaded contents config records
        → AreCertificates (window_of o.asked (bank_of config records).receivers) (bank_of config records) o.workers
        (swept_offsets (window_of o.asked (bank_of config records).receivers).phase) cs
        → IsSweepReport (window_of o.asked (bank_of config records).receivers) (bank_of config records) (Report told answer duts)
        → AreShort cs → AsksJudge later asked → asked.asked ≡ o.asked → IsBankLoaded others config records
        → AreWritten (files_in others) (swept_offsets (window_of o.asked (bank_of config records).receivers).phase) cs
        → IsJudgeDue later others (Judged (Certified told answer duts)) }
{
    blocks_share_the_sequences();
}
