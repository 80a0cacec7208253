//! The line of each refusal, spelled out.
#![tactic(auto, unfolding(crate::specs::Examples::digits))]

ghost use Rattle.std.specs.Prelude.{◌≡◌, codes, Some, None};
ghost use Rattle.formats.specs.Bytes.{line};
ghost use Rattle.formats.specs.declared.fault.LineFault.TheVariants.{Shape, NotRising, TooManyRecords};
ghost use Rattle.formats.specs.declared.key.KeyName.TheVariants.{Delay, Low, Receiver, Station, Weight};
ghost use Rattle.formats.specs.declared.option.OptionName.TheVariants.{Minute, Number, Seconds};
ghost use Rattle.formats.specs.declared.refusal.Refusal.TheVariants.{ConfigMissing, ConfigNotToml, ConfigOutOfRange, ConfigTooLarge, ConfigUnknownKey, ConfigWrongKind, LogLine, LogTooLarge, WordsBad, WordsEmptyRange, WordsUsage};
ghost use Rattle.formats.specs.Refusals.CertificateFault.{BadLine, NotAbove, OtherWindow, TooLarge, TooManySteps, Uncovered, WrongBound, WrongEnds};
ghost use Rattle.formats.specs.Refusals.{certificate_fault_line, refusal_text};

/// Words.
pub fn refused_words()
    ensures usage { refusal_text WordsUsage ≡ line (codes "words: usage") }
    ensures number { refusal_text (WordsBad Number) ≡ line (codes "words: bad NUMBER") }
    ensures minute { refusal_text (WordsBad Minute) ≡ line (codes "words: bad MINUTE") }
    ensures option { refusal_text (WordsBad Seconds) ≡ line (codes "words: bad --seconds") }
    ensures range { refusal_text WordsEmptyRange ≡ line (codes "words: --to is before --from") }
{}

/// Configurations.
pub fn refused_configurations()
    ensures large { refusal_text ConfigTooLarge ≡ line (codes "configuration: too large") }
    ensures toml { refusal_text ConfigNotToml ≡ line (codes "configuration: not toml") }
    ensures missing { refusal_text (ConfigMissing Station None) ≡ line (codes "configuration: missing station") }
    ensures list { refusal_text (ConfigMissing Receiver None) ≡ line (codes "configuration: missing receiver") }
    ensures kind { refusal_text (ConfigWrongKind Low None) ≡ line (codes "configuration: wrong kind low") }
    ensures delay { refusal_text (ConfigWrongKind Delay (Some 1)) ≡ line (codes "configuration: wrong kind receiver 1 delay_ms") }
    ensures range { refusal_text (ConfigOutOfRange Weight (Some 2)) ≡ line (codes "configuration: out of range receiver 2 weight") }
    ensures station { refusal_text (ConfigOutOfRange Station (Some 1)) ≡ line (codes "configuration: out of range receiver 1 station") }
    ensures other { refusal_text ConfigUnknownKey ≡ line (codes "configuration: unknown key") }
{}

/// Logs.
pub fn refused_logs()
    ensures large { refusal_text (LogTooLarge 2 (codes "roof")) ≡ line (codes "log 2 roof: too large") }
    ensures shape { refusal_text (LogLine 1 (codes "a") 4 Shape) ≡ line (codes "log 1 a: line 4: shape") }
    ensures rising { refusal_text (LogLine 1 (codes "a") 2 NotRising) ≡ line (codes "log 1 a: line 2: not rising") }
    ensures many { refusal_text (LogLine 1 (codes "a") 200001 TooManyRecords) ≡ line (codes "log 1 a: line 200001: too many records") }
{}

/// Certificates.
pub fn refused_certificates()
    ensures large { certificate_fault_line TooLarge ≡ line (codes "certificate: too large") }
    ensures shape { certificate_fault_line (BadLine 143) ≡ line (codes "certificate: line 143: shape") }
    ensures many { certificate_fault_line (TooManySteps 2000012) ≡ line (codes "certificate: line 2000012: too many steps") }
    ensures window { certificate_fault_line OtherWindow ≡ line (codes "certificate: other window") }
    ensures uncovered { certificate_fault_line (Uncovered 131) ≡ line (codes "certificate: uncovered at step 131") }
    ensures bound { certificate_fault_line (WrongBound 1) ≡ line (codes "certificate: wrong bound at step 1") }
    ensures above { certificate_fault_line (NotAbove 1) ≡ line (codes "certificate: not above at step 1") }
    ensures ends { certificate_fault_line (WrongEnds (Some 52_595_938)) ≡ line (codes "certificate: wrong ends 52595938") }
    ensures no_end { certificate_fault_line (WrongEnds None) ≡ line (codes "certificate: wrong ends -") }
{}
