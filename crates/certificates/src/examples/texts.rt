//! Lines and texts of certificates, spelled out.
#![tactic(auto, unfolding(crate::specs::Examples::digits))]

ghost use Rattle.std.specs.Prelude.{◌≡◌, ◌≤◌, ◌++◌, ◌∷◌, [], ℕ, List, Some, None, codes, length, take};
ghost use Rattle.std.specs.List.{AllByRecursion};
ghost use Rattle.definitions.specs.declared.block.Span.TheVariants.{Year, Day, Hour, Minute};
ghost use Rattle.definitions.specs.examples.Sequences.{announced_block_of, block_of, window_of};
ghost use Rattle.formats.specs.Bytes.{line};
ghost use Rattle.certificates.specs.declared.certificate.Kind.TheVariants.{Opened, Pruned, Empty, Leaf};
ghost use Rattle.certificates.specs.declared.certificate.Line.{Line};
ghost use Rattle.certificates.specs.declared.fault.CertificateLineFault.TheVariants.{Shape, TooManySteps};
ghost use Rattle.certificates.specs.declared.limits.TheConstants.{CERTIFICATE_LIMIT, MOST_PARTS, MOST_STEPS};
ghost use Rattle.certificates.specs.Certificates.{CanBeNamed, IsLine};
ghost use Rattle.certificates.specs.Texts.{certificate_text, entries_text, entry_line, head_entries, steps_text, IsRefused, IsText};
ghost use Rattle.certificates.specs.Texts.Entry.{Step};
ghost use Rattle.certificates.specs.Examples.{first_steps, head_of, hour_certificate, last_head, line_of, text_to_steps};

/// Steps of each kind and span, those with which the certificate of the century's last hours begins, and how much a certificate may hold.
pub fn lines_of_certificates()
    ensures opened { entry_line (Step (line_of Opened (block_of Year 52_595_938 52_596_000) (Some 0))) ≡ line (codes "O Y 0 0 52595938 52596000 0") }
    ensures pruned { entry_line (Step (line_of Pruned (block_of Day 700 1_440) (Some 1_920_000_000))) ≡ line (codes "P D 0 0 700 1440 1920000000") }
    ensures empty { entry_line (Step (line_of Empty (announced_block_of Hour 52_595_940 52_596_000) None)) ≡ line (codes "E H 1 0 52595940 52596000 -") }
    ensures leaf { entry_line (Step (line_of Leaf (block_of Minute 0 1) (Some 7))) ≡ line (codes "L M 0 0 0 1 7") }
    ensures first { steps_text first_steps
        ≡ line (codes "O Y 0 0 52595938 52596000 0") ++ line (codes "O D 0 0 52595938 52596000 0") ++ line (codes "O H 0 0 52595938 52595940 0")
        ++ line (codes "L M 0 0 52595938 52595939 0") ++ line (codes "E M 0 0 52595939 52595940 -") ++ line (codes "E H 0 0 52595940 52596000 -") }
    ensures bytes { CERTIFICATE_LIMIT ≡ 128_000_000 }
    ensures steps { MOST_STEPS ≡ 2_000_000 }
    ensures parts { MOST_PARTS ≡ 8 }
{}

/// The heads of a certificate of one station, and of two.
pub fn heads_of_certificates()
    ensures one_station { entries_text (head_entries last_head)
        ≡ line (codes "tsbank certificate 1") ++ line (codes "station dcf77") ++ line (codes "start 0") ++ line (codes "phase 0") ++ line (codes "seconds 60")
        ++ line (codes "from 52595938") ++ line (codes "to 52596000") ++ line (codes "ceiling 1920000000") ++ line (codes "first 52595938") ++ line (codes "second -") }
    ensures two_stations { take 40 (entries_text (head_entries (head_of (window_of 9 0 1) 0 None None)))
        ≡ line (codes "tsbank certificate 2") ++ line (codes "stations dcf77 jjy") }
{}

/// Keys that can be named: the index is that of a sequence, and the cost one that a sequence can have.
pub fn named_keys()
    ensures last { CanBeNamed (Some 6_416_711_999) }
    ensures beyond { ¬ (CanBeNamed (Some 6_416_712_000)) }
    ensures dear { ¬ (CanBeNamed (Some 16_492_674_424_750_964_736)) }
{}

/// A certificate with the lines of one hour and an empty part. It is no valid one, since its lines leave items out.
pub fn text_of_an_hour()
    ensures text { certificate_text hour_certificate
        ≡ line (codes "tsbank certificate 1") ++ line (codes "station wwvb") ++ line (codes "start 0") ++ line (codes "phase 0") ++ line (codes "seconds 60")
        ++ line (codes "from 700") ++ line (codes "to 702") ++ line (codes "ceiling 1000") ++ line (codes "first 996432413372") ++ line (codes "second 1013612282557")
        ++ line (codes "worker 0") ++ line (codes "O H 0 0 700 702 112") ++ line (codes "L M 0 0 700 701 116") ++ line (codes "L M 0 0 701 702 118")
        ++ line (codes "worker 1") ++ line (codes "end") }
    ensures is_text { IsText hour_certificate (certificate_text hour_certificate) }
{}

/// The greatest second and the last minute that a step can name, and those beyond. A block has a minute.
pub fn steps_at_their_limits()
    ensures last_second { IsLine (line_of Pruned (record (block_of Day 700 1_440) { second = 60 }) (Some 0)) }
    ensures last_minute { IsLine (line_of Pruned (block_of Minute 52_595_999 52_596_000) (Some 0)) }
    ensures second { (rest : List ℕ) → IsRefused (text_to_steps ++ (line (codes "P D 0 61 700 1440 0") ++ rest)) 12 Shape }
    ensures nothing { (rest : List ℕ) → IsRefused (text_to_steps ++ (line (codes "P D 0 0 700 700 0") ++ rest)) 12 Shape }
    ensures minute { (rest : List ℕ) → IsRefused (text_to_steps ++ (line (codes "P M 0 0 52595999 52596001 0") ++ rest)) 12 Shape }
{}

/// First bad lines: nothing at all, a needless zero, a key of no sequence, a part that isn't the first, a minute that is opened, a
/// leaf that is no minute, an empty block with a bound, an end without its LF, and a line behind the end. A step is one too many
/// after 2,000,000.
pub fn bad_lines()
    ensures nothing { IsRefused [] 1 Shape }
    ensures zeros { (rest : List ℕ) → IsRefused (take 35 (entries_text (head_entries last_head)) ++ (line (codes "start 00") ++ rest)) 3 Shape }
    ensures part { (rest : List ℕ) → IsRefused (entries_text (head_entries last_head) ++ (line (codes "worker 1") ++ rest)) 11 Shape }
    ensures minute_opened { (rest : List ℕ) → IsRefused (text_to_steps ++ (line (codes "O M 0 0 700 701 0") ++ rest)) 12 Shape }
    ensures leaf_of_a_day { (rest : List ℕ) → IsRefused (text_to_steps ++ (line (codes "L D 0 0 700 701 0") ++ rest)) 12 Shape }
    ensures empty_with_a_bound { (rest : List ℕ) → IsRefused (text_to_steps ++ (line (codes "E D 0 0 700 701 0") ++ rest)) 12 Shape }
    ensures unended { IsRefused (text_to_steps ++ codes "end") 12 Shape }
    ensures behind { (rest : List ℕ) → IsRefused ((text_to_steps ++ line (codes "end")) ++ (line (codes "x") ++ rest)) 13 Shape }
    ensures many { (ls : List Line) (l : Line) (rest : List ℕ) → AllByRecursion IsLine ls → length ls ≡ MOST_STEPS → IsLine l
        → IsRefused ((text_to_steps ++ steps_text ls) ++ (entry_line (Step l) ++ rest)) 2_000_012 TooManySteps }
{}
