//! How a run ends and how it doesn't, over files that tell all: worked examples of the words by which each run promises its ending.
//! The checker computes them from the definitions alone.

ghost use Rattle.std.specs.Prelude.{ℕ, ◌≢◌, [], ◌∷◌, List, codes};
ghost use Rattle.due.specs.Plans.{run_plan};
ghost use Rattle.formats.specs.WordExamples.{words_in};
ghost use Rattle.bank.specs.Ending.{CameTo, HasFront, HasRun, IsWhole, LeavesOthers};
ghost use Rattle.bank.specs.Examples.{certificate, decode_outputs, report, seen_with, sweep_outputs, with_both, with_certificate, with_configuration, with_output};

/// A certificate is whole where its file holds its text and nothing else. A report is whole where it stands once behind what had
/// been printed.
pub fn whole_texts()
    ensures written { IsWhole (with_certificate (codes "old")) (with_certificate (codes "abcd")) certificate }
    ensures half { ¬ (IsWhole (with_certificate (codes "old")) (with_certificate (codes "ab")) certificate) }
    ensures behind_the_old { ¬ (IsWhole (with_certificate (codes "old")) (with_certificate (codes "oldabcd")) certificate) }
    ensures missing { ¬ (IsWhole (with_certificate (codes "old")) (with_output (codes "abcd")) certificate) }
    ensures printed { IsWhole (with_output (codes "x")) (with_output (codes "xnone")) report }
    ensures twice { ¬ (IsWhole (with_output []) (with_output (codes "nonenone")) report) }
    ensures not_printed { ¬ (IsWhole (with_output []) (with_output []) report) }
    ensures in_its_place { ¬ (IsWhole (with_output (codes "x")) (with_output (codes "none")) report) }
{}

/// A front of a certificate is the file as it was, or a beginning of the text and nothing else.
pub fn fronts_of_a_certificate()
    ensures untouched { HasFront (with_certificate (codes "old")) (with_certificate (codes "old")) certificate }
    ensures emptied { HasFront (with_certificate (codes "old")) (with_certificate []) certificate }
    ensures half { HasFront (with_certificate (codes "old")) (with_certificate (codes "ab")) certificate }
    ensures another_text { ¬ (HasFront (with_certificate (codes "old")) (with_certificate (codes "ac")) certificate) }
    ensures longer { ¬ (HasFront (with_certificate (codes "old")) (with_certificate (codes "abcde")) certificate) }
    ensures behind_the_old { ¬ (HasFront (with_certificate (codes "old")) (with_certificate (codes "oldab")) certificate) }
{}

/// Texts are written in their order: nothing is printed before the certificate is whole, and no certificate of a sweep is begun
/// before the one in front of it is whole.
pub fn texts_in_their_order()
    ensures half { CameTo (with_both [] []) (with_both (codes "ab") []) decode_outputs }
    ensures half_of_the_report { CameTo (with_both [] []) (with_both (codes "abcd") (codes "no")) decode_outputs }
    ensures half_and_printed { ¬ (CameTo (with_both [] []) (with_both (codes "ab") (codes "n")) decode_outputs) }
    ensures printed_alone { ¬ (CameTo (with_both [] []) (with_both [] (codes "none")) decode_outputs) }
    ensures one_behind_the_other { CameTo (seen_with 0 []) (seen_with 0 ((codes "s.2", codes "ab") ∷ (codes "s.3", codes "c") ∷ [])) sweep_outputs }
    ensures second_alone { ¬ (CameTo (seen_with 0 []) (seen_with 0 ((codes "s.3", codes "cd") ∷ [])) sweep_outputs) }
    ensures second_begun_too_soon { ¬ (CameTo (seen_with 0 []) (seen_with 0 ((codes "s.2", codes "a") ∷ (codes "s.3", []) ∷ [])) sweep_outputs) }
    ensures nothing_to_write { ¬ (CameTo (seen_with 0 []) (seen_with 0 []) []) }
{}

/// A decode changes no file but those of its outputs: it empties, makes and removes none.
pub fn other_files_stay()
    ensures emptied { ¬ (LeavesOthers (with_configuration (codes "x") []) (with_configuration [] (codes "none")) decode_outputs) }
    ensures made { ¬ (LeavesOthers (seen_with 0 []) (seen_with 0 ((codes "x", []) ∷ [])) decode_outputs) }
    ensures removed { ¬ (LeavesOthers (with_configuration (codes "x") []) (with_output []) decode_outputs) }
{}

/// No run, whatever its words, ends with 6 without a fault, with another status in spite of one, or with 7 where it has printed. And
/// no decode empties its configuration, however it ends.
pub fn how_no_run_ends()
    ensures six_without_a_fault { (words : List (List ℕ)) (old new : List (List ℕ × List ℕ))
        → ¬ (HasRun (run_plan words) (seen_with 0 old) (seen_with 0 new) 6) }
    ensures fault_without_six { (words : List (List ℕ)) (old new : List (List ℕ × List ℕ)) (status : ℕ) → status ≢ 6
        → ¬ (HasRun (run_plan words) (seen_with 0 old) (seen_with 1 new) status) }
    ensures seven_and_printed { (words : List (List ℕ))
        → ¬ (HasRun (run_plan words) (with_output []) (with_output (codes "none")) 7) }
    ensures configuration_emptied { (status : ℕ)
        → ¬ (HasRun (run_plan (words_in (codes "decode k.toml"))) (with_configuration (codes "x") []) (with_configuration [] []) status) }
{}
