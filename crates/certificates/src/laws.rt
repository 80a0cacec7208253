//! The laws of certificates: what a valid one shows, whoever made it, and which lines make one.

ghost use Rattle.std.specs.Prelude.{◌≡◌, ◌≤◌, ◌<◌, ◌↔◌, ◌⊎◌, ◌++◌, ◌∷◌, [], ℕ, List, Option, Some, None, Contains};
ghost use Rattle.std.specs.List.{AllByRecursion};
ghost use Rattle.signal_base.specs.declared.limits.TheConstants.{GREATEST_COST};
ghost use Rattle.signal_base.specs.declared.window.Window.{Window};
ghost use Rattle.definitions.specs.declared.block.Block.{Block};
ghost use Rattle.definitions.specs.declared.sequence.Sequence.{Sequence};
ghost use Rattle.definitions.specs.time.Calendar.{century_minutes};
ghost use Rattle.definitions.specs.sequences.Keys.{cost_of};
ghost use Rattle.definitions.specs.sequences.Walks.{IsLegal};
ghost use Rattle.definitions.specs.heard.Costs.{Costs};
ghost use Rattle.definitions.specs.answers.Answers.{IsWindowAnswer};
ghost use Rattle.definitions.specs.answers.Blocks.{items, IsBlock, IsBound, IsIn};
ghost use Rattle.definitions.specs.answers.FirstTwo.{AreLeastTwo, IsWindowKey, answer_from};
ghost use Rattle.formats.specs.Refusals.{CertificateFault};
ghost use Rattle.race_words.specs.Keys.{two_least};
ghost use Rattle.certificates.specs.declared.certificate.Kind.TheVariants.{Leaf, Pruned};
ghost use Rattle.certificates.specs.declared.certificate.Line.{Line};
ghost use Rattle.certificates.specs.declared.verdict.Verdict.{Verdict};
ghost use Rattle.certificates.specs.declared.verdict.Verdict.TheVariants.{Certified};
ghost use Rattle.certificates.specs.Certificates.{Certificate, IsSpelled, lines_of};
ghost use Rattle.certificates.specs.Validity.{AreEachOnce, AreTight, AreWalks, IsValid, KeepsTo, Show, leaf_keys, limit_named};
ghost use Rattle.certificates.specs.Judged.{IsBadCertificate, IsGoodCertificate};
ghost use Rattle.certificates.specs.Verdicts.{AreGood, IsVerdict};

use block_visits::blocks_share_the_sequences;
use definitions::{bound_exists, bound_is_one, the_least_two_are_the_answer};

/// Lines that are good, judged one after the other, are walks of all items, each once, in some order; and such walks are good.
/// The items in their own order are each of them once.
pub fn good_lines_are_walks()
    ensures walks { (costs : Costs) (window : Window) (limit : ℕ) (ls : List Line) → AreGood costs window limit [] [] ls
        → (blocks : List Block) × AreEachOnce (items window) blocks × AreWalks costs window limit blocks ls }
    ensures good { (costs : Costs) (window : Window) (limit : ℕ) (blocks : List Block) (ls : List Line)
        → AreEachOnce (items window) blocks → AreWalks costs window limit blocks ls → AreGood costs window limit [] [] ls }
    ensures own_order { (costs : Costs) (window : Window) → window.to ≤ century_minutes → AreEachOnce (items window) (items window) }
{
    blocks_share_the_sequences();
}

/// There is exactly one verdict on a certificate. It is certified exactly where it is valid.
pub fn certificate_has_one_verdict()
    ensures some { (costs : Costs) (window : Window) (ceiling : ℕ) (c : Certificate) → (v : Verdict) × IsVerdict costs window ceiling c v }
    ensures one { (costs : Costs) (window : Window) (ceiling : ℕ) (c : Certificate) (v w : Verdict)
        → IsVerdict costs window ceiling c v → IsVerdict costs window ceiling c w → v ≡ w }
    ensures certified { (costs : Costs) (window : Window) (ceiling : ℕ) (c : Certificate) → IsSpelled c
        → IsVerdict costs window ceiling c Certified ↔ IsValid costs window ceiling c }
{
    bound_exists();
    bound_is_one();
}

/// The keys that a valid certificate names are those of the first two sequences that its window admits, whoever made it, and so
/// they give the answer.
pub fn valid_certificates_name_the_first_two()
    ensures keys { (costs : Costs) (window : Window) (ceiling : ℕ) (c : Certificate) → IsValid costs window ceiling c
        → AreLeastTwo (IsWindowKey window costs ceiling) c.head.first c.head.second }
    ensures answer { (costs : Costs) (window : Window) (ceiling : ℕ) (c : Certificate) → IsValid costs window ceiling c
        → IsWindowAnswer window costs ceiling (answer_from c.head.first c.head.second) }
{
    blocks_share_the_sequences();
    the_least_two_are_the_answer();
}

/// A valid certificate leaves nothing out: each legal sequence of the window lies in the block of a line that is a leaf, or in one
/// that was pruned. In an empty block, and under no line, there is none.
pub fn each_sequence_is_in_a_leaf_or_a_pruned_block()
    ensures { (costs : Costs) (window : Window) (ceiling : ℕ) (c : Certificate) (q : Sequence) → IsValid costs window ceiling c → IsLegal window q
        → (l : Line) × Contains (lines_of c) l × IsIn l.block q × ((l.kind ≡ Leaf) ⊎ (l.kind ≡ Pruned)) }
{
    blocks_share_the_sequences();
}

/// Walks of all items under the key of the second admitted sequence show the first two. So a certificate is written by walking
/// all items under that one limit.
pub fn walks_under_the_second_are_valid()
    ensures { (costs : Costs) (window : Window) (ceiling : ℕ) (first second : Option ℕ) (blocks : List Block) (ls : List Line)
        → window.to ≤ century_minutes → ceiling ≤ GREATEST_COST → AreLeastTwo (IsWindowKey window costs ceiling) first second
        → AreEachOnce (items window) blocks → AreWalks costs window (limit_named ceiling second) blocks ls
        → Show costs window ceiling first second ls }
{
    blocks_share_the_sequences();
}

/// Blocks have walks under a limit in which no block above it is opened or reached, where no bound is greater than a cost can be;
/// and there is one such list of lines. So it doesn't depend on who writes it, or on how many share in it.
pub fn tight_walks_are_one()
    ensures some { (costs : Costs) (window : Window) (limit : ℕ) (blocks : List Block) → window.to ≤ century_minutes
        → AllByRecursion (IsBlock window) blocks
        → ((b : Block) (n : ℕ) → IsBlock window b → IsBound costs window b (Some n) → n ≤ GREATEST_COST)
        → (ls : List Line) × AreWalks costs window limit blocks ls × AreTight limit ls }
    ensures one { (costs : Costs) (window : Window) (limit : ℕ) (blocks : List Block) (ls ms : List Line)
        → AreWalks costs window limit blocks ls → AreTight limit ls → AreWalks costs window limit blocks ms → AreTight limit ms → ls ≡ ms }
{
    blocks_share_the_sequences();
    bound_exists();
    bound_is_one();
}

/// Where the lines show two keys, and each keeps to the limit that these name, each keeps to the second-least of the keys of the
/// leaves before it.
pub fn tight_walks_keep_to_their_leaves()
    ensures { (costs : Costs) (window : Window) (ceiling : ℕ) (first second : Option ℕ) (front back : List Line) (l : Line)
        → window.to ≤ century_minutes → ceiling ≤ GREATEST_COST → Show costs window ceiling first second (front ++ l ∷ back)
        → AreTight (limit_named ceiling second) (front ++ l ∷ back)
        → KeepsTo (two_least (leaf_keys front)).second l.kind l.block l.bound }
{
    blocks_share_the_sequences();
}

/// The bound of each block that a valid certificate prunes is below neither of the costs that it names. Where it names no second
/// key, the bound is above the ceiling.
pub fn pruned_blocks_are_not_cheaper()
    ensures first { (costs : Costs) (window : Window) (ceiling : ℕ) (c : Certificate) (l : Line) (n key : ℕ) → IsValid costs window ceiling c
        → Contains (lines_of c) l → l.kind ≡ Pruned → l.bound ≡ Some n → c.head.first ≡ Some key → cost_of key ≤ n }
    ensures second { (costs : Costs) (window : Window) (ceiling : ℕ) (c : Certificate) (l : Line) (n key : ℕ) → IsValid costs window ceiling c
        → Contains (lines_of c) l → l.kind ≡ Pruned → l.bound ≡ Some n → c.head.second ≡ Some key → cost_of key ≤ n }
    ensures ceiling { (costs : Costs) (window : Window) (ceiling : ℕ) (c : Certificate) (l : Line) (n : ℕ) → IsValid costs window ceiling c
        → Contains (lines_of c) l → l.kind ≡ Pruned → l.bound ≡ Some n → c.head.second ≡ None → ceiling < n }
{
    blocks_share_the_sequences();
}

/// Bytes are a valid certificate, which names one pair of keys, or one fault is told of them. The keys of a valid one give the
/// answer.
pub fn bytes_have_one_judgement()
    ensures some { (costs : Costs) (window : Window) (ceiling : ℕ) (bytes : List ℕ)
        → ((first : Option ℕ) × (second : Option ℕ) × IsGoodCertificate costs window ceiling bytes first second)
        ⊎ ((fault : CertificateFault) × IsBadCertificate costs window ceiling bytes fault) }
    ensures one_fault { (costs : Costs) (window : Window) (ceiling : ℕ) (bytes : List ℕ) (a b : CertificateFault)
        → IsBadCertificate costs window ceiling bytes a → IsBadCertificate costs window ceiling bytes b → a ≡ b }
    ensures not_both { (costs : Costs) (window : Window) (ceiling : ℕ) (bytes : List ℕ) (first second : Option ℕ) (fault : CertificateFault)
        → IsGoodCertificate costs window ceiling bytes first second → ¬ (IsBadCertificate costs window ceiling bytes fault) }
    ensures one_pair { (costs : Costs) (window : Window) (ceiling : ℕ) (bytes : List ℕ) (first second others other : Option ℕ)
        → IsGoodCertificate costs window ceiling bytes first second → IsGoodCertificate costs window ceiling bytes others other
        → (first ≡ others) × (second ≡ other) }
    ensures answer { (costs : Costs) (window : Window) (ceiling : ℕ) (bytes : List ℕ) (first second : Option ℕ)
        → IsGoodCertificate costs window ceiling bytes first second → IsWindowAnswer window costs ceiling (answer_from first second) }
{
    bound_exists();
    bound_is_one();
    valid_certificates_name_the_first_two();
}
