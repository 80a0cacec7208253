//! Which call runs the words of a command line: their first word decides.

ghost use Rattle.std.specs.Prelude.{◌≡◌, [], codes};
ghost use Rattle.bank_words.specs.Seen.{texts_of};
ghost use Rattle.formats.specs.WordExamples.{words_in};
ghost use Rattle.program.specs.declared.family.Family.TheVariants.{OfBoard, Returns};
ghost use Rattle.program.specs.declared.family.Returning.TheVariants.{OfCheck, OfFollow, OfFrames, OfJudge, OfRun, OfSweep};
ghost use Rattle.program.specs.Families.{family_of, family_of_word, is_board, is_check, is_follow, is_judge, is_of_frames, is_sweep};

use crate::family::{Family, Returning};

/// Which call runs these words, by the first of them.
pub fn family_of(words: &[String]) -> Family
    ensures { result ≡ family_of (texts_of words.now) }
{
    match words {
        [] => Family::Returns(Returning::OfRun),
        [first, ..] => family_of_word(first.as_str()),
    }
}

fn family_of_word(word: &str) -> Family
    ensures { result ≡ family_of_word word.now }
{
    if is_of_frames(word) {
        return Family::Returns(Returning::OfFrames);
    }
    if is_follow(word) {
        return Family::Returns(Returning::OfFollow);
    }
    if is_sweep(word) {
        return Family::Returns(Returning::OfSweep);
    }
    if is_check(word) {
        return Family::Returns(Returning::OfCheck);
    }
    if is_judge(word) {
        return Family::Returns(Returning::OfJudge);
    }
    if is_board(word) {
        return Family::OfBoard;
    }
    Family::Returns(Returning::OfRun)
}

fn is_of_frames(word: &str) -> bool
    ensures { result ≡ is_of_frames word.now }
{
    word == "irig" || word == "irig-read"
}

fn is_follow(word: &str) -> bool
    ensures { result ≡ is_follow word.now }
{
    word == "follow"
}

fn is_sweep(word: &str) -> bool
    ensures { result ≡ is_sweep word.now }
{
    word == "sweep"
}

fn is_check(word: &str) -> bool
    ensures { result ≡ is_check word.now }
{
    word == "check"
}

fn is_judge(word: &str) -> bool
    ensures { result ≡ is_judge word.now }
{
    word == "judge"
}

fn is_board(word: &str) -> bool
    ensures { result ≡ is_board word.now }
{
    word == "board"
}

/// Which call runs some words.
pub fn families_of_words()
    ensures irig { family_of (words_in (codes "irig k.toml --seconds 120")) ≡ Returns OfFrames }
    ensures irig_read { family_of (words_in (codes "irig-read f.txt")) ≡ Returns OfFrames }
    ensures decode { family_of (words_in (codes "decode irig")) ≡ Returns OfRun }
    ensures longer { family_of (words_in (codes "irig-reads f.txt")) ≡ Returns OfRun }
    ensures follow { family_of (words_in (codes "follow k.toml --count 2")) ≡ Returns OfFollow }
    ensures sweep { family_of (words_in (codes "sweep k.toml --workers 2")) ≡ Returns OfSweep }
    ensures check { family_of (words_in (codes "check k.toml x.cert")) ≡ Returns OfCheck }
    ensures board { family_of (words_in (codes "board k.toml q.txt")) ≡ OfBoard }
    ensures judge { family_of (words_in (codes "judge k.toml s")) ≡ Returns OfJudge }
    ensures later { family_of (words_in (codes "decode judge")) ≡ Returns OfRun }
    ensures none { family_of [] ≡ Returns OfRun }
{}
