//! Worked examples of what `board` owes.
#![tactic(auto, unfolding(crate::specs::Examples::digits, definitions::specs::time::Calendar::day_at, definitions::specs::sequences::Walks::place_at))]

ghost use Rattle.std.specs.Prelude.{ℕ, ◌≡◌, List, [], ◌∷◌, ◌++◌, All, Some, codes, length};
ghost use Rattle.definitions.specs.examples.Sequences.{from_place};
ghost use Rattle.definitions.specs.heard.Logs.{Records};
ghost use Rattle.formats.specs.Bytes.{line};
ghost use Rattle.formats.specs.WordExamples.{asked, asked_usually, words_in};
ghost use Rattle.formats.specs.declared.option.OptionName.TheVariants.{Count, Readers};
ghost use Rattle.formats.specs.declared.refusal.Refusal.{Refusal};
ghost use Rattle.formats.specs.declared.refusal.Refusal.TheVariants.{WordsBad, WordsUsage};
ghost use Rattle.bank_config.specs.Configuration.{PlainConfig};
ghost use Rattle.due.specs.declared.due.Due.TheVariants.{Refused};
ghost use Rattle.due.specs.declared.status.Status.TheVariants.{BadQueries, Done};
ghost use Rattle.due.specs.Banks.{bank_of, window_of};
ghost use Rattle.due.specs.Inputs.{Configuration, Contents, QueriesText};
ghost use Rattle.due.specs.Loads.{IsBankLoaded, IsBankRefused};
ghost use Rattle.follow_due.specs.declared.window_report.WindowReport.{WindowReport};
ghost use Rattle.follow_due.specs.Windows.{AreReportsOf, windows_from};
ghost use Rattle.board_entries.specs.Examples.{decided, in_june, two_windows};
ghost use Rattle.board_due.specs.declared.board_due.BoardDue.TheVariants.{Answers, BadLine, Told, TooLarge};
ghost use Rattle.board_due.specs.BoardAnswers.{AreCounts, board_text, entries_of};
ghost use Rattle.board_due.specs.BoardDues.{board_due_text, board_status};
ghost use Rattle.board_due.specs.BoardOrders.{AsksBoard};
ghost use Rattle.board_due.specs.BoardRules.{IsBoardDue, IsBoardRead};
ghost use Rattle.board_due.specs.BoardTexts.{bad_query_line, too_large_line};
ghost use Rattle.board_due.specs.Examples.{four_queries, order_of_q, three_reports};
ghost use Rattle.board_due.specs.Queries.{IsQuery, IsRefused, IsTextOf, IsToldOf, queries_text};
ghost use Rattle.board_due.specs.Queries.QueriesTold.{TooLarge as TooManyBytes};

/// Texts of queries. An empty one has none.
pub fn queries_in_a_text()
    ensures text { queries_text (0 ∷ 60_000 ∷ 999_999_999_999 ∷ []) ≡ line (codes "0") ++ line (codes "60000") ++ line (codes "999999999999") }
    ensures empty { IsTextOf [] [] }
{}

/// The greatest query and the most of them, the greatest text, and those beyond.
pub fn limits_of_queries()
    ensures last { IsQuery 999_999_999_999 }
    ensures beyond { ¬ (IsQuery 1_000_000_000_000) }
    ensures most { (queries : List ℕ) → All IsQuery queries → length queries ≡ 10_000 → IsTextOf queries (queries_text queries) }
    ensures one_more { (queries : List ℕ) → All IsQuery queries → length queries ≡ 10_000 → IsRefused (queries_text queries ++ line (codes "0")) 10_001 }
    ensures largest { (text : List ℕ) → length text ≡ 200_000 → ¬ (IsToldOf text TooManyBytes) }
    ensures too_large { (text : List ℕ) → length text ≡ 200_001 → IsToldOf text TooManyBytes }
{}

/// Lines that are refused: one with a needless zero inside a text, one that isn't ended, and an empty one; and the lines that say so.
pub fn queries_that_are_refused()
    ensures inside { IsRefused (line (codes "0") ++ (line (codes "00") ++ line (codes "7"))) 2 }
    ensures open { IsRefused (line (codes "0") ++ codes "7") 2 }
    ensures empty { IsRefused (line (codes "")) 1 }
    ensures large { too_large_line ≡ line (codes "queries: too large") }
    ensures shape { bad_query_line 2 ≡ line (codes "queries: line 2: shape") }
{}

/// Words that are refused, whatever the files hold.
pub fn refused_words_of_board()
    ensures place { (contents : Contents) → IsBoardDue (words_in (codes "board k.toml")) contents (Told (Refused WordsUsage)) }
    ensures other { (contents : Contents) → IsBoardDue (words_in (codes "follow k.toml")) contents (Told (Refused WordsUsage)) }
    ensures readers { (contents : Contents) → IsBoardDue (words_in (codes "board k.toml q.txt --readers 5")) contents (Told (Refused (WordsBad Readers))) }
{}

/// What words ask: two askers, unless they say otherwise; and which file is read first.
pub fn what_is_asked_of_a_board()
    ensures usual { AsksBoard (words_in (codes "board k.toml q.txt")) (order_of_q asked_usually 60 10 2) }
    ensures own { AsksBoard (words_in (codes "board k.toml q.txt --count 3 --readers 4")) (order_of_q asked_usually 60 3 4) }
    ensures read { (contents : Contents) → IsBoardRead (words_in (codes "board k.toml q.txt")) contents Configuration (codes "k.toml") }
{}

/// A count is refused once the logs are good, whatever the queries are; and before any window is decoded queries are.
pub fn what_is_refused_behind_the_logs()
    ensures count { (contents : Contents) (config : PlainConfig) (records : List Records) → IsBankLoaded contents config records
        → IsBoardDue (words_in (codes "board k.toml q.txt --count 2 --start 999999999999")) contents (Told (Refused (WordsBad Count))) }
    ensures queries { (contents : Contents) (config : PlainConfig) (records : List Records) → IsBankLoaded contents config records
        → contents QueriesText ≡ line (codes "0") ++ codes "7"
        → IsBoardDue (words_in (codes "board k.toml q.txt --count 2 --start 0")) contents (BadLine 2) }
    ensures logs_first { (contents : Contents) (refusal : Refusal) → IsBankRefused contents refusal
        → IsBoardDue (words_in (codes "board k.toml q.txt --count 2 --start 0")) contents (Told (Refused refusal)) }
    ensures status { board_status (BadLine 2) ≡ BadQueries }
    ensures too_large { board_status TooLarge ≡ BadQueries }
    ensures text { board_due_text TooLarge ≡ line (codes "queries: too large") }
{}

/// What is due of a bank: its queries' answers by any numbers of entries that may be, and 0, whatever is decided.
pub fn what_is_due_of_queries()
    ensures due { (contents : Contents) (config : PlainConfig) (records : List Records) (reports : List WindowReport) (counts : List ℕ)
        → IsBankLoaded contents config records → contents QueriesText ≡ line (codes "0")
        → AreReportsOf (bank_of config records) (windows_from (window_of (asked (Some 0) 180 0 52_596_000) (bank_of config records).receivers) 60 2) reports
        → AreCounts 2 (entries_of reports) (0 ∷ []) counts
        → IsBoardDue (words_in (codes "board k.toml q.txt --count 2 --start 0")) contents (Answers (entries_of reports) (0 ∷ []) counts) }
    ensures status { board_status (Answers [] (0 ∷ []) (0 ∷ [])) ≡ Done }
    ensures text { board_due_text (Answers [] (0 ∷ []) (0 ∷ [])) ≡ line (codes "live 0 unknown of 0") ++ line (codes "at 0 unknown") }
{}

/// Numbers of entries: none above the number of all, and none that falls for one asker. Two askers may differ.
pub fn numbers_of_entries()
    ensures two { AreCounts 2 two_windows (0 ∷ 7 ∷ []) (2 ∷ 1 ∷ []) }
    ensures falls { ¬ (AreCounts 1 two_windows (0 ∷ 7 ∷ []) (2 ∷ 1 ∷ [])) }
    ensures above { ¬ (AreCounts 1 two_windows (0 ∷ []) (3 ∷ [])) }
    ensures fewer { ¬ (AreCounts 1 two_windows (0 ∷ 7 ∷ []) (1 ∷ [])) }
{}

/// What two windows tell four queries, by none, one or two of them, and then by both.
pub fn lines_of_two_windows()
    ensures lines { board_text two_windows four_queries (0 ∷ 1 ∷ 2 ∷ 2 ∷ [])
        ≡ line (codes "live 0 unknown of 0") ++ line (codes "live 60000 2024-06-10T06:17Z 0 of 1")
        ++ line (codes "live 179999 2024-06-10T06:18Z 59 of 2") ++ line (codes "live 180000 unknown of 2")
        ++ line (codes "at 0 2024-06-10T06:16Z 0") ++ line (codes "at 60000 2024-06-10T06:17Z 0")
        ++ line (codes "at 179999 2024-06-10T06:18Z 59") ++ line (codes "at 180000 unknown") }
    ensures nothing { board_text two_windows [] [] ≡ [] }
{}

/// The entries of windows are those of the decided ones, in their order.
pub fn entries_of_reports()
    ensures { entries_of three_reports ≡ decided 0 (from_place (in_june 6 16) 0) ∷ decided 120_000 (from_place (in_june 6 18) 0) ∷ [] }
{}
