//! Laws of the definitions: what holds of each file, without a call.

ghost use Rattle.std.specs.Prelude.{◌≡◌, ◌⊎◌, ◌+◌, ◌<◌, ◌^◌, ℕ, ℤ, List, [], ◌∷◌, ◌++◌, All, Some, length, map, FitsSigned, IsTrue};
ghost use Rattle.std.specs.Fmt.{decimal, signed_decimal};
ghost use Rattle.std.specs.Int.{w64};
ghost use Rattle.std.specs.List.{list_all};
ghost use Rattle.mp_text.specs.declared.layout.Layout.{Layout};
ghost use Rattle.mp_text.specs.declared.layout.Layout.TheVariants.{Commented};
ghost use Rattle.mp_text.specs.declared.refusals.Refusal.{Refusal};
ghost use Rattle.mp_text.specs.Text.{Row, number_of, numbers_of, signed_of};
ghost use Rattle.mp_text.specs.Ahead.{rows_of_bytes, past_of_bytes};
ghost use Rattle.mp_text.specs.Comments.{is_comment_line};
ghost use Rattle.mp_text.specs.Grammar.{Format, IsWellFormed, Refuses};
ghost use Rattle.mp_text.specs.Report.{is_counted, is_line_start, is_token, line_text, numbered_from, text_of_lines, with_tokens};

/// Of each format, a file is well formed or refused, never both, and its refusal is one.
pub fn exactly_one<K>()
    ensures some { (format : Format K) (rows : List Row) (past : ℕ) →
        IsWellFormed format rows past ⊎ ((refusal : Refusal K) × Refuses format rows past refusal) }
    ensures not_both { (format : Format K) (rows : List Row) (past : ℕ) (refusal : Refusal K) →
        IsWellFormed format rows past → Refuses format rows past refusal → ⊥ }
    ensures one_refusal { (format : Format K) (rows : List Row) (past : ℕ) (one two : Refusal K) →
        Refuses format rows past one → Refuses format rows past two → one ≡ two }
{}

/// The numbers of tokens are the number of each.
pub fn each_number()
    ensures each { (tokens : List (List ℕ)) (ns : List ℕ) → numbers_of tokens ≡ Some ns → map number_of tokens ≡ map (λ n. Some n) ns }
    ensures all { (tokens : List (List ℕ)) (ns : List ℕ) → map number_of tokens ≡ map (λ n. Some n) ns → numbers_of tokens ≡ Some ns }
{}

/// Tokens that are appended at the start of a line, and a line feed, are the line of these tokens; then a line starts.
pub fn printed_line()
    ensures line { (text : List ℕ) (tokens : List (List ℕ)) → IsTrue (is_line_start text) → IsTrue (list_all is_token tokens) →
        with_tokens text tokens ++ 10 ∷ [] ≡ text ++ line_text tokens }
    ensures start { (text : List ℕ) (tokens : List (List ℕ)) → IsTrue (is_line_start (text ++ line_text tokens)) }
    ensures more { (text : List ℕ) (lines : List (List (List ℕ))) (line : List (List ℕ)) →
        (text ++ text_of_lines lines) ++ line_text line ≡ text ++ text_of_lines (lines ++ line ∷ []) }
{}

/// Lines that are printed one after another are one text, and where it ends a line starts.
pub fn printed_lines()
    ensures more { (text : List ℕ) (lines : List (List (List ℕ))) (line : List (List ℕ)) →
        (text ++ text_of_lines lines) ++ line_text line ≡ text ++ text_of_lines (lines ++ line ∷ []) }
    ensures parts { (xs ys : List (List (List ℕ))) → text_of_lines (xs ++ ys) ≡ text_of_lines xs ++ text_of_lines ys }
    ensures start { (text : List ℕ) (lines : List (List (List ℕ))) → IsTrue (is_line_start text) →
        IsTrue (is_line_start (text ++ text_of_lines lines)) }
{}

/// Numbers that are printed are tokens that begin no comment, and are read as they were.
pub fn printed_number()
    ensures token { (n : ℕ) → n < 2 ^ 64 → IsTrue (is_token (decimal n)) }
    ensures value { (n : ℕ) → n < 2 ^ 64 → number_of (decimal n) ≡ Some n }
    ensures values { (ns : List ℕ) → All (λ n. n < 2 ^ 64) ns → numbers_of (map decimal ns) ≡ Some ns }
    ensures signed_token { (n : ℤ) → FitsSigned w64 n → IsTrue (is_token (signed_decimal n)) }
    ensures signed_value { (n : ℤ) → FitsSigned w64 n → signed_of (signed_decimal n) ≡ Some n }
    ensures counted { (layout : Layout) (n : ℕ) (tokens : List (List ℕ)) → n < 2 ^ 64 → IsTrue (list_all is_token tokens) →
        IsTrue (is_counted layout (decimal n ∷ tokens)) }
{}

/// Lines that are printed are read as they were, numbered from 1, where each begins with a token that begins no comment.
pub fn printed_file()
    ensures rows { (layout : Layout) (lines : List (List (List ℕ))) → IsTrue (list_all (is_counted layout) lines) →
        rows_of_bytes layout (text_of_lines lines) ≡ numbered_from 1 lines }
    ensures past { (layout : Layout) (lines : List (List (List ℕ))) → IsTrue (list_all (is_counted layout) lines) →
        past_of_bytes (text_of_lines lines) ≡ length lines + 1 }
    ensures parts { (n : ℕ) (xs ys : List (List (List ℕ))) →
        numbered_from n (xs ++ ys) ≡ numbered_from n xs ++ numbered_from (n + length xs) ys }
    ensures count { (n : ℕ) (lines : List (List (List ℕ))) → length (numbered_from n lines) ≡ length lines }
{}

/// Lines of comments that are printed after others, in a file that has comments, change nothing of what is read of these.
pub fn printed_comments()
    ensures { (lines comments : List (List (List ℕ))) → IsTrue (list_all (is_counted Commented) lines) →
        IsTrue (list_all is_comment_line comments) →
        rows_of_bytes Commented (text_of_lines (lines ++ comments)) ≡ numbered_from 1 lines }
{}
