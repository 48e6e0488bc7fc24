//! What the definitions of texts mean: laws, which hold of all texts and need no code.
ghost use Rattle.std.specs.Prelude.{◌≡◌, ℕ, ◌<◌, ◌⊎◌, List, [], ◌∷◌, ◌++◌, length, true};
ghost use Rattle.std.specs.List.{AllByRecursion};
ghost use Rattle.text_io.specs.Text.{IsLine, lines_of, ended, ends_in_line_feed};
ghost use Rattle.text_io.specs.Reading.{LineEnds, by_line_feed, Place, at_end};
ghost use Rattle.text_io.specs.Reading.{IsByte, JudgedAt, StandsIn, StopsIn};

/// A place in a text is told by the lines of the text, whatever ends a line; lines that are written
/// one by one are those of what is written; and each text is cut in one way into lines with their
/// LFs and what follows the last LF.
pub fn places()
    ensures stands { (ends : LineEnds) (text front rest : List ℕ) (place : Place)
        (before : List (List ℕ)) (line : List ℕ) → text ≡ front ++ rest
        → IsByte place → JudgedAt ends place before line front
        → StandsIn ends place before line text }
    ensures found { (ends : LineEnds) (text : List ℕ) (place : Place) (before : List (List ℕ))
        (line : List ℕ) → IsByte place
        → StandsIn ends place before line text → (front rest : List ℕ) × (text ≡ front ++ rest)
        × JudgedAt ends place before line front }
    ensures last { (ends : LineEnds) (text : List ℕ) (before : List (List ℕ)) (line : List ℕ)
        → JudgedAt ends at_end before line text
        → ((line ≡ []) × (lines_of text ≡ before))
        ⊎ ((0 < length line) × (lines_of text ≡ before ++ line ∷ [])) }
    ensures cut { (text : List ℕ) → (before : List (List ℕ)) × (line : List ℕ)
        × StopsIn by_line_feed before line text }
    ensures one_cut { (text : List ℕ) (before others : List (List ℕ)) (line other : List ℕ)
        → StopsIn by_line_feed before line text
        → StopsIn by_line_feed others other text → (before ≡ others) × (line ≡ other) }
    ensures are_lines { (text : List ℕ) → AllByRecursion IsLine (lines_of text) }
    ensures written { (lines : List (List ℕ)) → AllByRecursion IsLine lines
        → lines_of (ended lines) ≡ lines }
    ensures written_end { (line : List ℕ) (lines : List (List ℕ))
        → ends_in_line_feed (ended (line ∷ lines)) ≡ true }
{}
