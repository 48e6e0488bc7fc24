//! What it comes to that letters are sealed and opened one after another: laws, which hold of all
//! letters and need no code.
ghost use Rattle.std.specs.Prelude.{◌≡◌, ◌<◌, ℕ, List, Option, Some, Ok, slice_get};
ghost use Rattle.signing.specs.declared.letter.Head.{Head};
ghost use Rattle.signing.specs.Counting.{CountDeed, Counting, HaveDone, IsCounting};
ghost use Rattle.signing.specs.Counting.CountDeed.{takes};
ghost use Rattle.signing.specs.Hearing.{first_judge, Arrival, IsHearing};
ghost use Rattle.signing.specs.Verifying.{IsSealed, NamesSender};

/// Whatever comes, and in whatever order: each message that is heard was sealed by the key of the
/// sender that it names, for this run. Of two from one sender the later one has the greater count,
/// so nothing is heard twice, and nothing behind what its sender said later.
pub fn heard_letters()
    ensures sealed { (run : ℕ) (keys : List (Option (List ℕ))) (arrivals : List Arrival)
        (place : ℕ) (now : Arrival) (message : List ℕ) → IsHearing (first_judge run keys) arrivals
        → slice_get arrivals place ≡ Some now → now.answer ≡ Ok message
        → (h : Head) × IsSealed (first_judge run keys) h message now.letter
        × NamesSender message h.sender }
    ensures rising { (run : ℕ) (keys : List (Option (List ℕ))) (arrivals : List Arrival)
        (place other : ℕ) (now later : Arrival) (message next : List ℕ)
        → IsHearing (first_judge run keys) arrivals → place < other
        → slice_get arrivals place ≡ Some now → now.answer ≡ Ok message
        → slice_get arrivals other ≡ Some later → later.answer ≡ Ok next
        → (h k : Head) × IsSealed (first_judge run keys) h message now.letter
        × IsSealed (first_judge run keys) k next later.letter
        × (h.sender ≡ k.sender → h.count < k.count) }
{}

/// No count is used twice, and none below one that was used before, by whichever processes of a
/// sender, also where one was killed or the power was cut while it kept a block more.
pub fn counts_rise()
    ensures { (c : Counting) (deeds : List CountDeed) (place other n m : ℕ) → IsCounting c
        → HaveDone c deeds → place < other → slice_get deeds place ≡ Some (takes n)
        → slice_get deeds other ≡ Some (takes m) → n < m }
{}
