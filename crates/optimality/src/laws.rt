//! What a proof's tree rests on: laws, which hold of all plans and need no code.
ghost use Rattle.std.specs.Prelude.{◌≡◌, ℕ, ◌⊎◌, List, [], ◌∷◌, ◌++◌, map};
ghost use Rattle.grid.specs.Map.{Grid};
ghost use Rattle.model.specs.Timetable.{Timetable, IsConflictFree, IsSwapFree};
ghost use Rattle.optimality.specs.declared.constraint.Demand.{Demand};
ghost use Rattle.optimality.specs.declared.constraint.Ends.{Ends};
ghost use Rattle.optimality.specs.declared.constraint.Objective.{Objective};
ghost use Rattle.optimality.specs.declared.node.Node.{Node};
ghost use Rattle.optimality.specs.Constraints.{MeetsDemands};
ghost use Rattle.optimality.specs.Judging.{BoundHolds, Covers, LeafIsLow, LeafStands};
ghost use Rattle.optimality.specs.Judging.{Subtree, children, root};
ghost use Rattle.optimality.specs.Splitting.{IsNode, ends_of, first_demands, second_demands};

/// Each plan without vertex conflicts and swaps falls under one child of each node.
pub fn one_child()
    ensures { (ends : List Ends) (tt : Timetable) (n : Node) → IsConflictFree tt → IsSwapFree tt
        → map ends_of tt.tracks ≡ ends → IsNode n
        → MeetsDemands tt (first_demands n) ⊎ MeetsDemands tt (second_demands ends n) }
{}

/// All plans fall under the root, and then under the children of each node; no plan under a leaf
/// that stands costs less than the bound. So where no node is due any more, none does.
pub fn trees()
    ensures root { (m : Grid) (ends : List Ends) (objective : Objective) (bound : ℕ)
        → Covers m ends objective bound (root ∷ []) }
    ensures split { (m : Grid) (ends : List Ends) (objective : Objective) (bound : ℕ)
        (here : Subtree) (due : List Subtree) (n : Node) → IsNode n
        → Covers m ends objective bound (here ∷ due)
        → Covers m ends objective bound (children ends n here ++ due) }
    ensures leaf { (m : Grid) (ends : List Ends) (objective : Objective) (bound : ℕ)
        (here : Subtree) (due : List Subtree)
        → LeafStands m ends objective bound here.demands
        → Covers m ends objective bound (here ∷ due) → Covers m ends objective bound due }
    ensures whole { (m : Grid) (ends : List Ends) (objective : Objective) (bound : ℕ)
        → Covers m ends objective bound [] → BoundHolds m ends objective bound }
{
    model::laws::timetables();
}

/// No leaf both stands and is too low, and it is too low in one way.
pub fn leaves()
    ensures not_both { (m : Grid) (ends : List Ends) (objective : Objective) (bound least : ℕ)
        (demands : List Demand)
        → LeafStands m ends objective bound demands
        → LeafIsLow m ends objective bound demands least → ⊥ }
    ensures one { (m : Grid) (ends : List Ends) (objective : Objective) (bound least other : ℕ)
        (demands : List Demand)
        → LeafIsLow m ends objective bound demands least
        → LeafIsLow m ends objective bound demands other → least ≡ other }
{}
