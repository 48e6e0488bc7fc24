//! What the definitions of maps' texts mean: laws, which hold of all texts and need no code.
ghost use Rattle.std.specs.Prelude.{◌≡◌, ◌≢◌, ℕ, ◌⊎◌, List, Some};
ghost use Rattle.grid.specs.declared.cell.Cell.{Cell};
ghost use Rattle.grid.specs.declared.map_fault.MapFault.{MapFault};
ghost use Rattle.text_io.specs.Reading.{IsFirstFault};
ghost use Rattle.grid.specs.Map.{Grid, IsMap, IsPassable, terrain_at, with_blocked};
ghost use Rattle.grid.specs.MapText.{MapText, canonical_map_text};
ghost use Rattle.grid.specs.MapFault.{MapFaultAt};

/// Each text has exactly one reading as a map: one map that it spells, or one first fault.
pub fn one_reading()
    ensures some { (text : List ℕ) → ((m : Grid) × MapText m text)
        ⊎ ((f : MapFault) × IsFirstFault MapFaultAt f text) }
    ensures one_map { (text : List ℕ) (m n : Grid) → MapText m text → MapText n text → m ≡ n }
    ensures one_fault { (text : List ℕ) (f g : MapFault) → IsFirstFault MapFaultAt f text
        → IsFirstFault MapFaultAt g text → f ≡ g }
    ensures never_both { (text : List ℕ) (m : Grid) (f : MapFault) → MapText m text
        → IsFirstFault MapFaultAt f text → ⊥ }
{}

/// The text that is written for a map spells that map, and no other.
pub fn written_text()
    ensures spells { (m : Grid) → IsMap m → MapText m (canonical_map_text m) }
    ensures only { (m n : Grid) → IsMap m → MapText n (canonical_map_text m) → n ≡ m }
{}

/// Of a map with a cell blocked nobody may enter that cell, and all other cells are as they were.
pub fn blocked_cells()
    ensures closed { (m blocked : Grid) (c : Cell) → IsMap m
        → with_blocked m c ≡ Some blocked → IsPassable blocked c → ⊥ }
    ensures others { (m blocked : Grid) (c other : Cell) → IsMap m
        → with_blocked m c ≡ Some blocked → other ≢ c
        → terrain_at blocked other ≡ terrain_at m other }
{}
