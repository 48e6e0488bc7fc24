//! What the definitions of a text of events mean: laws, which hold of all values and need no code.
ghost use Rattle.std.specs.Prelude.{◌≡◌, ◌≢◌, ℕ, ◌⊎◌, ◌↔◌, List, [], ◌∷◌, map, All, Option, Some};
ghost use Rattle.text_io.specs.declared.counted.Counted.{Counted};
ghost use Rattle.text_io.specs.declared.source.Source.{Source};
ghost use Rattle.text_io.specs.Lines.{HasTaken};
ghost use Rattle.text_io.specs.Reading.{IsFirstFault};
ghost use Rattle.text_io.specs.Text.{ended};
ghost use Rattle.model.specs.declared.event.Event.{Event};
ghost use Rattle.model.specs.declared.version.Version.{Version};
ghost use Rattle.model.specs.declared.version.Version.TheVariants.{One, Two};
ghost use Rattle.event_text.specs.declared.event_fault.EventFault.{EventFault};
ghost use Rattle.event_text.specs.declared.event_fault.EventFault.TheVariants.{NoHeader};
ghost use Rattle.event_text.specs.declared.header.Headers.{Headers};
ghost use Rattle.event_text.specs.declared.header.Headers.TheVariants.{VersionOne, Either};
ghost use Rattle.event_text.specs.EventText.{EventText, RunText, event_header};
ghost use Rattle.event_text.specs.EventLine.{event_line, IsWithinWidths};
ghost use Rattle.event_text.specs.EventFault.{EventFaultAt};
ghost use Rattle.event_text.specs.FirstEvents.{FirstEvents};
ghost use Rattle.event_text.specs.declared.event_reader.EventReader.{EventReader};
ghost use Rattle.event_text.specs.Taking.{IsAtStart, HasReadEvents};

use std::io::Read;

/// Each text has exactly one reading as events of version 1: one list of events that it spells, or
/// one first fault.
pub fn one_reading()
    ensures some { (text : List ℕ) → ((es : List Event) × EventText One es text)
        ⊎ ((f : EventFault) × IsFirstFault (EventFaultAt VersionOne) f text) }
    ensures one_list { (text : List ℕ) (es fs : List Event) → EventText One es text
        → EventText One fs text → es ≡ fs }
    ensures one_fault { (text : List ℕ) (f g : EventFault)
        → IsFirstFault (EventFaultAt VersionOne) f text
        → IsFirstFault (EventFaultAt VersionOne) g text → f ≡ g }
    ensures never_both { (text : List ℕ) (es : List Event) (f : EventFault) → EventText One es text
        → IsFirstFault (EventFaultAt VersionOne) f text → ⊥ }
{}

/// And exactly one as events of either version: one version and list of events that it spells, or
/// one first fault.
pub fn one_reading_any()
    ensures some { (text : List ℕ) → ((run : Version × List Event) × RunText Either run text)
        ⊎ ((f : EventFault) × IsFirstFault (EventFaultAt Either) f text) }
    ensures one_run { (text : List ℕ) (r s : Version × List Event) → RunText Either r text
        → RunText Either s text → r ≡ s }
    ensures one_fault { (text : List ℕ) (f g : EventFault)
        → IsFirstFault (EventFaultAt Either) f text
        → IsFirstFault (EventFaultAt Either) g text → f ≡ g }
    ensures never_both { (text : List ℕ) (r : Version × List Event) (f : EventFault)
        → RunText Either r text → IsFirstFault (EventFaultAt Either) f text → ⊥ }
{}

/// A list of events has exactly one text at each version where its numbers are within their widths,
/// and else none: the header's line, and for each event the line that is written for it.
pub fn one_text()
    ensures one { (version : Version) (es : List Event) (text : List ℕ) → EventText version es text
        → text ≡ ended (event_header version ∷ map event_line es) }
    ensures some { (version : Version) (es : List Event) → All IsWithinWidths es
        → EventText version es (ended (event_header version ∷ map event_line es)) }
    ensures within { (version : Version) (es : List Event) (text : List ℕ)
        → EventText version es text → All IsWithinWidths es }
{}

/// Texts with the header of version 1 are read alike whichever headers are taken, events and
/// faults, and a text of version 2 has no header where only that of version 1 is.
pub fn versions()
    ensures one { (text : List ℕ) (es : List Event) → EventText One es text
        ↔ RunText Either (One, es) text }
    ensures fault { (text : List ℕ) (f : EventFault) → f ≢ NoHeader
        → IsFirstFault (EventFaultAt VersionOne) f text
        → IsFirstFault (EventFaultAt Either) f text }
    ensures two { (text : List ℕ) (es : List Event) → EventText Two es text
        → IsFirstFault (EventFaultAt VersionOne) NoHeader text }
{}

/// Each text has exactly one version and list of first events, whichever headers are taken, and in
/// a text that spells events they are its version and all of these.
pub fn first_events()
    ensures some { (headers : Headers) (text : List ℕ) → (v : Option Version) × (es : List Event)
        × FirstEvents headers v es text }
    ensures one_version { (headers : Headers) (text : List ℕ) (v w : Option Version) (es fs : List Event)
        → FirstEvents headers v es text → FirstEvents headers w fs text → v ≡ w }
    ensures one_list { (headers : Headers) (text : List ℕ) (v w : Option Version)
        (es fs : List Event)
        → FirstEvents headers v es text → FirstEvents headers w fs text → es ≡ fs }
    ensures all { (headers : Headers) (text : List ℕ) (v : Version) (es : List Event)
        → RunText headers (v, es) text → FirstEvents headers (Some v) es text }
{}

/// Of a source of which nothing was taken, no event was read.
pub fn none_read<R: Read, const AHEAD: usize>()
    ensures { (headers : Headers) (first : Counted R) (source : Source R AHEAD) (now : EventReader)
        → HasTaken R.remaining first source []
        → IsAtStart headers now → HasReadEvents headers R.remaining first source now [] }
{}
