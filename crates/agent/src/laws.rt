//! What the definitions of messages and tapes mean: laws, which hold of all values and need no
//! code.
ghost use Rattle.std.specs.Prelude.{◌≡◌, ◌<◌, ◌^◌, ◌+◌, ◌*◌, ◌↔◌, ℕ, List, take, None, Some};
ghost use Rattle.model.specs.declared.entry.Entry.{Entry};
ghost use Rattle.model.specs.Messages.{message_bytes, told_bytes, AreRising};
ghost use Rattle.agent.specs.Decoding.{wrong_entry, any_fault};
ghost use Rattle.agent.specs.Tellings.{Telling, IsInRange, BytesTell};

/// Bytes tell one thing at the most: two messages with the same bytes, and numbers within their
/// ranges, are the same.
pub fn messages()
    ensures plan { (plan from done other_plan other_from other_done : ℕ) → plan < 2 ^ 32
        → other_plan < 2 ^ 32
        → message_bytes plan from done ≡ message_bytes other_plan other_from other_done
        → plan ≡ other_plan }
    ensures from { (plan from done other_plan other_from other_done : ℕ) → from < 2 ^ 16
        → other_from < 2 ^ 16
        → message_bytes plan from done ≡ message_bytes other_plan other_from other_done
        → from ≡ other_from }
    ensures done { (plan from done other_plan other_from other_done : ℕ) → done < 2 ^ 32
        → other_done < 2 ^ 32
        → message_bytes plan from done ≡ message_bytes other_plan other_from other_done
        → done ≡ other_done }
{}

/// So do those of version 2, whose numbers are all within their ranges; and no bytes are a message
/// of both versions. Of entries just those that rise have none that is wrong, and the first wrong
/// one is that with which they don't rise any more.
pub fn whole_messages()
    ensures one { (t u : Telling) → IsInRange t → IsInRange u
        → told_bytes t.plan t.message ≡ told_bytes u.plan u.message → t ≡ u }
    ensures not_both { (plan from done : ℕ) (t : Telling)
        → message_bytes plan from done ≡ told_bytes t.plan t.message → ⊥ }
    ensures rising { (entries : List Entry) → AreRising 0 entries
        ↔ (wrong_entry 0 0 entries ≡ None) }
    ensures first { (entries : List Entry) (e : ℕ) → wrong_entry 0 0 entries ≡ Some e
        → AreRising 0 (take e entries) × (AreRising 0 (take (e + 1) entries) → ⊥) }
{}

/// Bytes that tell something have no fault, and tell nothing else.
pub fn tellings()
    ensures fine { (bytes : List ℕ) (t : Telling) → BytesTell bytes t → any_fault bytes ≡ None }
    ensures one { (bytes : List ℕ) (t u : Telling) → BytesTell bytes t → BytesTell bytes u → t ≡ u }
{
    messages();
    whole_messages();
}
