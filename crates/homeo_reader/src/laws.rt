//! What is true of the texts of all workloads, whatever reads them. The definitions are this project's own.

ghost use Rattle.std.specs.Prelude.{◌≡◌, ℕ, List, length};
ghost use Rattle.homeo_syntax.specs.Source as s;
ghost use Rattle.homeo_syntax.specs.Reads.{Reads, IsUnread};
ghost use Rattle.homeo_syntax.specs.WellFormed.{IsWellFormed};
ghost use Rattle.homeo_syntax.specs.declared.workload.Refusal.{Refusal};
ghost use Rattle.homeo_reader.specs.Cut.{IsCutShort};
ghost use Rattle.homeo_reader.specs.Stands.{DeclarationsStand, TextsStand};

/// No text reads as two workloads.
pub fn one_reading()
    ensures { (text : List ℕ) (v w : s.Workload) → Reads text v → Reads text w → v ≡ w }
{}

/// What a text reads as is well formed: no name stands twice, each is spelled as a name, and each identifier is one of
/// them.
pub fn well_formed()
    ensures { (text : List ℕ) (w : s.Workload) → Reads text w → IsWellFormed w }
{}

/// A text that is refused reads as no workload.
pub fn unread()
    ensures { (text : List ℕ) (r : Refusal) (w : s.Workload) → IsUnread text r → Reads text w → ⊥ }
{}

/// A text has one refusal at most.
pub fn one_refusal()
    ensures { (text : List ℕ) (r q : Refusal) → IsUnread text r → IsUnread text q → r ≡ q }
{}

/// A workload's text that was cut short behind one of its tokens is refused at its end, since more is wanted there.
pub fn cut_texts()
    ensures { (text cut : List ℕ) (w : s.Workload) → Reads text w → IsCutShort text cut
        → IsUnread cut (record { code = 4; offset = length cut }) }
{}

/// Where clients, a schedule or the end come in the place of a workload's last token, the declarations stay.
pub fn declarations_stand()
    ensures { DeclarationsStand }
{}

/// Where an ending that begins with `client`, `schedule` or `end` stands in the place of a text's last line, which is `end`,
/// the declarations stay.
pub fn texts_stand()
    ensures { TextsStand }
{}
