//! What reading a stream and its grammar have to do with each other: theorems, as functions with an empty body.
//! The rules: docs/STREAMS.md, "Headers", "Records" and "Readers".
ghost use Rattle.std.specs.Prelude.{◌≡◌, None, List, [], ◌++◌, ℕ};
ghost use Rattle.kt_stream.specs.declared.kind.Head.{Head};
ghost use Rattle.kt_stream.specs.declared.kind.Shape.{Shape};
ghost use Rattle.kt_stream.specs.Grammar.{Spells, IsSpelled, spelled, entries_of};
ghost use Rattle.kt_stream.specs.Growth.{GrowsTo};
ghost use Rattle.kt_stream.specs.Stream.{stream_of, fault_of, AreBytes};

use crate::unit::Entry;

/// What was read stays with more bytes behind: the header, the records, and a refusal.
pub fn what_is_read_stays<E: Entry>()
    ensures { (shape : Shape) (bytes more : List ℕ) → GrowsTo E (stream_of E.form shape bytes) (stream_of E.form shape (bytes ++ more)) }
{
    E::laws();
}

/// What is written as a stream is read back.
pub fn what_is_spelled_is_read<E: Entry>()
    ensures { (shape : Shape) (bytes : List ℕ) (head : Head) (entries : List E) → Spells E E.form E.IsGood shape bytes head entries → stream_of E.form shape bytes ≡ spelled E.form shape head entries }
{
    E::laws();
}

/// Bytes are at most one stream: what is written differently is different.
pub fn bytes_spell_one_stream<E: Entry>()
    ensures { (shape : Shape) (bytes : List ℕ) (head other_head : Head) (entries other_entries : List E) → Spells E E.form E.IsGood shape bytes head entries → Spells E E.form E.IsGood shape bytes other_head other_entries → (head ≡ other_head) × (entries ≡ other_entries) }
{
    E::laws();
}

/// Bytes (each below 256) without a fault are a header with records behind it, and these are what is read of them.
pub fn what_is_read_is_spelled<E: Entry>()
    ensures { (shape : Shape) (bytes : List ℕ) → AreBytes bytes → fault_of E.form shape bytes ≡ None → IsSpelled E E.form E.IsGood shape bytes }
{
    E::laws();
}

/// A stream of records behind others has the records of both, places aside.
pub fn records_follow_records<E: Entry>()
    ensures { (shape : Shape) (bytes first_bytes last_bytes : List ℕ) (head : Head) (first last : List E) → Spells E E.form E.IsGood shape bytes head (first ++ last) → Spells E E.form E.IsGood shape first_bytes head first → Spells E E.form E.IsGood shape last_bytes head last → entries_of (stream_of E.form shape bytes).entries ≡ entries_of (stream_of E.form shape first_bytes).entries ++ entries_of (stream_of E.form shape last_bytes).entries }
{
    E::laws();
}

/// Without a header there are no records.
pub fn no_header_means_no_records<E: Entry>()
    ensures { (shape : Shape) (bytes : List ℕ) → (stream_of E.form shape bytes).head ≡ None → (stream_of E.form shape bytes).entries ≡ [] }
{}
