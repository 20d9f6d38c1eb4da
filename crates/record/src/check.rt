ghost use Rattle.std.specs.Prelude.{◌≡◌, ◌<◌, ◌≤◌, length, Ok};
ghost use Rattle.ruling.specs.Trees.{Tree};
ghost use Rattle.ruling.specs.Checks.{Answers};
ghost use Rattle.ruling.specs.Listed.{list_of};
ghost use Rattle.record.specs.Reading.{length_fault, read_record, fault_in, OneRecord};
ghost use Rattle.record.specs.Laws.{Written, ReadsExactly};

use super::reader::Reader;
use ruling::{Kinds, Refusal};

// The most nodes that a checked record has.
pub const MAX_NODES: usize = 4096;

// The length of a record: 8.
fn check_length(bytes: &[u8], limit: usize) -> Result<(), Refusal>
    ensures { Answers (length_fault (length bytes.now) limit) (λ _. (0 < length bytes.now) × (length bytes.now ≤ limit)) result }
{
    if bytes.is_empty() {
        return Err(Refusal::RecordLength(0));
    }
    if bytes.len() > limit {
        return Err(Refusal::RecordLength(limit));
    }
    Ok(())
}

// Whether the bytes are one record over the kinds, of at most `limit` nodes: 8, then byte by byte 9 and 10, then 11.
pub fn check_record(kinds: &Kinds, bytes: &[u8], limit: usize) -> Result<(), Refusal>
    ensures answer { Answers (fault_in (read_record (list_of kinds.now) limit bytes.now)) (λ _. OneRecord (list_of kinds.now) limit bytes.now) result }
    ensures exact { (t : Tree) → Written (list_of kinds.now) limit bytes.now t → result ≡ Ok tt }
    ensures law { ReadsExactly (list_of kinds.now) limit bytes.now }
{
    check_length(bytes, limit)?;
    let mut reader = Reader::new();
    for (at, byte) in bytes.iter().enumerate() {
        reader.read(kinds, *byte, at)?;
    }
    if reader.parts() == 1 {
        Ok(())
    } else {
        Err(Refusal::SeveralParts(bytes.len()))
    }
}
