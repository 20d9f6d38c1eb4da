ghost use Rattle.std.specs.Prelude.{◌≡◌, ◌+◌, ◌^◌, ◌<◌, length, IfOk};
ghost use Rattle.ruling.specs.Trees.{node_count};
ghost use Rattle.ruling.specs.Listed.{list_of};
ghost use Rattle.record.specs.Reading.{OneRecord, read_record, fault_in};
ghost use Rattle.record.specs.Laws.{Written};
ghost use Rattle.record.specs.Held.{bytes_of, tree_of};

use super::check::{MAX_NODES, check_record};
use super::record::Record;
use ruling::{Kinds, Refusal};

impl<'a> Record<'a> {
    // The record in bytes that were found to be one, and that begin at this place of the caller's bytes.
    pub(super) fn held(bytes: &'a [u8], place: usize, kinds: Kinds) -> Record<'a>
        requires one { OneRecord (list_of kinds) 4096 bytes.now }
        requires ends { place + length bytes.now < 2 ^ 64 }
        ensures bytes { bytes_of result ≡ bytes.now }
        ensures kinds { result.kinds ≡ kinds }
        ensures place { result.place ≡ place }
        ensures tree { Written (list_of kinds) 4096 bytes.now (tree_of result) }
    {
        Record {
            bytes,
            place,
            kinds,
        }
    }

    // The record in these bytes, once `check_record` has passed them at MAX_NODES.
    pub fn make(bytes: &'a [u8], kinds: Kinds) -> Record<'a>
        requires { OneRecord (list_of kinds) 4096 bytes.now }
        ensures bytes { bytes_of result ≡ bytes.now }
        ensures kinds { result.kinds ≡ kinds }
        ensures place { result.place ≡ 0 }
        ensures tree { Written (list_of kinds) 4096 bytes.now (tree_of result) }
    {
        Record::held(bytes, 0, kinds)
    }

    // The record in these bytes, checked: 8, then byte by byte 9 and 10, then 11.
    pub fn read(bytes: &'a [u8], kinds: Kinds) -> Result<Record<'a>, Refusal>
        ensures fault { fault_in result ≡ fault_in (read_record (list_of kinds) 4096 bytes.now) }
        ensures bytes { IfOk result (λ r. bytes_of r ≡ bytes.now) }
        ensures kinds { IfOk result (λ r. r.kinds ≡ kinds) }
        ensures place { IfOk result (λ r. r.place ≡ 0) }
        ensures tree { IfOk result (λ r. Written (list_of kinds) 4096 bytes.now (tree_of r)) }
    {
        check_record(&kinds, bytes, MAX_NODES)?;
        Ok(Record::make(bytes, kinds))
    }

    pub fn bytes(&self) -> &'a [u8]
        ensures { result.now ≡ bytes_of self.now }
    {
        self.bytes
    }

    pub fn kinds(&self) -> Kinds
        ensures { result ≡ self.now.kinds }
    {
        self.kinds
    }

    // Where it begins in the caller's bytes.
    pub fn place(&self) -> usize
        ensures { result ≡ self.now.place }
    {
        self.place
    }

    // The number of nodes.
    pub fn len(&self) -> usize
        ensures { result ≡ node_count (tree_of self.now) }
    {
        self.bytes.len()
    }
}
