ghost use Rattle.std.specs.Prelude.{◌≡◌, ℕ, ◌+◌, ◌<◌, ◌≤◌, List, ◌++◌, length, take, drop, is_some, IfSome, Some, nat_lt, slice_index};
ghost use Rattle.ruling.specs.Trees.{Tree, Over, postorder};
ghost use Rattle.ruling.specs.Listed.{list_of};
ghost use Rattle.record.specs.Reading.{OneRecord, tree_in};
ghost use Rattle.record.specs.Held.{bytes_of, kinds_of, tree_of};
ghost use Rattle.record.specs.Children.{root_kind, child_tree, child_span, ChildOf};

use super::record::Record;
use ruling::Kinds;

// A part of a record's own bytes.
#[derive(Clone, Copy, Debug, PartialEq, Eq)]
pub struct Span {
    pub start: usize,
    pub len: usize,
}

// The rank of a kind; 0 where there is no such kind.
fn rank_or_zero(kinds: &Kinds, kind: u8) -> usize
    ensures { result ≡ slice_index (list_of kinds.now) kind }
{
    kinds.rank(kind).unwrap_or(0) as usize
}

// Where the last part before `end` begins: each node read backwards is one part less to read, and its rank more.
fn part_start(kinds: &Kinds, bytes: &[u8], end: usize) -> usize
    requires { end < length bytes.now }
    ensures { (xs : List ℕ) (u : Tree) → Over (list_of kinds.now) u → take end bytes.now ≡ xs ++ postorder u → result ≡ length xs }
{
    // By place: an invariant over `enumerate().rev()` has no place to speak of.
    let mut need = 1;
    for at in (0..end).rev() {
        need = need - 1 + rank_or_zero(kinds, bytes[at]);
        if need == 0 {
            return at;
        }
    }
    0
}

impl<'a> Record<'a> {
    // Where the child of this number stands, from 0; none where the number is not below the root's rank.
    pub fn find_child(&self, number: usize) -> Option<Span>
        ensures span { result ≡ child_span (tree_of self.now) number }
        ensures known { is_some result ≡ nat_lt number (slice_index (kinds_of self.now) (root_kind (tree_of self.now))) }
    {
        let root = self.bytes.len() - 1;
        let rank = rank_or_zero(&self.kinds, self.bytes[root]);
        if number >= rank {
            return None;
        }
        let middle = part_start(&self.kinds, self.bytes, root);
        if number + 1 == rank {
            Some(Span {
                start: middle,
                len: root - middle,
            })
        } else {
            Some(Span {
                start: 0,
                len: middle,
            })
        }
    }

    // The bytes of the child of this number.
    fn part(&self, number: usize, span: Span) -> &'a [u8]
        requires { Some span ≡ child_span (tree_of self.now) number }
        ensures bytes { result.now ≡ take span.len (drop span.start (bytes_of self.now)) }
        ensures inside { span.start + length result.now ≤ length (bytes_of self.now) }
        ensures one { OneRecord (kinds_of self.now) 4096 result.now }
        ensures tree { tree_in (kinds_of self.now) result.now ≡ child_tree (tree_of self.now) number }
    {
        &self.bytes[span.start..span.start + span.len]
    }

    // The child of this number, once `find_child` has found it.
    pub fn child(&self, number: usize, span: Span) -> Record<'a>
        requires { Some span ≡ child_span (tree_of self.now) number }
        ensures tree { tree_of result ≡ child_tree (tree_of self.now) number }
        ensures bytes { bytes_of result ≡ take span.len (drop span.start (bytes_of self.now)) }
        ensures kinds { result.kinds ≡ self.now.kinds }
        ensures place { result.place ≡ self.now.place + span.start }
    {
        let bytes = self.part(number, span);
        Record::held(bytes, self.place + span.start, self.kinds)
    }

    // The child of this number, from 0; none where the number is not below the root's rank.
    pub fn nth_child(&self, number: usize) -> Option<Record<'a>>
        ensures known { is_some result ≡ nat_lt number (slice_index (kinds_of self.now) (root_kind (tree_of self.now))) }
        ensures child { IfSome result (λ child. ChildOf self.now number child) }
    {
        let span = self.find_child(number)?;
        Some(self.child(number, span))
    }
}
