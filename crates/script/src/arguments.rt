ghost use Rattle.std.specs.Prelude.{◌≡◌, IfOk, vec_items};
ghost use Rattle.std.specs.Option.{option_map};
ghost use Rattle.script.specs.Left.{words_left};
ghost use Rattle.script.specs.Arguments.{hex_byte, hex_bytes, bytes_in, number_in, one_bytes, one_number, three_numbers, room_in, bytes_and_room};

use super::words::Words;
use std::alloc::{AllocError, Global};

// Numbers above this count as this.
const WIDEST: u32 = 65536;

// A stack of this length is long enough for every record.
const LONG_ENOUGH: u32 = 4096;

// A number of any width; none where a byte is no digit.
fn number(word: &[u8]) -> Option<u32>
    ensures { result ≡ number_in word.now }
{
    let mut n = 0;
    for c in word {
        let digit = char::from(*c).to_digit(10)?;
        n = (n * 10 + digit).min(WIDEST);
    }
    Some(n)
}

fn hex_byte(high: u8, low: u8) -> Option<u8>
    ensures { result ≡ hex_byte high low }
{
    let x = char::from(high).to_digit(16)?;
    let y = char::from(low).to_digit(16)?;
    Some((x * 16 + y) as u8)
}

fn hex_bytes(heap: Global, word: &[u8]) -> Result<Option<Vec<u8>>, AllocError>
    ensures { IfOk result (λ o. option_map vec_items o ≡ hex_bytes word.now) }
{
    let mut bytes = Vec::new(heap);
    for pair in word.chunks(2) {
        let [high, low] = pair else {
            return Ok(None);
        };
        let Some(byte) = hex_byte(*high, *low) else {
            return Ok(None);
        };
        bytes.push(byte)?;
    }
    Ok(Some(bytes))
}

// The bytes of a word; none where it is no bytes.
fn bytes_of(heap: Global, word: &[u8]) -> Result<Option<Vec<u8>>, AllocError>
    ensures { IfOk result (λ o. option_map vec_items o ≡ bytes_in word.now) }
{
    if word == b"-".as_slice() {
        return Ok(Some(Vec::new(heap)));
    }
    hex_bytes(heap, word)
}

// What is left of a line, read as arguments. What takes memory is passed the heap, as the library's own methods are.
impl Words<'_> {
    // The one number that is left.
    pub(super) fn one_number(mut self) -> Option<u32>
        ensures { result ≡ one_number (words_left self.entry) }
    {
        match (self.next(), self.next()) {
            (Some(word), None) => number(word),
            _ => None,
        }
    }

    // The three numbers that are left.
    pub(super) fn three_numbers(mut self) -> Option<(u32, u32, u32)>
        ensures { result ≡ three_numbers (words_left self.entry) }
    {
        let k = number(self.next()?)?;
        let a = number(self.next()?)?;
        let b = self.one_number()?;
        Some((k, a, b))
    }

    // The length of a lent stack.
    fn room(mut self) -> Option<u32>
        ensures { result ≡ room_in (words_left self.entry) }
    {
        match (self.next(), self.next()) {
            (None, _) => Some(LONG_ENOUGH),
            (Some(word), None) => number(word),
            (Some(_), Some(_)) => None,
        }
    }

    // The one word of bytes that is left.
    pub(super) fn one_bytes(mut self, heap: Global) -> Result<Option<Vec<u8>>, AllocError>
        ensures { IfOk result (λ o. option_map vec_items o ≡ one_bytes (words_left self.entry)) }
    {
        match (self.next(), self.next()) {
            (Some(word), None) => bytes_of(heap, word),
            _ => Ok(None),
        }
    }

    // The bytes that are left, and the length of a lent stack.
    pub(super) fn bytes_and_room(
        mut self,
        heap: Global,
    ) -> Result<Option<(Vec<u8>, u32)>, AllocError>
        ensures { IfOk result (λ o. option_map (λ p. (p.0.items, p.1)) o ≡ bytes_and_room (words_left self.entry)) }
    {
        let (Some(word), Some(room)) = (self.next(), self.room()) else {
            return Ok(None);
        };
        Ok(bytes_of(heap, word)?.map(|bytes| (bytes, room)))
    }
}
