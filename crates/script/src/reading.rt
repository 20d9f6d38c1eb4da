ghost use Rattle.std.specs.Prelude.{◌≡◌, IfOk};
ghost use Rattle.std.specs.Option.{option_map};
ghost use Rattle.script.specs.Left.{words_left};
ghost use Rattle.script.specs.Calls.{verb_of, order_of, line_says, order_in, said_by};

use super::call::{Call, Line, Verb};
use super::words::Words;
use std::alloc::{AllocError, Global};

// The verb of a word; none where no call begins with it.
fn verb_of(word: &[u8]) -> Option<Verb>
    ensures { result ≡ verb_of word.now }
{
    Verb::ALL.iter().copied().find(|verb| word == verb.word())
}

// The call of a verb with the words that are left; none where these are not its arguments.
fn read_call(heap: Global, verb: Verb, mut words: Words<'_>) -> Result<Option<Call>, AllocError>
    ensures { IfOk result (λ o. option_map order_in o ≡ order_of verb (words_left words.entry)) }
{
    Ok(match verb {
        Verb::Table => words.one_bytes(heap)?.map(Call::Table),
        Verb::Judge => words
            .bytes_and_room(heap)?
            .map(|(bytes, room)| Call::Judge(bytes, room)),
        Verb::Measure => {
            words
                .bytes_and_room(heap)?
                .map(|(bytes, room)| Call::Measure(bytes, room))
        }
        Verb::States => words.next().is_none().then_some(Call::States),
        Verb::Rank => words.one_number().map(Call::Rank),
        Verb::Target => words
            .three_numbers()
            .map(|(kind, a, b)| Call::Target(kind, a, b)),
        Verb::Mark => words.one_number().map(Call::Mark),
    })
}

// What a line of a script says. It fails only for want of memory.
pub fn read_line(heap: Global, line: &[u8]) -> Result<Line, AllocError>
    ensures { IfOk result (λ l. said_by l ≡ line_says line.now) }
{
    let mut words = Words::of(line);
    let Some(word) = words.next() else {
        return Ok(Line::Blank);
    };
    let Some(verb) = verb_of(word) else {
        return Ok(Line::NoCall);
    };
    Ok(read_call(heap, verb, words)?.map_or(Line::NoCall, Line::Call))
}
