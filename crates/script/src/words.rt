ghost use Rattle.std.specs.Prelude.{◌≡◌};
ghost use Rattle.std.specs.List.{position};
ghost use Rattle.script.specs.Words.{is_blank, not_blank, ends_word};

fn is_blank(c: u8) -> bool
    ensures { result ≡ is_blank c }
{
    matches!(c, b' ' | b'\t' | b'\n' | b'\r')
}

fn ends_word(c: u8) -> bool
    ensures { result ≡ ends_word c }
{
    is_blank(c) || c == b'#'
}

// Where the first word begins, or the comment; none where only blanks are left.
fn word_start(text: &[u8]) -> Option<usize>
    ensures { result ≡ position not_blank text.now }
{
    text.iter().position(|c| !is_blank(*c))
}

// Where the word at the front ends; none where it goes on to the end.
fn word_end(text: &[u8]) -> Option<usize>
    ensures { result ≡ position ends_word text.now }
{
    text.iter().position(|c| ends_word(*c))
}

// The words of a line that are still to come.
#[derive(Debug, Drop)]
pub(super) struct Words<'a> {
    rest: &'a [u8],
}

impl<'a> Words<'a> {
    pub(super) fn of(line: &'a [u8]) -> Words<'a>
        ensures { result.rest.now ≡ line.now }
    {
        Words { rest: line }
    }
}

impl<'a> Iterator for Words<'a> {
    ghost use Rattle.std.specs.Iterator.{YieldsFirstRef, item_count};
    ghost use Rattle.script.specs.Left.{words_left};

    type Item = &'a [u8];

    ghost next_gives = { YieldsFirstRef words_left };

    ghost remaining = { item_count words_left };

    fn next(&mut self) -> Option<&'a [u8]> {
        let Some(start) = word_start(self.rest) else {
            // The blanks are passed once: asked again, there is nothing to go over.
            self.rest = &[];
            return None;
        };
        let text = &self.rest[start..];
        let (word, rest) = text.split_at(word_end(text).unwrap_or(text.len()));
        self.rest = rest;
        if word.is_empty() { None } else { Some(word) }
    }
}
