//! The words of a line.
ghost use Rattle.std.specs.Prelude.{◌≡◌};
ghost use Rattle.std.specs.Iterator.{YieldsFirstRef, item_count};
ghost use Rattle.runend_script.specs.Words.{words_of};

/// Iterates over the words of a line from left to right. Only spaces separate words: a tab is part
/// of one.
#[derive(Clone, Copy)]
pub struct Words<'a> {
    rest: &'a str,
}

impl<'a> Words<'a> {
    /// Returns all words of the line.
    pub fn new(line: &'a str) -> Words<'a>
        ensures { result.rest.now ≡ line.now }
    {
        Words { rest: line }
    }
}

impl<'a> Iterator for Words<'a> {
    type Item = &'a str;

    ghost next_gives = { YieldsFirstRef (λ words. words_of words.rest.now) };

    ghost remaining = { item_count (λ words. words_of words.rest.now) };

    fn next(&mut self) -> Option<&'a str> {
        while let Some((word, rest)) = self.rest.split_once(' ') {
            self.rest = rest;
            if !word.is_empty() {
                return Some(word);
            }
        }
        let last = self.rest;
        self.rest = "";
        if last.is_empty() { None } else { Some(last) }
    }
}
