// "a reader keeps the question file and its next pair": next body and end test. As an iterator it gives the file's bodies, one after the other.
// It keeps the whole file and a number, and no slice of what is left: the pairs say where in the whole file a body stands.
ghost use Rattle.std.specs.Prelude.{◌≡◌, ◌<◌};
ghost use Rattle.std.specs.Iterator.{YieldsFirstRef, item_count};
ghost use Rattle.question.specs.File.{event_count, body_at, at_end, bodies_from};

use crate::file::{body_at, event_count};

#[derive(Clone, Copy)]
pub struct Reader<'a> {
    pub file: &'a [u8],
    pub next: u32,
}

impl<'a> Reader<'a> {
    // At the file's first pair.
    pub fn new(file: &'a [u8]) -> Reader<'a>
        ensures file { result.file.now ≡ file.now }
        ensures first { result.next ≡ 0 }
    {
        Reader { file, next: 0 }
    }

    // The body of the next pair.
    pub fn next_body(&self) -> &'a [u8]
        ensures { result.now ≡ body_at self.now.file.now self.now.next }
    {
        body_at(self.file, self.next)
    }

    // Whether no pair is left; and that the count is a u32, so that a number below it has a next.
    pub fn at_end(&self) -> bool
        ensures value { result ≡ at_end self.now.file.now self.now.next }
        ensures counted { event_count self.now.file.now < 4294967296 }
    {
        event_count(self.file) <= self.next
    }
}

impl<'a> Iterator for Reader<'a> {
    type Item = &'a [u8];

    ghost next_gives = { YieldsFirstRef (λ r. bodies_from r.file.now r.next) };

    ghost remaining = { item_count (λ r. bodies_from r.file.now r.next) };

    #[tactic(auto, using(crate::proofs::Events::bodies_next, crate::proofs::Events::bodies_none))]
    fn next(&mut self) -> Option<&'a [u8]> {
        if self.at_end() {
            return None;
        }
        let body = self.next_body();
        self.next += 1;
        Some(body)
    }
}
