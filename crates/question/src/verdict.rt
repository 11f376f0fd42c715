// Whether a file is a question file: refusals 10, 11 and 12. It stands above the reader, by which it reads the bodies.
ghost use Rattle.std.specs.Prelude.{◌≡◌};
ghost use Rattle.question.specs.File.{ok_bodies, file_verdict};

use crate::body::ok_body;
use crate::file::{ok_header, ok_pairs};
use crate::reader::Reader;
use limits::refusal::{Refusal, Verdict};

// Whether each body has its kind's form.
fn ok_bodies(file: &[u8]) -> bool
    ensures { result ≡ ok_bodies file.now }
{
    Reader::new(file).all(ok_body)
}

// The lowest of the three that applies.
#[tactic(auto, unfolding(crate::specs::File::file_verdict))]
pub fn file_verdict(file: &[u8]) -> Verdict
    ensures { result ≡ file_verdict file.now }
{
    if !ok_header(file) {
        Err(Refusal::FileHeader)
    } else if !ok_pairs(file) {
        Err(Refusal::FilePairs)
    } else if !ok_bodies(file) {
        Err(Refusal::FileBody)
    } else {
        Ok(())
    }
}
