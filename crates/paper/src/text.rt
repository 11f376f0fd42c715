// Pieces of a line, each written at the start of a slice that has room for it. All return how many bytes they took.
//
// The form of the writers here, in `lines` and in `sheet` is a rule of document 01, which gives "Each line goes after the bytes already written" the form
// "part of the output slice from the current length is lent on to the line writer". So each takes a slice, promises its piece at the start of it and the
// rest as it was (`over`), and answers its length, from which the caller lends on. A String is out of the question, since the library allocates nothing.
ghost use Rattle.std.specs.Prelude.{◌≡◌, ◌≤◌, length};
ghost use Rattle.question.specs.Over.{over};
ghost use Rattle.paper.specs.Lines.{Number, decimal, ended};

// How many digits a number has.
#[tactic(auto, using(crate::proofs::Decimal::length_log, crate::proofs::Decimal::length_zero))]
pub(crate) fn digits_of(n: u32) -> usize
    ensures { (result ≡ length (decimal n)) × (result ≤ 10) }
{
    n.checked_ilog10().map_or(1, |log| log as usize + 1)
}

// A number in decimal.
#[tactic(auto, using(crate::proofs::Decimal::decimal_text), unfolding(question::specs::Over::over))]
fn write_number(out: &mut [u8], n: u32) -> usize
    requires { length (decimal n) ≤ length out.old }
    ensures value { result ≡ length (decimal n) }
    ensures out_after { out.new ≡ over (decimal n) out.old }
{
    let len = digits_of(n);
    itoa::write_digits(n as u64, out, len);
    len
}

// A number and the byte after it.
#[tactic(auto, using(crate::proofs::Pieces::ended_length, crate::proofs::Lent::ended_put))]
pub(crate) fn write_field(out: &mut [u8], n: u32, end: u8) -> usize
    requires { length (ended (Number n) end) ≤ length out.old }
    ensures value { result ≡ length (ended (Number n) end) }
    ensures out_after { out.new ≡ over (ended (Number n) end) out.old }
{
    let k = write_number(out, n);
    out[k] = end;
    k + 1
}

// Bytes as they are.
#[tactic(auto, unfolding(question::specs::Over::over))]
pub(crate) fn write_bytes(out: &mut [u8], src: &[u8]) -> usize
    requires { length src.now ≤ length out.old }
    ensures value { result ≡ length src.now }
    ensures out_after { out.new ≡ over src.now out.old }
{
    out[..src.len()].copy_from_slice(src);
    src.len()
}
