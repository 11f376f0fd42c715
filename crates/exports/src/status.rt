// What a call tells C: 0 or more where it is accepted, minus the paper's number where it is refused. (C has no Result: turmexol.h declares an int64_t.)
// (A call that writes behind a pointer matches on what it is answered. With `status` of a `map` whose closure writes there, tried in all three, its number
// is proved and what is written is not: of what a closure has borrowed the check knows nothing where the closure is not called.)
ghost use Rattle.std.specs.Prelude.{◌≡◌};
ghost use Rattle.exports.specs.Status.{minus_number, status};

use limits::refusal::Refusal;

pub(crate) fn minus_number(why: Refusal) -> i64
    ensures { result ≡ minus_number why }
{
    -i64::from(why.number())
}

// What C is told of a number or a refusal.
pub(crate) fn status(said: Result<u32, Refusal>) -> i64
    ensures { result ≡ status said }
{
    said.map_or_else(minus_number, i64::from)
}
