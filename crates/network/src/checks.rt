// What the grounds of both kinds of record share.
ghost use Rattle.std.specs.Prelude.{◌≡◌, cond};
ghost use Rattle.network.specs.Records.{rated_ok};

// Whether a rated voltage lies from 9/10 to 11/10 of the nominal one.
pub(crate) fn rated_ok(rated: u32, nominal: u32) -> bool
    ensures { result ≡ rated_ok rated nominal }
{
    let v = 10 * (rated as u64);
    let un = nominal as u64;
    (9 * un <= v) & (v <= 11 * un)
}

// The number of the first ground that fails: this one's unless its test is passed, else what is left of the chain.
pub(crate) fn unless(ok: bool, number: u32, rest: u32) -> u32
    ensures { result ≡ cond ok rest number }
{
    if ok { rest } else { number }
}
