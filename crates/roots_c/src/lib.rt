// The calls of `roots` for C: each hands on what the library's function of its name answers, under the same clauses.
#![tactic(auto)]

ghost use Rattle.std.specs.Prelude.{◌≡◌};
ghost use Rattle.distance.specs.Metres.{metres};

/// The metres of a squared distance in square centimetres.
#[unsafe(no_mangle)]
pub extern "C" fn roots_metres(q: u64) -> u64
    ensures returned { result ≡ metres q }
{
    roots::roots_metres(q)
}
