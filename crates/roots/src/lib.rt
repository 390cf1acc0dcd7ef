// For the tests: the nearest whole metre of any number taken as a squared distance. The public calls come only to sums of two squares.
#![tactic(auto)]

ghost use Rattle.std.specs.Prelude.{◌≡◌};
ghost use Rattle.distance.specs.Metres.{metres};

/// The metres of a squared distance in square centimetres.
#[unsafe(no_mangle)]
pub extern "C" fn roots_metres(q: u64) -> u64
    ensures returned { result ≡ metres q }
{
    distance::root(q)
}
