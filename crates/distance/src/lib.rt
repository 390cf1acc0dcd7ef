// The nearest whole metre between two points: the integer root, by falling estimates.
#![tactic(auto)]

ghost use Rattle.std.specs.Prelude.{◌≡◌, ◌≤◌, ◌*◌, ◌+◌, ◌<◌};
ghost use Rattle.distance.specs.Metres.{metres, Nearest, max_offset, max_metres, difference, squared_distance, metres_between};

/// The nearest whole metre of a squared distance in square centimetres, a half going up.
///
/// The estimates count half metres: each is at least the root, and the first that does not fall is the root. Half of the next number, rounded down,
/// is the nearest metre.
#[tactic(auto, using(crate::proofs::Largest::none_metres))]
pub fn root(q: u64) -> u64
    ensures { (result ≡ metres q) × Nearest q result }
{
    let n = q / 2500;
    if n == 0 {
        return 0;
    }
    let mut x = n;
    // A loop: each estimate is made from the one before, and none is counted.
    let halves = loop {
        let next = (x + n / x) / 2;
        if x <= next {
            break x;
        }
        x = next;
    };
    (halves + 1) / 2
}

/// The nearest whole metre between two points, their coordinates in centimetres counted from -1,000,000.
pub fn between(e: u32, n: u32, e2: u32, n2: u32) -> u32
    requires { (e ≤ max_offset) × (n ≤ max_offset) × (e2 ≤ max_offset) × (n2 ≤ max_offset) }
    ensures { (result ≡ metres_between e n e2 n2) × (result ≤ max_metres) × Nearest (squared_distance e n e2 n2) result }
{
    let east = e.abs_diff(e2) as u64;
    let north = n.abs_diff(n2) as u64;
    root(east * east + north * north) as u32
}
