// Reading a figure: one to eight digits, and if they follow, a point and one or two decimals. Nothing else is one.
#![tactic(auto)]

ghost use Rattle.std.specs.Prelude.{◌≡◌};
ghost use Rattle.figures.specs.Figures.{read_digit, pointed, decimals, ended, figure_of};

// The most digits of a whole part.
const MOST_DIGITS: usize = 8;

// What a digit stands for.
fn digit(b: u8) -> Option<u32>
    ensures { result ≡ read_digit b }
{
    match b {
        b'0'..=b'9' => Some(u32::from(b - b'0')),
        _ => None,
    }
}

// A whole part with what should be a point and two decimals.
fn with_point(whole: u32, point: u8, tenth: u8, hundredth: u8) -> Option<u32>
    ensures { result ≡ pointed whole point tenth hundredth }
{
    if point != b'.' {
        return None;
    }
    let decimals = 10 * digit(tenth)? + digit(hundredth)?;
    u32::try_from(100 * u64::from(whole) + u64::from(decimals)).ok()
}

// A whole part with what stands behind it. Decimals that are not written are zeros.
fn with_decimals(whole: u32, s: &[u8]) -> Option<u32>
    ensures { result ≡ decimals whole s.now }
{
    match s {
        [] => with_point(whole, b'.', b'0', b'0'),
        [point, tenth] => with_point(whole, *point, *tenth, b'0'),
        [point, tenth, hundredth] => with_point(whole, *point, *tenth, *hundredth),
        _ => None,
    }
}

// A whole part of `count` digits with what stands behind it. No digit is no whole part.
fn with_whole(count: usize, whole: u32, s: &[u8]) -> Option<u32>
    ensures { result ≡ ended count whole s.now }
{
    if count == 0 {
        return None;
    }
    with_decimals(whole, s)
}

// In hundredths of what the text counts; none where it is no figure.
pub fn read_figure(s: &[u8]) -> Option<u32>
    ensures { result ≡ figure_of s.now }
{
    let mut whole = 0;
    for (count, b) in s.iter().enumerate() {
        match digit(*b) {
            Some(d) if count < MOST_DIGITS => whole = 10 * whole + d,
            _ => return with_whole(count, whole, &s[count..]),
        }
    }
    with_whole(s.len(), whole, &[])
}
