//! Who acts, by the levels of those that take part.
ghost use Rattle.std.specs.Prelude.{◌≡◌, position};
ghost use Rattle.apex_base.specs.Acting.{acting, is_low, is_medium, is_high};

use apex_base::Level;

/// The place of the observer that acts, by the levels of those that take part: the first of the least level above NONE, or
/// None if all have NONE. It takes no memory.
pub fn acting(levels: &[Level]) -> Option<usize>
    ensures { result ≡ acting levels.now }
{
    first_low(levels).or(first_medium(levels).or(first_high(levels)))
}

fn first_low(levels: &[Level]) -> Option<usize>
    ensures { result ≡ position is_low levels.now }
{
    levels.iter().position(|level| matches!(level, Level::Low))
}

fn first_medium(levels: &[Level]) -> Option<usize>
    ensures { result ≡ position is_medium levels.now }
{
    levels
        .iter()
        .position(|level| matches!(level, Level::Medium))
}

fn first_high(levels: &[Level]) -> Option<usize>
    ensures { result ≡ position is_high levels.now }
{
    levels.iter().position(|level| matches!(level, Level::High))
}
