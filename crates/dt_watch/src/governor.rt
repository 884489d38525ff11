//! By how much a window grows or shrinks, from what was measured in a round. Times are microseconds.
ghost use Rattle.std.specs.Prelude.{◌≡◌, ◌≤◌, ◌<◌, ◌^◌};
ghost use Rattle.dt_watch.specs.Governor.{aim_of, ceiling_of, cut_of};

use crate::routes::Route;

/// The longest delay in queues that is ever aimed at: half of what the budget leaves, and no more than
/// three quarters of `resend` leave, so that nothing goes again that wasn't lost. 500 at least.
fn ceiling(route: &Route) -> u64
    ensures { result ≡ ceiling_of route.now }
{
    let budget = route.budget.saturating_sub(route.base) / 2;
    let resend = (3 * route.resend / 4).saturating_sub(route.base);
    budget.min(resend).max(500)
}

/// The delay in queues that is aimed at: a quarter of the base, 2,000 at least, and what the budget and
/// `resend` allow at most.
pub fn aim(route: &Route) -> u64
    ensures aim { result ≡ aim_of route.now }
    ensures ceiling { result ≤ ceiling_of route.now }
{
    (route.base / 4).max(2000).min(ceiling(route))
}

/// By how many thousandths a window shrinks after a round whose delay in queues was above the aim: 80 to
/// 500, and between them 800 times the excess over the whole delay.
pub fn cut(queue: u64, base: u64, aim: u64) -> u32
    requires queue { queue < 2 ^ 50 }
    requires base { base < 2 ^ 50 }
    requires above { aim < queue }
    ensures value { result ≡ cut_of queue base aim }
    ensures least { 80 ≤ result }
    ensures most { result ≤ 500 }
{
    let parts = 800 * (queue - aim) / (queue + base);
    parts.clamp(80, 500) as u32
}
