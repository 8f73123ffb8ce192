//! Heads of a loop, one after another.

ghost use Rattle.std.specs.Prelude.{◌≡◌, ◌+◌, ◌-◌, ◌<◌, ◌≤◌, ◌^◌, IfOk, OnErr};
ghost use Rattle.ep_flows.specs.Rounds.{ComesRound};
ghost use Rattle.ep_flows.specs.View.{capped, ops_for, plan_of, wider_of};
ghost use Rattle.ep_pass.specs.ReportLaws.{HeadsGoRound};

use crate::log::Log;
use crate::setting::Setting;
use crate::states::AbstractStates;
use ep_int::Memory;
use ep_pass::laws::reports;

/// Heads one after another. One of them is marked, to tell when they come round: the first, and then the one after 1,
/// 2, 4, 8 and so on more (R. P. Brent 1980).
#[derive(Drop)]
pub struct Rounds<K> {
    pub mark: K,
    /// So many heads may still be tried.
    pub left: u128,
    /// So many have come since the marked one.
    pub since: u128,
    /// At so many the mark moves on.
    pub window: u128,
    /// The passes through bodies of loops that are counted since the marked one.
    pub counted: u64,
}

/// The first head is marked.
pub fn started<K: AbstractStates>(head: &K, left: u128) -> Result<Rounds<K>, Memory>
    ensures mark { IfOk result (λ r. r.mark ≡ head.now) }
    ensures left { IfOk result (λ r. r.left ≡ left) }
    ensures since { IfOk result (λ r. r.since ≡ 0) }
    ensures counted { IfOk result (λ r. r.counted ≡ 0) }
{
    Ok(Rounds {
        mark: head.copied()?,
        left,
        since: 0,
        window: 1,
        counted: 0,
    })
}

/// A head is tried whose turn has so many passes.
pub fn tried<K: Drop>(rounds: Rounds<K>, turns: u64) -> Rounds<K>
    requires some { 0 < rounds.left }
    requires bound { rounds.since + rounds.left ≤ 2 ^ 128 - 1 }
    ensures mark { result.mark ≡ rounds.mark }
    ensures left { result.left ≡ rounds.left - 1 }
    ensures since { result.since ≡ rounds.since + 1 }
    ensures counted { capped result.counted ≡ capped (rounds.counted + turns) }
{
    Rounds {
        mark: rounds.mark,
        left: rounds.left - 1,
        since: rounds.since + 1,
        window: rounds.window,
        counted: rounds.counted.saturating_add(turns),
    }
}

/// Another head comes. Where it is the marked one, the rounds that are left are counted and not made.
pub fn come_to<K: AbstractStates>(
    rounds: Rounds<K>,
    head: &K,
    log: &mut Log<K>,
) -> Result<Rounds<K>, Memory>
    requires { 0 < rounds.since }
    ensures alarms { log.new.alarms ≡ log.old.alarms }
    ensures heads { log.new.heads ≡ log.old.heads }
    ensures stop { OnErr result (log.new.count ≡ log.old.count) }
    ensures rounds { IfOk result (λ s. ComesRound rounds head.now s log.old.count log.new.count) }
{
    let Rounds {
        mark,
        left,
        since,
        window,
        counted,
    } = rounds;
    if head.is_same(&mark) {
        log.count_more(left / since, counted);
        return Ok(Rounds {
            mark,
            left: left % since,
            since: 0,
            window,
            counted: 0,
        });
    }
    if since == window {
        return Ok(Rounds {
            mark: head.copied()?,
            left,
            since: 0,
            window: window.saturating_mul(2),
            counted: 0,
        });
    }
    Ok(Rounds {
        mark,
        left,
        since,
        window,
        counted,
    })
}

/// The next head, unless what comes round stays within this one.
pub fn wider<K: AbstractStates>(
    c: &Setting<'_>,
    head: &K,
    next: &Option<K>,
) -> Result<Option<K>, Memory>
    ensures { IfOk result (λ r. r ≡ wider_of (ops_for K.ops (plan_of c.now)) head.now next.now) }
{
    let Some(next) = next else { return Ok(None) };
    let (a, b) = head.copied()?.unified(c, next.copied()?)?;
    if b.leq(c, head) {
        return Ok(None);
    }
    Ok(Some(a.widened(c, b)?.reshared(c)?))
}

/// States what rounds of heads come to, and does nothing.
pub fn rounds_known<K: AbstractStates>()
    ensures { HeadsGoRound K }
{
    reports::<K>();
}
