//! The states in which statements are left.

ghost use Rattle.std.specs.Prelude.{◌≡◌, ◌++◌, IfOk, OnOk, None, Some, fold};
ghost use Rattle.ep_core.specs.Exec.{frame_of};
ghost use Rattle.ep_core.specs.View.{function_view};
ghost use Rattle.ep_pass.specs.Pass.{comes_after, join_on, join_ways, leave_call, leave_loop, leave_on, none};
ghost use Rattle.ep_pass.specs.Pass.{only_broken, only_continued, only_on, only_returned, scope_pass};
ghost use Rattle.ep_flows.specs.View.{Passes, mode_of, ops_for, plan_of, flow_view, ways_view};

use crate::log::Log;
use crate::setting::{Running, Setting};
use crate::states::AbstractStates;
use ep_int::Memory;

/// Where statements are left otherwise than at their end.
#[derive(Drop)]
pub struct Ways<K> {
    pub broken: Option<K>,
    pub continued: Option<K>,
    pub returned: Option<K>,
}

/// Where statements are left: at their end, or otherwise.
#[derive(Drop)]
pub struct Flow<K> {
    pub on: Option<K>,
    pub ways: Ways<K>,
}

impl<K> Ways<K> {
    /// No way out is reached.
    pub fn none() -> Ways<K>
        ensures { ways_view result ≡ none }
    {
        Ways {
            broken: None,
            continued: None,
            returned: None,
        }
    }
}

impl<K> Flow<K> {
    /// Left nowhere.
    pub fn none() -> Flow<K>
        ensures on { result.on ≡ None }
        ensures ways { ways_view result.ways ≡ none }
    {
        Flow {
            on: None,
            ways: Ways::none(),
        }
    }

    /// Left at the end, where that is reached.
    pub fn on(on: Option<K>) -> Flow<K>
        ensures on { result.on ≡ on }
        ensures ways { ways_view result.ways ≡ none }
    {
        Flow {
            on,
            ways: Ways::none(),
        }
    }

    /// A pass that is left by `break` alone, or not at all.
    pub fn broken(way: Option<K>) -> Flow<K>
        ensures on { result.on ≡ None }
        ensures ways { ways_view result.ways ≡ record { broken = way; continued = None; returned = None } }
    {
        Flow {
            on: None,
            ways: Ways {
                broken: way,
                continued: None,
                returned: None,
            },
        }
    }

    /// A pass that is left by `continue` alone, or not at all.
    pub fn continued(way: Option<K>) -> Flow<K>
        ensures on { result.on ≡ None }
        ensures ways { ways_view result.ways ≡ record { broken = None; continued = way; returned = None } }
    {
        Flow {
            on: None,
            ways: Ways {
                broken: None,
                continued: way,
                returned: None,
            },
        }
    }

    /// A pass that is left by `return` alone, or not at all.
    pub fn returned(way: Option<K>) -> Flow<K>
        ensures on { result.on ≡ None }
        ensures ways { ways_view result.ways ≡ record { broken = None; continued = None; returned = way } }
    {
        Flow {
            on: None,
            ways: Ways {
                broken: None,
                continued: None,
                returned: way,
            },
        }
    }
}

/// Two states that are reached or not, joined; the first was reached before.
pub fn join_reached<K: AbstractStates>(
    c: &Setting<'_>,
    a: Option<K>,
    b: Option<K>,
) -> Result<Option<K>, Memory>
    ensures { IfOk result (λ r. r ≡ join_on (ops_for K.ops (plan_of c.now)) a b) }
{
    match (a, b) {
        (None, b) => Ok(b),
        (Some(a), None) => Ok(Some(a)),
        (Some(a), Some(b)) => {
            let (a, b) = a.unified(c, b)?;
            Ok(Some(a.joined(c, b)?))
        }
    }
}

/// The join of what two passes leave, by each way out.
pub fn join_all<K: AbstractStates>(
    c: &Setting<'_>,
    a: Ways<K>,
    b: Ways<K>,
) -> Result<Ways<K>, Memory>
    ensures { IfOk result (λ w. ways_view w ≡ join_ways (ops_for K.ops (plan_of c.now)) (ways_view a)
        (ways_view b)) }
{
    let Ways {
        broken,
        continued,
        returned,
    } = a;
    let broken = join_reached(c, broken, b.broken)?;
    let continued = join_reached(c, continued, b.continued)?;
    let returned = join_reached(c, returned, b.returned)?;
    Ok(Ways {
        broken,
        continued,
        returned,
    })
}

/// Either of two flows.
pub fn either<K: AbstractStates>(c: &Setting<'_>, a: Flow<K>, b: Flow<K>) -> Result<Flow<K>, Memory>
    ensures on { IfOk result (λ f. f.on ≡ join_on (ops_for K.ops (plan_of c.now)) a.on b.on) }
    ensures ways { IfOk result (λ f. ways_view f.ways ≡ join_ways (ops_for K.ops (plan_of c.now)) (ways_view a.ways)
        (ways_view b.ways)) }
{
    let Flow { on, ways } = a;
    let Flow {
        on: other,
        ways: more,
    } = b;
    let on = join_reached(c, on, other)?;
    let ways = join_all(c, ways, more)?;
    Ok(Flow { on, ways })
}

fn leave_reached<K: AbstractStates>(
    c: &Setting<'_>,
    mode: Running,
    blocks: &[u32],
    known: Option<K>,
) -> Result<Option<K>, Memory>
    ensures { IfOk result (λ r. r ≡ leave_on (ops_for K.ops (plan_of c.now)) (mode_of mode) blocks.now known) }
{
    match known {
        None => Ok(None),
        Some(known) => Ok(Some(known.leave(c, mode, blocks)?)),
    }
}

/// A scope is left by each way out.
pub fn leave_scope<K: AbstractStates>(
    c: &Setting<'_>,
    mode: Running,
    blocks: &[u32],
    flow: Flow<K>,
) -> Result<Flow<K>, Memory>
    ensures on { IfOk result (λ f. f.on ≡ (scope_pass (ops_for K.ops (plan_of c.now)) (mode_of mode) blocks.now
        (flow_view flow)).on) }
    ensures ways { IfOk result (λ f. ways_view f.ways ≡ (scope_pass (ops_for K.ops (plan_of c.now))
        (mode_of mode) blocks.now (flow_view flow)).ways) }
{
    let Flow { on, ways } = flow;
    let Ways {
        broken,
        continued,
        returned,
    } = ways;
    let on = leave_reached(c, mode, blocks, on)?;
    let broken = leave_reached(c, mode, blocks, broken)?;
    let continued = leave_reached(c, mode, blocks, continued)?;
    let returned = leave_reached(c, mode, blocks, returned)?;
    Ok(Flow {
        on,
        ways: Ways {
            broken,
            continued,
            returned,
        },
    })
}

/// The same ways out of three.
pub fn copied_ways<K: AbstractStates>(ways: &Ways<K>) -> Result<Ways<K>, Memory>
    ensures { IfOk result (λ w. ways_view w ≡ ways_view ways.now) }
{
    let broken = copied(&ways.broken)?;
    let continued = copied(&ways.continued)?;
    let returned = copied(&ways.returned)?;
    Ok(Ways {
        broken,
        continued,
        returned,
    })
}

fn copied<K: AbstractStates>(known: &Option<K>) -> Result<Option<K>, Memory>
    ensures { IfOk result (λ r. r ≡ known.now) }
{
    match known {
        None => Ok(None),
        Some(known) => Ok(Some(known.copied()?)),
    }
}

/// A loop is left.
pub fn end_loop<K: Drop>(flow: Flow<K>) -> Flow<K>
    ensures on { result.on ≡ (leave_loop (flow_view flow)).on }
    ensures ways { ways_view result.ways ≡ (leave_loop (flow_view flow)).ways }
{
    let Flow { on: _, ways } = flow;
    let Ways {
        broken,
        continued: _,
        returned,
    } = ways;
    Flow {
        on: broken,
        ways: Ways {
            broken: None,
            continued: None,
            returned,
        },
    }
}

/// One side has come out of a loop while the other had left it.
pub fn come_after<K: Drop>(line: u32, flow: Flow<K>, log: &mut Log<K>) -> Result<Flow<K>, Memory>
    ensures { Passes (comes_after line (flow_view flow)) result log.old log.new }
{
    let Flow { on: _, ways } = flow;
    let Ways {
        broken,
        continued: _,
        returned,
    } = ways;
    log.differ(line, &returned)?;
    Ok(Flow::broken(broken))
}

/// The sides come on together; each other way out is an alarm.
pub fn keep_on<K: Drop>(line: u32, flow: Flow<K>, log: &mut Log<K>) -> Result<Flow<K>, Memory>
    ensures { Passes (only_on line (flow_view flow)) result log.old log.new }
{
    let Flow { on, ways } = flow;
    let Ways {
        broken,
        continued,
        returned,
    } = ways;
    log.differ(line, &broken)?;
    log.differ(line, &continued)?;
    log.differ(line, &returned)?;
    Ok(Flow::on(on))
}

/// Keeps what leaves by `break`; each other way out that is reached is an alarm at this line.
pub fn keep_broken<K: Drop>(line: u32, flow: Flow<K>, log: &mut Log<K>) -> Result<Flow<K>, Memory>
    ensures { Passes (only_broken line (flow_view flow)) result log.old log.new }
{
    let Flow { on, ways } = flow;
    let Ways {
        broken,
        continued,
        returned,
    } = ways;
    log.differ(line, &on)?;
    log.differ(line, &continued)?;
    log.differ(line, &returned)?;
    Ok(Flow::broken(broken))
}

/// Keeps what leaves by `continue`; each other way out that is reached is an alarm at this line.
pub fn keep_continued<K: Drop>(
    line: u32,
    flow: Flow<K>,
    log: &mut Log<K>,
) -> Result<Flow<K>, Memory>
    ensures { Passes (only_continued line (flow_view flow)) result log.old log.new }
{
    let Flow { on, ways } = flow;
    let Ways {
        broken,
        continued,
        returned,
    } = ways;
    log.differ(line, &on)?;
    log.differ(line, &broken)?;
    log.differ(line, &returned)?;
    Ok(Flow::continued(continued))
}

/// Keeps what leaves by `return`; each other way out that is reached is an alarm at this line.
pub fn keep_returned<K: Drop>(line: u32, flow: Flow<K>, log: &mut Log<K>) -> Result<Flow<K>, Memory>
    ensures { Passes (only_returned line (flow_view flow)) result log.old log.new }
{
    let Flow { on, ways } = flow;
    let Ways {
        broken,
        continued,
        returned,
    } = ways;
    log.differ(line, &on)?;
    log.differ(line, &broken)?;
    log.differ(line, &continued)?;
    Ok(Flow::returned(returned))
}
