//! Which peers a change is for.
ghost use Rattle.std.specs.Prelude.{◌≡◌, IfOk, IfSome, false, slice_get};
ghost use Rattle.std.specs.List.{list_any};
ghost use Rattle.std.specs.Option.{option_map_or};
ghost use Rattle.sds_value.specs.declared.row.Peer.{Peer};
ghost use Rattle.sds_types.specs.declared.router.RouterDef.{RouterDef};
ghost use Rattle.sds_trade.specs.rules.Fitting.{FitsRow};
ghost use Rattle.sds_trade.specs.rules.Named.{came_from, is_on, sends_to, targets_of};
ghost use Rattle.sds_trade.specs.rules.Routers.{names_peer};
ghost use Rattle.sds_router.specs.Standing.{AreRowsOf};
ghost use Rattle.sds_router.specs.Asks.{is_named_by};
ghost use Rattle.sds_router.specs.Routes.{is_for, leads_to};

use crate::StandingRows;
use crate::asks::ask_tests;
use crate::naming::Naming;
use crate::wanted::{choose, look_up};
use sds_base::{List, NoMemory};
use sds_rowvalues::is_group;
use sds_types::{Change, Config, RouterExpression, TriggerRouterDef};
use sds_value::{Peer, TableDef};
use std::alloc::Global;

/// What a trigger-router makes of a change at this node.
#[derive(Debug, Drop)]
pub(crate) struct Route {
    /// The place of the group whose nodes it names.
    pub(crate) target_group: u32,
    /// Whether the change may go back to where it came from.
    pub(crate) may_return: bool,
    pub(crate) naming: Naming,
}

/// Whether the expression of the router at a place names a node for a change, as the tables stand
/// now (the SymmetricDS guide's chapter on routers). Where no router is, none is named.
pub fn names<T: StandingRows>(
    alloc: Global,
    config: &Config,
    tables: &T,
    change: &Change,
    router: u32,
    peer: &Peer,
) -> Result<bool, NoMemory>
    requires tables { AreRowsOf config.now.tables (T.rows tables.now) }
    requires new { IfSome change.now.new (FitsRow config.now.tables change.now.table) }
    requires old { IfSome change.now.old (FitsRow config.now.tables change.now.table) }
    ensures { IfOk result (λ named. named ≡ option_map_or (λ (router : RouterDef).
        names_peer config.now.tables (T.rows tables.now) change.now peer.now router.parsed)
        (slice_get config.now.routers router) false) }
{
    let Some(router) = config.routers.inner().get(router as usize) else {
        return Ok(false);
    };
    let naming = naming_of(alloc, config.tables.inner(), tables, change, &router.parsed)?;
    Ok(naming.names(peer))
}

/// The places, ascending, of the peers that a change at this node is for, as the tables stand now:
/// those that some enabled trigger-router of the change's trigger leads to, but not this node, and
/// the node that the change came from only where a trigger-router that names it lets changes go
/// back.
pub fn targets<T: StandingRows>(
    alloc: Global,
    config: &Config,
    me: &Peer,
    tables: &T,
    change: &Change,
    peers: &[Peer],
) -> Result<List<u32>, NoMemory>
    requires tables { AreRowsOf config.now.tables (T.rows tables.now) }
    requires new { IfSome change.now.new (FitsRow config.now.tables change.now.table) }
    requires old { IfSome change.now.old (FitsRow config.now.tables change.now.table) }
    ensures { IfOk result (λ places. places
        ≡ targets_of config.now me.now (T.rows tables.now) peers.now change.now) }
{
    let routes = routes_of(alloc, config, me, tables, change)?;
    let mut places = Vec::new(alloc);
    for (place, peer) in peers.iter().enumerate() {
        if is_for(config, me, change, &routes, peer) {
            let Ok(place) = u32::try_from(place) else {
                return Err(NoMemory);
            };
            places.push(place)?;
        }
    }
    Ok(List::of(places))
}

/// Whether one of the routes leads to a peer, and the peer isn't this node.
fn is_for(config: &Config, me: &Peer, change: &Change, routes: &[Route], peer: &Peer) -> bool
    ensures { result ≡ is_for config.now me.now change.now routes.now peer.now }
{
    if peer.id == me.id {
        return false;
    }
    for route in routes {
        if leads_to(config, change, route, peer) {
            return true;
        }
    }
    false
}

/// Whether a route leads to a peer.
fn leads_to(config: &Config, change: &Change, route: &Route, peer: &Peer) -> bool
    ensures { result ≡ leads_to config.now change.now peer.now route.now }
{
    is_group(
        config.groups.inner(),
        route.target_group as usize,
        &peer.group,
    ) && route.naming.names(peer)
        && (route.may_return || !came_from(change, peer))
}

/// Whether a change came from a peer.
fn came_from(change: &Change, peer: &Peer) -> bool
    ensures { result ≡ came_from change.now peer.now }
{
    match &change.source {
        Some(source) => *source == peer.id,
        None => false,
    }
}

/// The routes on which a change goes from this node.
fn routes_of<T: StandingRows>(
    alloc: Global,
    config: &Config,
    me: &Peer,
    tables: &T,
    change: &Change,
) -> Result<Vec<Route>, NoMemory>
    requires tables { AreRowsOf config.now.tables (T.rows tables.now) }
    requires new { IfSome change.now.new (FitsRow config.now.tables change.now.table) }
    requires old { IfSome change.now.old (FitsRow config.now.tables change.now.table) }
    ensures { IfOk result (λ routes. (peer : Peer) →
        list_any (leads_to config.now change.now peer) routes.items
        ≡ list_any (sends_to config.now me.now (T.rows tables.now) change.now peer)
        config.now.trigger_routers) }
{
    let mut routes = Vec::new(alloc);
    for join in config.trigger_routers.inner() {
        let Some(route) = route_of(alloc, config, me, tables, change, join)? else {
            continue;
        };
        routes.push(route)?;
    }
    Ok(routes)
}

/// The route that a trigger-router makes of a change at this node, if it makes one.
fn route_of<T: StandingRows>(
    alloc: Global,
    config: &Config,
    me: &Peer,
    tables: &T,
    change: &Change,
    join: &TriggerRouterDef,
) -> Result<Option<Route>, NoMemory>
    requires tables { AreRowsOf config.now.tables (T.rows tables.now) }
    requires new { IfSome change.now.new (FitsRow config.now.tables change.now.table) }
    requires old { IfSome change.now.old (FitsRow config.now.tables change.now.table) }
    ensures { IfOk result (λ route. (peer : Peer) →
        option_map_or (leads_to config.now change.now peer) route false
        ≡ sends_to config.now me.now (T.rows tables.now) change.now peer join.now) }
{
    if !join.enabled || !is_of_trigger(config, change, join) {
        return Ok(None);
    }
    let Some(router) = config.routers.inner().get(join.router as usize) else {
        return Ok(None);
    };
    if !is_group(
        config.groups.inner(),
        router.source_group as usize,
        &me.group,
    ) {
        return Ok(None);
    }
    let naming = naming_of(alloc, config.tables.inner(), tables, change, &router.parsed)?;
    Ok(Some(Route {
        target_group: router.target_group,
        may_return: join.ping_back_enabled,
        naming,
    }))
}

/// Whether the trigger of a trigger-router stands on the table of a change.
fn is_of_trigger(config: &Config, change: &Change, join: &TriggerRouterDef) -> bool
    ensures { result ≡ option_map_or (is_on change.now)
        (slice_get config.now.triggers join.now.trigger) false }
{
    match config.triggers.inner().get(join.trigger as usize) {
        Some(trigger) => trigger.source_table == change.table,
        None => false,
    }
}

/// Whom an expression names for a change.
fn naming_of<T: StandingRows>(
    alloc: Global,
    defs: &[TableDef],
    tables: &T,
    change: &Change,
    expression: &RouterExpression,
) -> Result<Naming, NoMemory>
    requires tables { AreRowsOf defs.now (T.rows tables.now) }
    requires new { IfSome change.now.new (FitsRow defs.now change.now.table) }
    requires old { IfSome change.now.old (FitsRow defs.now change.now.table) }
    ensures { IfOk result (λ naming. (peer : Peer) → is_named_by peer naming
        ≡ names_peer defs.now (T.rows tables.now) change.now peer expression.now) }
{
    match expression {
        RouterExpression::Everything => Ok(Naming::everyone(alloc)),
        RouterExpression::Tests(tests) => ask_tests(alloc, defs, change, tests.inner()),
        RouterExpression::Finds(lookup) => look_up(alloc, defs, tables, change, lookup),
        RouterExpression::Chooses(choice) => choose(alloc, defs, tables, change, choice),
    }
}
