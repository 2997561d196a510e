//! The program's one call.

ghost use Rattle.std.specs.Prelude.{◌≡◌, ◌≢◌, ◌<◌, ◌≤◌, [], Some, true, false, length, map, string_bytes, is_some, IfSome, IfOk, IfErr};
ghost use Rattle.grasp_config.specs.Laws.{IsInRange};
ghost use Rattle.grasp_config.specs.declared.serve_fault.ServeKey.{ServeKey};
ghost use Rattle.grasp_io.specs.Faults.{Rose};
ghost use Rattle.grasp_node_main.specs.Tells.{links_told, told};
ghost use Rattle.grasp_serve_main.specs.Program.{is_serve, IsBeforeLinks, IsBeforeStore, IsOfConfig, IsOfService, ServesInput, ShortConfig};
ghost use Rattle.grasp_serve_main.specs.Program.{SomeInput, IsSmall, IsLarge, IsBadWithin, IsAfterInput, IsOfDoors, IsKeptFault};
ghost use Rattle.grasp_serve_main.specs.Program.{ShortInput, NamesStore, BeginsFrom, KeepsConfig, KeepsInput, StopsConfig, StopsInput, RefusesStore};
ghost use Rattle.grasp_service.specs.Rounds.{outside};
ghost use Rattle.grasp_service.specs.Served.{NoRound, ServesKept, ServesShort, StopsShort};
ghost use Rattle.grasp_service.specs.declared.cut.Cut.TheVariants as cuts;
ghost use Rattle.grasp_service_visits.specs.Desks.{desk_told};
ghost use Rattle.grasp_shelf.specs.Shelves.{faults_of};
ghost use Rattle.grasp_store.specs.declared.fault.KeepFault.{KeepFault};

use crate::planning::{desk_plan, service_plan};
use crate::status::Status;
use grasp_agent::PrefixAgent;
use grasp_cbor::Chars;
use grasp_config::{ServeConfig, ServeFault, read_serve, serves_are_in_range};
use grasp_desk::{Desk, DeskPlan};
use grasp_io::{Clock, Counted, LinkPlan, Links, LogSwitch, ReadError, Sink, Source, read_all};
use grasp_node_main::link_plan;
use grasp_service::{ServiceEnd, ServicePlan, serve_plan};
use grasp_shelf::{Shelf, ShelfFault, Store};
use std::alloc::Global;
use std::sync::Wait;

/// The most bytes that a configuration may have.
const CONFIG_LIMIT: u64 = 65_536;

/// Serves as the source configures, until a visitor stops the node, and says how it ended.
///
/// The words are to be `serve` and one more, which names what the source reads. The source is read to its end. Then the node is
/// opened and its agents make their opening calls; then the links are opened, and the desk; and then the node makes its rounds.
/// Where the configuration names a store, this is opened first. The node begins with the image that was saved there last, and saves
/// that of its pool around each call of its agent of prefixes; a fault of the store ends it. The lines of events go to the log, of
/// which nothing is claimed, and the switch is set to the level of the log.
#[tactic(auto, using(crate::proofs::Serving::keeping))]
pub fn node_serve<R: Wait, S: Source, K: Sink, L: Links + Counted, D: Desk, C: Clock, B: Store>(
    rt: &R,
    alloc: Global,
    words: &[String],
    source: &mut S,
    log: &mut K,
    switch: &LogSwitch,
    links: &mut L,
    desk: &mut D,
    clock: &mut C,
    shelf: &mut Shelf<B>,
    seed: [u8; 32],
) -> Status
    // The words come first: where they are no call, nothing is touched.
    ensures usage { is_serve (map string_bytes words.now) ≡ false → result ≡ Status.Usage }
    ensures no_usage { is_serve (map string_bytes words.now) ≡ true → result ≢ Status.Usage }
    ensures unread { result ≡ Status.Usage → source.new ≡ source.old }

    // Then the configuration is read to its end, at most 65,536 bytes. What is so of it is so of some input; where the source tells
    // what it has left to read, it is that one.
    ensures read_fault { result ≡ Status.ReadFault → Rose (S.faults source.old) (S.faults source.new) }
    ensures too_large { result ≡ Status.TooLarge → SomeInput (S.left source.old) IsLarge }
    ensures small { IsAfterInput result → SomeInput (S.left source.old) IsSmall }
    ensures read_to_end { IsAfterInput result → IfSome (S.left source.old) (λ _. S.left source.new ≡ Some []) }
    ensures bad_config { (key : ServeKey) → result ≡ Status.BadServe key → SomeInput (S.left source.old) (IsBadWithin key) }
    ensures no_store { result ≡ Status.NoStore → SomeInput (S.left source.old) NamesStore }
    ensures links_untouched { IsBeforeLinks result → links.new ≡ links.old }
    ensures desk_untouched { IsBeforeLinks result → desk.new ≡ desk.old }
    ensures clock_untouched { IsBeforeLinks result → clock.new ≡ clock.old }

    // Then the store is opened, where the configuration names one.
    ensures store_untouched { IsBeforeStore result → shelf.new ≡ shelf.old }
    ensures store_refused { result ≡ Status.NoStore → RefusesStore B.stands B.faults shelf.old shelf.new }

    // Then links and desk are opened. Where one of them can't be, no round is made.
    ensures link_fault { result ≡ Status.LinkFault → Rose (L.faults links.old) (L.faults links.new) }
    ensures desk_fault { result ≡ Status.DeskFault → Rose (D.faults desk.old) (D.faults desk.new) }
    ensures no_round { IsOfDoors result → NoRound
        (outside (told (C.readings clock.old) (links_told L.Links links.old)) (desk_told D.Desk desk.old))
        (outside (told (C.readings clock.new) (links_told L.Links links.new)) (desk_told D.Desk desk.new)) }

    // Then the node serves, until a visitor stops it, or memory is wanted.
    ensures served { result ≡ Status.Stopped → ServesInput (S.left source.old) seed
        (outside (told (C.readings clock.old) (links_told L.Links links.old)) (desk_told D.Desk desk.old))
        (outside (told (C.readings clock.new) (links_told L.Links links.new)) (desk_told D.Desk desk.new)) }
    ensures short { result ≡ Status.OutOfMemory → ShortInput (S.left source.old) seed
        (outside (told (C.readings clock.old) (links_told L.Links links.old)) (desk_told D.Desk desk.old))
        (outside (told (C.readings clock.new) (links_told L.Links links.new)) (desk_told D.Desk desk.new)) }

    // The store is asked around each call of the agent of prefixes, and a fault of it ends the service: all that was sent was kept
    // before.
    ensures kept { result ≡ Status.Stopped → KeepsInput B.stands B.faults (S.left source.old) seed
        shelf.old (outside (told (C.readings clock.old) (links_told L.Links links.old)) (desk_told D.Desk desk.old))
        shelf.new (outside (told (C.readings clock.new) (links_told L.Links links.new)) (desk_told D.Desk desk.new)) }
    ensures stops { (fault : KeepFault) → result ≡ Status.StoreFault fault → StopsInput B.stands B.faults (S.left source.old) seed
        shelf.old (outside (told (C.readings clock.old) (links_told L.Links links.old)) (desk_told D.Desk desk.old))
        fault shelf.new (outside (told (C.readings clock.new) (links_told L.Links links.new)) (desk_told D.Desk desk.new)) }
    ensures store_fault { (fault : KeepFault) → result ≡ Status.StoreFault fault → IsKeptFault B.stands B.faults shelf.old shelf.new fault }
{
    if !is_serve(words) {
        return Status::Usage;
    }
    serve_input(
        rt, alloc, source, log, switch, links, desk, clock, shelf, seed,
    )
}

/// Whether the words are `serve` and one more.
fn is_serve(words: &[String]) -> bool
    ensures { result ≡ is_serve (map string_bytes words.now) }
{
    match words {
        [word, _file] => word.as_str() == "serve",
        _ => false,
    }
}

/// Serves as the source configures.
#[tactic(auto, using(crate::proofs::Serving::reading))]
fn serve_input<R: Wait, S: Source, K: Sink, L: Links + Counted, D: Desk, C: Clock, B: Store>(
    rt: &R,
    alloc: Global,
    source: &mut S,
    log: &mut K,
    switch: &LogSwitch,
    links: &mut L,
    desk: &mut D,
    clock: &mut C,
    shelf: &mut Shelf<B>,
    seed: [u8; 32],
) -> Status
    ensures no_usage { result ≢ Status.Usage }
    ensures read_fault { result ≡ Status.ReadFault → Rose (S.faults source.old) (S.faults source.new) }
    ensures too_large { result ≡ Status.TooLarge → SomeInput (S.left source.old) IsLarge }
    ensures small { IsAfterInput result → SomeInput (S.left source.old) IsSmall }
    ensures read_to_end { IsAfterInput result → IfSome (S.left source.old) (λ _. S.left source.new ≡ Some []) }
    ensures bad_config { (key : ServeKey) → result ≡ Status.BadServe key → SomeInput (S.left source.old) (IsBadWithin key) }
    ensures no_store { result ≡ Status.NoStore → SomeInput (S.left source.old) NamesStore }
    ensures links_untouched { IsBeforeLinks result → links.new ≡ links.old }
    ensures desk_untouched { IsBeforeLinks result → desk.new ≡ desk.old }
    ensures clock_untouched { IsBeforeLinks result → clock.new ≡ clock.old }
    ensures link_fault { result ≡ Status.LinkFault → Rose (L.faults links.old) (L.faults links.new) }
    ensures desk_fault { result ≡ Status.DeskFault → Rose (D.faults desk.old) (D.faults desk.new) }
    ensures no_round { IsOfDoors result → NoRound
        (outside (told (C.readings clock.old) (links_told L.Links links.old)) (desk_told D.Desk desk.old))
        (outside (told (C.readings clock.new) (links_told L.Links links.new)) (desk_told D.Desk desk.new)) }
    ensures store_untouched { IsBeforeStore result → shelf.new ≡ shelf.old }
    ensures store_refused { result ≡ Status.NoStore → RefusesStore B.stands B.faults shelf.old shelf.new }
    ensures kept { result ≡ Status.Stopped → KeepsInput B.stands B.faults (S.left source.old) seed
        shelf.old (outside (told (C.readings clock.old) (links_told L.Links links.old)) (desk_told D.Desk desk.old))
        shelf.new (outside (told (C.readings clock.new) (links_told L.Links links.new)) (desk_told D.Desk desk.new)) }
    ensures stops { (fault : KeepFault) → result ≡ Status.StoreFault fault → StopsInput B.stands B.faults (S.left source.old) seed
        shelf.old (outside (told (C.readings clock.old) (links_told L.Links links.old)) (desk_told D.Desk desk.old))
        fault shelf.new (outside (told (C.readings clock.new) (links_told L.Links links.new)) (desk_told D.Desk desk.new)) }
    ensures short { result ≡ Status.OutOfMemory → ShortInput (S.left source.old) seed
        (outside (told (C.readings clock.old) (links_told L.Links links.old)) (desk_told D.Desk desk.old))
        (outside (told (C.readings clock.new) (links_told L.Links links.new)) (desk_told D.Desk desk.new)) }
{
    let input = match read_all(alloc, source, CONFIG_LIMIT) {
        Ok(input) => input,
        Err(ReadError::Fault) => return Status::ReadFault,
        Err(ReadError::TooLarge) => return Status::TooLarge,
        Err(ReadError::OutOfMemory) => return Status::OutOfMemory,
    };
    serves_are_in_range();
    match read_serve(alloc, &input) {
        Ok(config) => serve_config(
            rt, alloc, config, log, switch, links, desk, clock, shelf, seed,
        ),
        Err(ServeFault::BadServe { key }) => Status::BadServe { key },
        Err(ServeFault::OutOfMemory) => Status::OutOfMemory,
    }
}

/// Serves as this configuration says.
#[tactic(auto, using(crate::proofs::Serving::configuring, crate::proofs::Planned::few_heralds, crate::proofs::Planned::few_listeners))]
fn serve_config<R: Wait, K: Sink, L: Links + Counted, D: Desk, C: Clock, B: Store>(
    rt: &R,
    alloc: Global,
    config: ServeConfig,
    log: &mut K,
    switch: &LogSwitch,
    links: &mut L,
    desk: &mut D,
    clock: &mut C,
    shelf: &mut Shelf<B>,
    seed: [u8; 32],
) -> Status
    requires { IsInRange config.node }
    ensures ends { IsOfConfig result }
    ensures no_store { result ≡ Status.NoStore → is_some config.serve.store ≡ true }
    ensures links_untouched { IsBeforeLinks result → links.new ≡ links.old }
    ensures desk_untouched { IsBeforeLinks result → desk.new ≡ desk.old }
    ensures clock_untouched { IsBeforeLinks result → clock.new ≡ clock.old }
    ensures link_fault { result ≡ Status.LinkFault → Rose (L.faults links.old) (L.faults links.new) }
    ensures desk_fault { result ≡ Status.DeskFault → Rose (D.faults desk.old) (D.faults desk.new) }
    ensures no_round { IsOfDoors result → NoRound
        (outside (told (C.readings clock.old) (links_told L.Links links.old)) (desk_told D.Desk desk.old))
        (outside (told (C.readings clock.new) (links_told L.Links links.new)) (desk_told D.Desk desk.new)) }
    ensures store_refused { result ≡ Status.NoStore → RefusesStore B.stands B.faults shelf.old shelf.new }
    ensures kept { result ≡ Status.Stopped → KeepsConfig B.stands B.faults config seed
        shelf.old (outside (told (C.readings clock.old) (links_told L.Links links.old)) (desk_told D.Desk desk.old))
        shelf.new (outside (told (C.readings clock.new) (links_told L.Links links.new)) (desk_told D.Desk desk.new)) }
    ensures stops { (fault : KeepFault) → result ≡ Status.StoreFault fault → StopsConfig B.stands B.faults config seed
        shelf.old (outside (told (C.readings clock.old) (links_told L.Links links.old)) (desk_told D.Desk desk.old))
        fault shelf.new (outside (told (C.readings clock.new) (links_told L.Links links.new)) (desk_told D.Desk desk.new)) }
    ensures short { result ≡ Status.OutOfMemory → ShortConfig config seed
        (outside (told (C.readings clock.old) (links_told L.Links links.old)) (desk_told D.Desk desk.old))
        (outside (told (C.readings clock.new) (links_told L.Links links.new)) (desk_told D.Desk desk.new)) }
{
    let Ok(joining) = link_plan(&config.node) else {
        return Status::OutOfMemory;
    };
    let Ok(doors) = desk_plan(&config.serve) else {
        return Status::OutOfMemory;
    };
    let agent = match open_shelf(alloc, &config.serve.store, shelf) {
        Ok(agent) => agent,
        Err(ShelfFault::OutOfMemory) => return Status::OutOfMemory,
        Err(_) => return Status::NoStore,
    };
    let Ok(plan) = service_plan(alloc, config, agent, seed) else {
        return Status::OutOfMemory;
    };
    serve_planned(
        rt, alloc, plan, &joining, &doors, log, switch, links, desk, clock, shelf,
    )
}

/// Opens the store at this path, where there is one, and the agent with what it has.
#[tactic(auto, using(crate::proofs::Serving::opening))]
fn open_shelf<B: Store>(
    alloc: Global,
    path: &Option<Chars>,
    shelf: &mut Shelf<B>,
) -> Result<Option<PrefixAgent>, ShelfFault>
    ensures begins { IfOk result (λ agent. BeginsFrom B.stands path.now shelf.old shelf.new agent) }
    ensures named { IfErr result (λ _. is_some path.now ≡ true) }
    ensures refused { IfErr result (λ fault. fault ≢ ShelfFault.OutOfMemory → RefusesStore B.stands B.faults shelf.old shelf.new) }
    ensures never_falls { faults_of B.faults shelf.old ≤ faults_of B.faults shelf.new }
{
    match path {
        Some(path) => Ok(Some(shelf.open(alloc, path)?)),
        None => Ok(None),
    }
}

/// Serves as this plan says.
fn serve_planned<R: Wait, K: Sink, L: Links + Counted, D: Desk, C: Clock, B: Store>(
    rt: &R,
    alloc: Global,
    plan: ServicePlan,
    joining: &LinkPlan,
    doors: &DeskPlan,
    log: &mut K,
    switch: &LogSwitch,
    links: &mut L,
    desk: &mut D,
    clock: &mut C,
    shelf: &mut Shelf<B>,
) -> Status
    requires heralds { length plan.heralds < 255 }
    requires readers { length plan.readers < 255 }
    ensures ends { IsOfService result }
    ensures link_fault { result ≡ Status.LinkFault → Rose (L.faults links.old) (L.faults links.new) }
    ensures desk_fault { result ≡ Status.DeskFault → Rose (D.faults desk.old) (D.faults desk.new) }
    ensures no_round { IsOfDoors result → NoRound
        (outside (told (C.readings clock.old) (links_told L.Links links.old)) (desk_told D.Desk desk.old))
        (outside (told (C.readings clock.new) (links_told L.Links links.new)) (desk_told D.Desk desk.new)) }
    ensures kept { result ≡ Status.Stopped → ServesKept B.stands B.faults plan joining.now doors.now
        shelf.old (outside (told (C.readings clock.old) (links_told L.Links links.old)) (desk_told D.Desk desk.old))
        shelf.new (outside (told (C.readings clock.new) (links_told L.Links links.new)) (desk_told D.Desk desk.new)) }
    ensures stops { (fault : KeepFault) → result ≡ Status.StoreFault fault → StopsShort B.stands B.faults plan joining.now doors.now
        shelf.old (outside (told (C.readings clock.old) (links_told L.Links links.old)) (desk_told D.Desk desk.old))
        (cuts.Store fault) shelf.new (outside (told (C.readings clock.new) (links_told L.Links links.new)) (desk_told D.Desk desk.new)) }
    ensures short { result ≡ Status.OutOfMemory → ServesShort plan joining.now doors.now
        (outside (told (C.readings clock.old) (links_told L.Links links.old)) (desk_told D.Desk desk.old))
        (outside (told (C.readings clock.new) (links_told L.Links links.new)) (desk_told D.Desk desk.new)) }
{
    match serve_plan(
        rt, alloc, plan, joining, doors, log, switch, links, desk, clock, shelf,
    ) {
        ServiceEnd::Stopped => Status::Stopped,
        ServiceEnd::OutOfMemory => Status::OutOfMemory,
        ServiceEnd::LinkFault => Status::LinkFault,
        ServiceEnd::DeskFault => Status::DeskFault,
        ServiceEnd::StoreFault { fault } => Status::StoreFault { fault },
    }
}
