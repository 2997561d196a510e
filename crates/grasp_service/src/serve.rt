//! Serving until a visitor stops the node.

ghost use Rattle.std.specs.Prelude.{◌≡◌, ◌≢◌, ◌<◌, true, false, length, IfOk, MatchResult};
ghost use Rattle.grasp_io.specs.Faults.{Rose};
ghost use Rattle.grasp_node_main.specs.Program.{NothingPassed};
ghost use Rattle.grasp_node_main.specs.Tells.{links_told, told};
ghost use Rattle.grasp_service.specs.Rounds.{outside};
ghost use Rattle.grasp_store.specs.declared.fault.KeepFault.{KeepFault};
ghost use Rattle.grasp_service.specs.Served.{BeganPlan, Stopped, WentShort, ServedOn, FallsShort, OpensLinks, OpensDesk, ServesOpen, FallsShortOpen};
ghost use Rattle.grasp_service.specs.Served.{IsOfDoors, NobodyCame, NoRound};
ghost use Rattle.grasp_service.specs.Served.{StopsOn, StopsOpen, Serves, ServesShort, ServesBegun, StopsBegun, ServesKept, StopsShort};
ghost use Rattle.grasp_service_visits.specs.Desks.{desk_told};

use crate::cut::Cut;
use crate::keeping::keep_opening;
use crate::plan::ServicePlan;
use crate::service::Service;
use crate::service_end::ServiceEnd;
use grasp_cbor::OutOfMemory;
use grasp_desk::{Desk, DeskPlan};
use grasp_disk::Disk;
use grasp_io::{Clock, Counted, LinkPlan, Links, LogSwitch, Sink};
use grasp_shelf::Shelf;
use std::alloc::Global;
use std::sync::Wait;

/// Runs the node of this plan until a visitor stops it, and says how it ended.
///
/// The agents make their opening calls first. Then the links are opened, and the desk, and the node makes its rounds. At the end
/// it is drained once more. Where memory is wanted the service ends at once, before the opening calls are made, or in a round that
/// is cut short; and where the store has a fault, before the links are opened, or in such a round. The lines of events go to the
/// log, of which nothing is claimed, and the switch is set to the level of the log.
#[tactic(auto, using(crate::proofs::Served::planning))]
pub fn serve_plan<R: Wait, K: Sink, L: Links + Counted, D: Desk, C: Clock, B: Disk>(
    rt: &R,
    alloc: Global,
    plan: ServicePlan,
    joining: &LinkPlan,
    doors: &DeskPlan,
    log: &mut K,
    switch: &LogSwitch,
    links: &mut L,
    desk: &mut D,
    clock: &mut C,
    shelf: &mut Shelf<B>,
) -> ServiceEnd
    requires heralds { length plan.heralds < 255 }
    requires readers { length plan.readers < 255 }
    ensures served { result ≡ ServiceEnd.Stopped → Serves plan joining.now doors.now
        (outside (told (C.readings clock.old) (links_told L.Links links.old)) (desk_told D.Desk desk.old))
        (outside (told (C.readings clock.new) (links_told L.Links links.new)) (desk_told D.Desk desk.new)) }
    ensures kept { result ≡ ServiceEnd.Stopped → ServesKept B.stands B.faults plan joining.now doors.now
        shelf.old (outside (told (C.readings clock.old) (links_told L.Links links.old)) (desk_told D.Desk desk.old))
        shelf.new (outside (told (C.readings clock.new) (links_told L.Links links.new)) (desk_told D.Desk desk.new)) }
    ensures short { result ≡ ServiceEnd.OutOfMemory → ServesShort plan joining.now doors.now
        (outside (told (C.readings clock.old) (links_told L.Links links.old)) (desk_told D.Desk desk.old))
        (outside (told (C.readings clock.new) (links_told L.Links links.new)) (desk_told D.Desk desk.new)) }
    ensures stops { (fault : KeepFault) → result ≡ ServiceEnd.StoreFault fault → StopsShort B.stands B.faults plan joining.now doors.now
        shelf.old (outside (told (C.readings clock.old) (links_told L.Links links.old)) (desk_told D.Desk desk.old))
        (Cut.Store fault) shelf.new (outside (told (C.readings clock.new) (links_told L.Links links.new)) (desk_told D.Desk desk.new)) }
    ensures link_fault { result ≡ ServiceEnd.LinkFault → Rose (L.faults links.old) (L.faults links.new) }
    ensures desk_fault { result ≡ ServiceEnd.DeskFault → Rose (D.faults desk.old) (D.faults desk.new) }
    ensures no_round { IsOfDoors result → NoRound
        (outside (told (C.readings clock.old) (links_told L.Links links.old)) (desk_told D.Desk desk.old))
        (outside (told (C.readings clock.new) (links_told L.Links links.new)) (desk_told D.Desk desk.new)) }
{
    match begin(alloc, plan) {
        Ok(service) => {
            let mut service = service;
            let end = serve_begun(
                rt,
                &mut service,
                joining,
                doors,
                log,
                switch,
                links,
                desk,
                clock,
                shelf,
            );
            drop(service);
            end
        }
        Err(OutOfMemory) => ServiceEnd::OutOfMemory,
    }
}

/// Opens the node of this plan, and makes the opening calls.
#[tactic(auto, using(crate::proofs::Served::began))]
fn begin(alloc: Global, plan: ServicePlan) -> Result<Service, OutOfMemory>
    requires heralds { length plan.heralds < 255 }
    requires readers { length plan.readers < 255 }
    ensures { IfOk result (λ s. BeganPlan plan s) }
{
    let mut service = Service::open(alloc, plan)?;
    match service.begin() {
        Ok(()) => Ok(service),
        Err(OutOfMemory) => {
            drop(service);
            Err(OutOfMemory)
        }
    }
}

/// Asks the store behind the opening calls, and then opens the links and the desk, and serves.
#[tactic(auto, using(crate::proofs::Served::beginning))]
fn serve_begun<R: Wait, K: Sink, L: Links + Counted, D: Desk, C: Clock, B: Disk>(
    rt: &R,
    service: &mut Service,
    joining: &LinkPlan,
    doors: &DeskPlan,
    log: &mut K,
    switch: &LogSwitch,
    links: &mut L,
    desk: &mut D,
    clock: &mut C,
    shelf: &mut Shelf<B>,
) -> ServiceEnd
    ensures kept { result ≡ ServiceEnd.Stopped → ServesBegun B.stands B.faults service.old joining.now doors.now
        shelf.old (outside (told (C.readings clock.old) (links_told L.Links links.old)) (desk_told D.Desk desk.old))
        shelf.new (outside (told (C.readings clock.new) (links_told L.Links links.new)) (desk_told D.Desk desk.new)) }
    ensures short { result ≡ ServiceEnd.OutOfMemory → FallsShortOpen service.old joining.now doors.now
        (outside (told (C.readings clock.old) (links_told L.Links links.old)) (desk_told D.Desk desk.old))
        (outside (told (C.readings clock.new) (links_told L.Links links.new)) (desk_told D.Desk desk.new)) }
    ensures stops { (fault : KeepFault) → result ≡ ServiceEnd.StoreFault fault → StopsBegun B.stands B.faults service.old joining.now doors.now
        shelf.old (outside (told (C.readings clock.old) (links_told L.Links links.old)) (desk_told D.Desk desk.old))
        (Cut.Store fault) shelf.new (outside (told (C.readings clock.new) (links_told L.Links links.new)) (desk_told D.Desk desk.new)) }
    ensures link_fault { result ≡ ServiceEnd.LinkFault → Rose (L.faults links.old) (L.faults links.new) }
    ensures desk_fault { result ≡ ServiceEnd.DeskFault → Rose (D.faults desk.old) (D.faults desk.new) }
    ensures no_round { IsOfDoors result → NoRound
        (outside (told (C.readings clock.old) (links_told L.Links links.old)) (desk_told D.Desk desk.old))
        (outside (told (C.readings clock.new) (links_told L.Links links.new)) (desk_told D.Desk desk.new)) }
{
    match keep_opening(shelf, &service.house.crew) {
        Ok(()) => serve_open(
            rt, service, joining, doors, log, switch, links, desk, clock, shelf,
        ),
        Err(fault) => ServiceEnd::StoreFault { fault },
    }
}

/// Opens the links and the desk, and serves.
#[tactic(auto, using(crate::proofs::Served::opening))]
fn serve_open<R: Wait, K: Sink, L: Links + Counted, D: Desk, C: Clock, B: Disk>(
    rt: &R,
    service: &mut Service,
    joining: &LinkPlan,
    doors: &DeskPlan,
    log: &mut K,
    switch: &LogSwitch,
    links: &mut L,
    desk: &mut D,
    clock: &mut C,
    shelf: &mut Shelf<B>,
) -> ServiceEnd
    ensures served { result ≡ ServiceEnd.Stopped → ServesOpen B.stands B.faults service.old joining.now doors.now
        shelf.old (outside (told (C.readings clock.old) (links_told L.Links links.old)) (desk_told D.Desk desk.old))
        shelf.new (outside (told (C.readings clock.new) (links_told L.Links links.new)) (desk_told D.Desk desk.new)) }
    ensures short { result ≡ ServiceEnd.OutOfMemory → FallsShortOpen service.old joining.now doors.now
        (outside (told (C.readings clock.old) (links_told L.Links links.old)) (desk_told D.Desk desk.old))
        (outside (told (C.readings clock.new) (links_told L.Links links.new)) (desk_told D.Desk desk.new)) }
    ensures stops { (fault : KeepFault) → result ≡ ServiceEnd.StoreFault fault → StopsOpen B.stands B.faults service.old joining.now doors.now
        shelf.old (outside (told (C.readings clock.old) (links_told L.Links links.old)) (desk_told D.Desk desk.old))
        (Cut.Store fault) shelf.new (outside (told (C.readings clock.new) (links_told L.Links links.new)) (desk_told D.Desk desk.new)) }
    ensures link_fault { result ≡ ServiceEnd.LinkFault → Rose (L.faults links.old) (L.faults links.new) }
    ensures desk_fault { result ≡ ServiceEnd.DeskFault → Rose (D.faults desk.old) (D.faults desk.new) }
    ensures no_round { IsOfDoors result → NoRound
        (outside (told (C.readings clock.old) (links_told L.Links links.old)) (desk_told D.Desk desk.old))
        (outside (told (C.readings clock.new) (links_told L.Links links.new)) (desk_told D.Desk desk.new)) }
{
    if !open_links(links, joining) {
        return ServiceEnd::LinkFault;
    }
    if !open_desk(desk, doors) {
        return ServiceEnd::DeskFault;
    }
    serve_on(rt, service, log, switch, links, desk, clock, shelf)
}

/// Whether the links could be opened with this plan.
fn open_links<L: Links>(links: &mut L, plan: &LinkPlan) -> bool
    ensures opens { result ≡ true → OpensLinks plan.now (links_told L.Links links.old) (links_told L.Links links.new) }
    ensures passed { NothingPassed (links_told L.Links links.old) (links_told L.Links links.new) }
    ensures fault { result ≡ false → Rose (L.faults links.old) (L.faults links.new) }
{
    links.open(plan).is_ok()
}

/// Whether the desk could be opened with this plan.
fn open_desk<D: Desk>(desk: &mut D, plan: &DeskPlan) -> bool
    ensures opens { result ≡ true → OpensDesk plan.now (desk_told D.Desk desk.old) (desk_told D.Desk desk.new) }
    ensures nobody { NobodyCame (desk_told D.Desk desk.old) (desk_told D.Desk desk.new) }
    ensures fault { result ≡ false → Rose (D.faults desk.old) (D.faults desk.new) }
{
    desk.open(plan).is_ok()
}

/// Serves over links and a desk that are open.
#[tactic(auto, using(crate::proofs::Served::serving_on))]
fn serve_on<R: Wait, K: Sink, L: Links + Counted, D: Desk, C: Clock, B: Disk>(
    rt: &R,
    service: &mut Service,
    log: &mut K,
    switch: &LogSwitch,
    links: &mut L,
    desk: &mut D,
    clock: &mut C,
    shelf: &mut Shelf<B>,
) -> ServiceEnd
    ensures served { result ≡ ServiceEnd.Stopped → ServedOn B.stands B.faults service.old
        shelf.old (outside (told (C.readings clock.old) (links_told L.Links links.old)) (desk_told D.Desk desk.old))
        shelf.new (outside (told (C.readings clock.new) (links_told L.Links links.new)) (desk_told D.Desk desk.new)) }
    ensures short { result ≡ ServiceEnd.OutOfMemory → FallsShort service.old
        (outside (told (C.readings clock.old) (links_told L.Links links.old)) (desk_told D.Desk desk.old))
        (outside (told (C.readings clock.new) (links_told L.Links links.new)) (desk_told D.Desk desk.new)) }
    ensures stops { (fault : KeepFault) → result ≡ ServiceEnd.StoreFault fault → StopsOn B.stands B.faults service.old
        shelf.old (outside (told (C.readings clock.old) (links_told L.Links links.old)) (desk_told D.Desk desk.old))
        (Cut.Store fault) shelf.new (outside (told (C.readings clock.new) (links_told L.Links links.new)) (desk_told D.Desk desk.new)) }
    ensures links { result ≢ ServiceEnd.LinkFault }
    ensures desk { result ≢ ServiceEnd.DeskFault }
{
    match rounds(rt, service, log, switch, links, desk, clock, shelf) {
        Ok(()) => {
            service.end(links);
            ServiceEnd::Stopped
        }
        Err(Cut::OutOfMemory) => ServiceEnd::OutOfMemory,
        Err(Cut::Store { fault }) => ServiceEnd::StoreFault { fault },
    }
}

/// Rounds until a visitor stops the node.
#[tactic(auto, using(crate::proofs::Rounds::went_none, crate::proofs::Rounds::went_more, crate::proofs::Served::stopped_more, crate::proofs::Served::cut_short))]
fn rounds<R: Wait, K: Sink, L: Links + Counted, D: Desk, C: Clock, B: Disk>(
    rt: &R,
    service: &mut Service,
    log: &mut K,
    switch: &LogSwitch,
    links: &mut L,
    desk: &mut D,
    clock: &mut C,
    shelf: &mut Shelf<B>,
) -> Result<(), Cut>
    ensures { MatchResult result
        (λ _. Stopped B.stands B.faults service.old shelf.old (outside (told (C.readings clock.old) (links_told L.Links links.old)) (desk_told D.Desk desk.old))
        service.new shelf.new (outside (told (C.readings clock.new) (links_told L.Links links.new)) (desk_told D.Desk desk.new)))
        (λ cut. WentShort B.stands B.faults service.old shelf.old
        (outside (told (C.readings clock.old) (links_told L.Links links.old)) (desk_told D.Desk desk.old))
        cut service.new shelf.new (told (C.readings clock.new) (links_told L.Links links.new))) }
{
    for _ in rt.forever() {
        let stops = service.round(log, links, desk, clock, shelf)?;
        switch.set(service.level());
        if stops {
            return Ok(());
        }
    }
    unreachable!()
}
