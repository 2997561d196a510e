//! What is wrong in a configuration, and what is of no use in it.
use crate::{WRITE_FAULT, file, place, store};
use grasp_config::{NodeConfig, ServeConfig, flood_pause, read_config, read_serve};
use grasp_types::Locator;
use std::io::Write;

/// Tells what is wrong in the file, and returns the status to end with: 0 where it is good.
pub(crate) fn check(rt: &HostRuntime, file: &str) -> u8 {
    let text = match file::read(rt, file) {
        Ok(text) => text,
        Err(status) => return status,
    };
    let status = place::tell_any(rt, file, &text);
    if status != 0 {
        return status;
    }
    if let Ok(config) = read_serve(rt.alloc(), &text) {
        warn(rt, file, &config.node);
        warn_of_floods(rt, file, &config);
        let status = store::try_out(rt, &config);
        if status != 0 {
            return status;
        }
    } else if let Ok(config) = read_config(rt.alloc(), &text) {
        warn(rt, file, &config);
    }
    if writeln!(rt.stdout(), "{file}: good").is_err() {
        let _ = writeln!(rt.stderr(), "grasp_node: standard output: write fault");
        return WRITE_FAULT;
    }
    0
}

/// For so many milliseconds a node remembers a flood.
const REMEMBERED: u64 = 120_000;

/// The most floods in that time of which nothing is said.
const MOST_FLOODS: u64 = 64;

/// Warns of beacons that flood more often than their neighbours can remember.
fn warn_of_floods(rt: &HostRuntime, file: &str, config: &ServeConfig) {
    let mut floods = 0u64;
    for beacon in config.node.beacons.slice() {
        let pause = u64::from(flood_pause(config.serve.every, beacon.ttl)).max(1);
        floods = floods.saturating_add(REMEMBERED / pause);
    }
    if floods > MOST_FLOODS {
        let _ = writeln!(
            rt.stderr(),
            "grasp_node: {file}: beacon: {floods} floods in two minutes; a neighbour remembers 256 of all"
        );
    }
}

/// Warns of what is allowed and of no use.
fn warn(rt: &HostRuntime, file: &str, config: &NodeConfig) {
    let mut link = 0usize;
    for neighbours in config.links.slice() {
        let mut place = 0usize;
        for neighbour in neighbours.slice() {
            if neighbour.address == config.address {
                let _ = writeln!(
                    rt.stderr(),
                    "grasp_node: {file}: link[{link}].neighbour[{place}]: the node itself"
                );
            }
            if is_v4(&neighbour.locator) != is_v4(&config.listen) {
                let _ = writeln!(
                    rt.stderr(),
                    "grasp_node: {file}: link[{link}].neighbour[{place}]: listen is of the other family, so no datagram reaches it"
                );
            }
            let same = neighbours
                .slice()
                .iter()
                .take(place)
                .any(|other| other.address == neighbour.address);
            if same {
                let _ = writeln!(
                    rt.stderr(),
                    "grasp_node: {file}: link[{link}].neighbour[{place}]: a neighbour that stands before it"
                );
            }
            place = place.saturating_add(1);
        }
        link = link.saturating_add(1);
    }
}

fn is_v4(locator: &Locator) -> bool {
    matches!(locator, Locator::V4 { .. })
}
