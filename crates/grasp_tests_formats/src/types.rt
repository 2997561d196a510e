//! Lists and copies.

use grasp_cbor::{Chars, Item, Octets};
use grasp_types::*;
use std::alloc::Global;
use std::fmt::Debug;
use std::process::Abort;
use std::test::Fail;

fn objective(alloc: Global, loops: u8) -> Result<Objective, Fail> {
    Ok(Objective {
        name: Chars::of(alloc, "PrefixManager")?,
        flags: Flags::DISC_NEG,
        loops,
        value: Some(Value::of(Item::Uint(7)).map_err(|_| "value")?),
    })
}

fn locator(alloc: Global) -> Result<Locator, Fail> {
    Ok(Locator::Uri {
        text: Chars::of(alloc, "coap://a")?,
        proto: None,
        port: Some(7017),
    })
}

/// A copy prints as what it was made of does.
fn copies<T: Debug + Drop + Plain>(rt: &impl Abort, alloc: Global, a: &T) -> Result<(), Fail> {
    let first = format!(in alloc; "{a:?}")?;
    let b = a.copy()?;
    let second = format!(in alloc; "{b:?}")?;
    assert_eq!(rt; first.as_str(), second.as_str());
    Ok(())
}

#[test]
fn lists(rt: HostRuntime) -> Result<(), Fail> {
    let alloc = rt.alloc();
    let part = FloodPart {
        objective: objective(alloc, 6)?,
        locator: Some(locator(alloc)?),
    };
    let mut parts = FloodParts::of(alloc, part.copy()?)?;
    parts.push(part)?;
    parts.set_first_loops(5);
    let copied = parts.copy()?;
    assert_eq!(rt; copied.at(0).ok_or("first")?.objective.loops, 5);
    assert_eq!(rt; copied.slice()[1].objective.loops, 6);
    assert_eq!(rt; copied.len(), 2);

    let mut neighbours = Neighbours::new(alloc);
    neighbours.push(Neighbour {
        address: Address::V4(2),
        locator: locator(alloc)?,
    })?;
    if let Some(neighbour) = neighbours.at_mut(0) {
        neighbour.address = Address::V4(3);
    }
    let mut links = LinkLists::new(alloc);
    links.push(neighbours)?;
    let copied = links.copy()?;
    let link = copied.at(0).ok_or("link")?;
    assert_eq!(rt; link.slice()[0].address, Address::V4(3));
    assert_eq!(rt; (copied.len(), link.len()), (1, 1));
    Ok(())
}

#[test]
fn copies_of_messages_inputs_and_replies(rt: HostRuntime) -> Result<(), Fail> {
    let alloc = rt.alloc();
    let message = Message::Response {
        session: 1,
        initiator: Address::V6(0xfd << 120),
        ttl: 60000,
        answer: Answer::Divert(Locators::of(alloc, locator(alloc)?)?),
        objective: Some(objective(alloc, 6)?),
    };
    assert_eq!(rt; message.session(), Some(1));
    copies(&rt, alloc, &message)?;
    let call = Call::EndNegotiate {
        handle: Handle {
            place: 63,
            number: 1,
        },
        verdict: Verdict::Decline(Some(Chars::of(alloc, "busy")?)),
    };
    copies(&rt, alloc, &Input::Api { asa: 1, call })?;
    let mut outputs = Outputs::new(alloc);
    outputs.push(Output::Send {
        stream: 2,
        bytes: Octets::of(alloc, b"\x81\x00")?,
    })?;
    copies(&rt, alloc, &Reply::Outputs(outputs))?;
    Ok(())
}
