//! Datagrams that are delivered to nodes of a network.

ghost use Rattle.std.specs.Prelude.{◌≡◌, length, option_map, IfOk, OnErr};
ghost use Rattle.grasp_cbor.specs.Bytes.{AllBytes};
ghost use Rattle.grasp_model_network.specs.Setting.{numbered};
ghost use Rattle.grasp_model_network.specs.declared.event.Event.TheVariants as event;
ghost use Rattle.grasp_simulator.specs.WorldSteps.{Runs, MayStarve};

use crate::parcel::Parcel;
use crate::seat::is_starved;
use crate::world::World;
use crate::world_pieces::are_bytes;
use grasp_cbor::{Octets, OutOfMemory};
use grasp_laws_delivery::streams_are_ready;
use grasp_model_network::Report;
use grasp_types::Input;

impl World {
    /// A datagram that was sent is delivered.
    pub(crate) fn datagram(&mut self, index: u64, hold: bool) -> Result<Report, OutOfMemory>
        ensures runs { IfOk result (λ report. Runs self.old self.new (event.Datagram index hold) report) }
        ensures wanted { OnErr result (MayStarve self.old (event.Datagram index hold)) }
        ensures count { length self.new.seats.items ≡ length self.old.seats.items }
    {
        streams_are_ready();
        let Some(parcel) = self.parcel_at(index) else {
            return Ok(Report::Nothing);
        };
        let (node, link, from) = (parcel.receiver, parcel.link, parcel.from);
        if !self.has(node) {
            return Ok(Report::Nothing);
        }
        let bytes = parcel.bytes.copy()?;
        are_octets(&bytes);
        let reply = self.seats[usize::from(node - 1)].step(Input::Datagram { link, from, bytes });
        if is_starved(&reply) {
            return Err(OutOfMemory);
        }
        self.send_behind(node, hold)?;
        Ok(Report::Reply(reply))
    }

    /// The datagram of this number.
    pub(crate) fn parcel_at(&self, index: u64) -> Option<&Parcel>
        ensures { option_map (λ code. code.now) result ≡ numbered self.now.parcels index }
    {
        if index == 0 {
            return None;
        }
        self.parcels.at(index - 1)
    }
}

/// The bytes of a byte string are numbers below 256.
fn are_octets(bytes: &Octets)
    ensures { AllBytes bytes.now }
{
    are_bytes(bytes.bytes());
}
